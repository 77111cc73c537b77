//! The top calls.

ghost use Rattle.std.specs.Prelude.{◌≡◌, map, string_bytes};
ghost use Rattle.bl_run.specs.Words.{each_command, show_alone, check_alone};
ghost use Rattle.bl_run.specs.Endings.{OutOfMemory, status_of, line_of};
ghost use Rattle.bl_run.specs.Promise.{Promise, Tells};
ghost use Rattle.bl_run.specs.Steps.{result_ending, never_writes, EndsCommand};

use crate::check::check;
use crate::show::show;
use crate::solve::solve;
use crate::status::{Answer, Failure, Status};
use bl_command_line::model_words;
use bl_outer::{Gate, Shelf, Sink};
use bl_words::Command;
use std::alloc::Global;
use std::sync::Wait;
use std::thread::Threads;

/// Does all that the program does: takes the words after the program's name, reads the files that they name,
/// prints the report on `out`, or the line on a failure on `err`, and answers the exit status.
///
/// | Status | Comes |
/// |---|---|
/// | 0 | an optimal point is printed, the two texts are, or what an accepted certificate states |
/// | 1 | it is printed that a search found no bilevel feasible point |
/// | 2 | the words aren't those of a command |
/// | 3 | a text breaks a rule |
/// | 4 | the budget of nodes of the branch-and-bound tree is spent |
/// | 5 | the budget of nodes of the follower's tree is spent at a link |
/// | 6 | the shelf failed in reading |
/// | 7 | `out` or the certificate's file failed; some first bytes of what was to be written may stand there |
/// | 8 | no memory was left at some step before anything was written |
/// | 9 | the certificate that is to be checked breaks a rule |
/// | 10 | the file that is to be read next is missing |
///
/// The MPS file is read and judged before the auxiliary file is looked for, and both before the certificate that is to
/// be checked. Where a fault of reading or want of memory comes first, it stands in place of a later cause. The
/// certificate of an answer is written whole before the answer is printed: where that fails, nothing stands on `out`.
/// Of a search that spent a budget no certificate is written. A failure of `err` changes no status.
/// No budget is spent that is at least twice the points of its box less one: the box of all columns, and that of the
/// follower's. What the files and outputs hold is known where they tell it. The gate and the threads have no effect on
/// any answer.
pub fn run<R: Threads + Wait + Sync, F: Shelf, O: Sink, E: Sink, G: Gate + Sync>(
    _rt: &R,
    alloc: Global,
    words: &[String],
    files: &mut F,
    out: &mut O,
    err: &mut E,
    _gate: &G,
) -> Status
    ensures { Promise each_command (map string_bytes words.now)
        (record { files = F.state files.old; out = O.state out.old })
        (record { files = F.state files.new; out = O.state out.new })
        (E.state err.old) (E.state err.new) result.0 }
{
    run_alone(alloc, words, files, out, err)
}

/// The same as `run` on one thread; it waits for nobody, and returns.
pub fn run_alone<F: Shelf, O: Sink, E: Sink>(
    alloc: Global,
    words: &[String],
    files: &mut F,
    out: &mut O,
    err: &mut E,
) -> Status
    ensures { Promise each_command (map string_bytes words.now)
        (record { files = F.state files.old; out = O.state out.old })
        (record { files = F.state files.new; out = O.state out.new })
        (E.state err.old) (E.state err.new) result.0 }
{
    let ended = command(alloc, words, files, out);
    end(ended, err)
}

/// The command `show` alone: every other one is an unknown one to it. It waits for nobody, and returns.
pub fn run_show<F: Shelf, O: Sink, E: Sink>(
    alloc: Global,
    words: &[String],
    files: &mut F,
    out: &mut O,
    err: &mut E,
) -> Status
    ensures { Promise show_alone (map string_bytes words.now)
        (record { files = F.state files.old; out = O.state out.old })
        (record { files = F.state files.new; out = O.state out.new })
        (E.state err.old) (E.state err.new) result.0 }
{
    let ended = show_command(alloc, words, files, out);
    end(ended, err)
}

/// The command `check` alone: every other one is an unknown one to it. It waits for nobody, and returns.
pub fn run_check<F: Shelf, O: Sink, E: Sink>(
    alloc: Global,
    words: &[String],
    files: &mut F,
    out: &mut O,
    err: &mut E,
) -> Status
    ensures { Promise check_alone (map string_bytes words.now)
        (record { files = F.state files.old; out = O.state out.old })
        (record { files = F.state files.new; out = O.state out.new })
        (E.state err.old) (E.state err.new) result.0 }
{
    let ended = check_command(alloc, words, files, out);
    end(ended, err)
}

/// The status of what a command answered, whose line is printed where it has one.
fn end<E: Sink>(ended: Result<Answer, Failure<'_>>, err: &mut E) -> Status
    ensures status { result.0 ≡ status_of (result_ending ended.entry) }
    ensures told { Tells (line_of (result_ending ended.entry)) (E.state err.old) (E.state err.new) }
{
    match ended {
        Ok(answer) => answer.status(),
        Err(failure) => {
            failure.tell(err);
            failure.status()
        }
    }
}

/// Does what the words ask for.
fn command<'a, F: Shelf, O: Sink>(
    alloc: Global,
    words: &'a [String],
    files: &mut F,
    out: &mut O,
) -> Result<Answer, Failure<'a>>
    ensures { EndsCommand each_command (map string_bytes words.now)
        (record { files = F.state files.old; out = O.state out.old })
        (record { files = F.state files.new; out = O.state out.new })
        (result_ending result) }
{
    match model_words(alloc, Command::Solve, words)? {
        Some(asked) => solve(alloc, &asked, files, out),
        None => reading_command(alloc, words, files, out),
    }
}

/// Does what the words ask for, where that writes no file: `show` or `check`.
fn reading_command<'a, F: Shelf, O: Sink>(
    alloc: Global,
    words: &'a [String],
    files: &mut F,
    out: &mut O,
) -> Result<Answer, Failure<'a>>
    ensures { EndsCommand never_writes (map string_bytes words.now)
        (record { files = F.state files.old; out = O.state out.old })
        (record { files = F.state files.new; out = O.state out.new })
        (result_ending result) }
{
    match model_words(alloc, Command::Show, words)? {
        Some(asked) => show(alloc, &asked, files, out),
        None => check_command(alloc, words, files, out),
    }
}

/// Does what the words ask for, where that is `show`.
fn show_command<'a, F: Shelf, O: Sink>(
    alloc: Global,
    words: &'a [String],
    files: &mut F,
    out: &mut O,
) -> Result<Answer, Failure<'a>>
    ensures { EndsCommand show_alone (map string_bytes words.now)
        (record { files = F.state files.old; out = O.state out.old })
        (record { files = F.state files.new; out = O.state out.new })
        (result_ending result) }
{
    match model_words(alloc, Command::Show, words)? {
        Some(asked) => show(alloc, &asked, files, out),
        None => Err(Failure::Words),
    }
}

/// Does what the words ask for, where that is `check`.
fn check_command<'a, F: Shelf, O: Sink>(
    alloc: Global,
    words: &'a [String],
    files: &mut F,
    out: &mut O,
) -> Result<Answer, Failure<'a>>
    ensures { EndsCommand check_alone (map string_bytes words.now)
        (record { files = F.state files.old; out = O.state out.old })
        (record { files = F.state files.new; out = O.state out.new })
        (result_ending result) }
{
    match model_words(alloc, Command::Check, words)? {
        Some(asked) => check(alloc, &asked, files, out),
        None => Err(Failure::Words),
    }
}

/// The answer where not even the words could be read for want of memory.
pub fn out_of_memory<E: Sink>(err: &mut E) -> Status
    ensures status { result.0 ≡ 8 }
    ensures told { Tells (line_of OutOfMemory) (E.state err.old) (E.state err.new) }
{
    Failure::Memory.tell(err);
    Failure::Memory.status()
}
