//! How the program ends.

ghost use Rattle.std.specs.Prelude.{◌≡◌, ◌++◌, codes};
ghost use Rattle.std.specs.Fmt.{signed_decimal};
ghost use Rattle.std.specs.List.{flat_map};
ghost use Rattle.bl_run.specs.Endings.{AtLine};
ghost use Rattle.bl_run.specs.Steps.{Puts, place_of, fault_line, rule_line, nodes_line, follower_head, link_text};

use crate::fault::{Place, TextFault};
use bl_outer::{Sink, SinkFail};
use itoa::Buffer;
use std::alloc::AllocError;

/// The exit status. `run` says which comes when.
#[derive(Clone, Copy, Debug, PartialEq, Eq)]
pub struct Status(pub u8);

/// What a command answers, as its report says.
#[derive(Clone, Copy, Debug)]
pub(crate) enum Answer {
    Optimal,
    Infeasible,
    Shown,
    Accepted,
}

impl Answer {
    ghost use Rattle.std.specs.Prelude.{◌≡◌};
    ghost use Rattle.bl_run.specs.Endings.{status_of};
    ghost use Rattle.bl_run.specs.Steps.{answer_ending};

    pub(crate) fn status(self) -> Status
        ensures { result.0 ≡ status_of (answer_ending self) }
    {
        Status(match self {
            Answer::Optimal | Answer::Shown | Answer::Accepted => 0,
            Answer::Infeasible => 1,
        })
    }
}

/// Why a command has no answer. A file is named where one has to do with it: `FileFault` has the one that couldn't be
/// written, `WriteFault` is of the output. Of a spent budget it is told how many nodes it allows, how many were made
/// and, where it is the follower's, at which link; of a certificate that isn't accepted, at which line and by which
/// rule.
#[derive(Debug, Drop)]
pub(crate) enum Failure<'a> {
    Words,
    Text(&'a str, TextFault),
    NodesSpent {
        budget: u32,
        made: u32,
    },
    FollowerSpent {
        budget: u32,
        made: u32,
        link: Vec<i64>,
    },
    ReadFault(&'a str),
    FileFault(&'a str),
    WriteFault,
    Memory,
    NotAccepted(&'a str, u64, &'static str),
    Missing(&'a str),
}

impl From<AllocError> for Failure<'_> {
    ghost use Rattle.std.specs.Prelude.{◌≡◌};
    ghost use Rattle.bl_run.specs.declared.status.Failure.TheVariants.{Memory};

    ghost from_gives = { λ _ e. e ≡ Memory };

    fn from(_error: AllocError) -> Self {
        Failure::Memory
    }
}

impl From<SinkFail> for Failure<'_> {
    ghost use Rattle.std.specs.Prelude.{◌≡◌};
    ghost use Rattle.bl_run.specs.declared.status.Failure.TheVariants.{WriteFault};

    ghost from_gives = { λ _ e. e ≡ WriteFault };

    fn from(_fail: SinkFail) -> Self {
        Failure::WriteFault
    }
}

impl Failure<'_> {
    ghost use Rattle.std.specs.Prelude.{◌≡◌};
    ghost use Rattle.bl_run.specs.Endings.{status_of, line_of};
    ghost use Rattle.bl_run.specs.Promise.{Tells};
    ghost use Rattle.bl_run.specs.Steps.{failure_ending};

    pub(crate) fn status(&self) -> Status
        ensures { result.0 ≡ status_of (failure_ending self.now) }
    {
        Status(match self {
            Failure::Words => 2,
            Failure::Text(_, _) => 3,
            Failure::NodesSpent { .. } => 4,
            Failure::FollowerSpent { .. } => 5,
            Failure::ReadFault(_) => 6,
            Failure::FileFault(_) | Failure::WriteFault => 7,
            Failure::Memory => 8,
            Failure::NotAccepted(_, _, _) => 9,
            Failure::Missing(_) => 10,
        })
    }

    /// Prints the line on the failure. It stops at the first piece that isn't taken.
    pub(crate) fn tell<E: Sink>(&self, err: &mut E)
        ensures { Tells (line_of (failure_ending self.now)) (E.state err.old) (E.state err.new) }
    {
        let _ = match self {
            Failure::Words => put_all(err, &[b"mibs: words not understood\n"]),
            Failure::Text(file, fault) => tell_fault(err, file, *fault),
            Failure::NodesSpent { budget, made } => tell_nodes(err, *budget, *made),
            Failure::FollowerSpent { budget, made, link } => tell_follower(
                err, *budget, *made, link,
            ),
            Failure::ReadFault(file) => put_all(
                err,
                &[b"mibs: read fault: ", file.as_bytes(), b"\n"],
            ),
            Failure::FileFault(_) | Failure::WriteFault => put_all(err, &[b"mibs: write fault\n"]),
            Failure::Memory => put_all(err, &[b"mibs: want of memory\n"]),
            Failure::NotAccepted(file, line, rule) => tell_fault(err, file, at_line(*line, rule)),
            Failure::Missing(file) => put_all(err, &[b"mibs: ", file.as_bytes(), b": missing\n"]),
        };
    }
}

/// The fault of a certificate.
fn at_line(line: u64, rule: &'static str) -> TextFault
    ensures place { place_of result.place ≡ AtLine line }
    ensures rule { result.rule.now ≡ rule.entry.now }
{
    TextFault {
        place: Place::Line(line),
        rule,
    }
}

/// Prints the line on a text that breaks a rule.
fn tell_fault<E: Sink>(err: &mut E, file: &str, fault: TextFault) -> Result<(), SinkFail>
    ensures { Puts (fault_line file.now fault) (E.state err.old) (E.state err.new) result }
{
    put_all(err, &[b"mibs: ", file.as_bytes(), b": "])?;
    put_rule(err, fault)
}

fn put_rule<E: Sink>(err: &mut E, fault: TextFault) -> Result<(), SinkFail>
    ensures { Puts (rule_line fault) (E.state err.old) (E.state err.new) result }
{
    let rule = fault.rule.as_bytes();
    match fault.place {
        Place::Whole => put_all(err, &[rule, b"\n"]),
        Place::Line(line) => {
            let mut digits = Buffer::new();
            let line = digits.format(line).as_bytes();
            put_all(err, &[b"line ", line, b": ", rule, b"\n"])
        }
        Place::Column(column) => {
            let mut digits = Buffer::new();
            let column = digits.format(column).as_bytes();
            put_all(err, &[b"column ", column, b": ", rule, b"\n"])
        }
    }
}

/// Prints the line on the spent budget of nodes.
fn tell_nodes<E: Sink>(err: &mut E, budget: u32, made: u32) -> Result<(), SinkFail>
    ensures { Puts (nodes_line budget made) (E.state err.old) (E.state err.new) result }
{
    let mut budget_digits = Buffer::new();
    let mut made_digits = Buffer::new();
    let budget = budget_digits.format(budget).as_bytes();
    let made = made_digits.format(made).as_bytes();
    put_all(
        err,
        &[
            b"mibs: node budget ",
            budget,
            b" spent with ",
            made,
            b" nodes\n",
        ],
    )
}

/// Prints the line on the spent budget of the follower.
fn tell_follower<E: Sink>(err: &mut E, budget: u32, made: u32, link: &[i64]) -> Result<(), SinkFail>
    ensures { Puts (follower_head budget made ++ (link_text link.now ++ codes "\n"))
        (E.state err.old) (E.state err.new) result }
{
    put_head(err, budget, made)?;
    put_link(err, link)
}

/// Puts the line up to the link.
fn put_head<E: Sink>(err: &mut E, budget: u32, made: u32) -> Result<(), SinkFail>
    ensures { Puts (follower_head budget made) (E.state err.old) (E.state err.new) result }
{
    let mut budget_digits = Buffer::new();
    let mut made_digits = Buffer::new();
    let budget = budget_digits.format(budget).as_bytes();
    let made = made_digits.format(made).as_bytes();
    put_all(
        err,
        &[
            b"mibs: follower budget ",
            budget,
            b" spent with ",
            made,
            b" nodes at link",
        ],
    )
}

/// Puts the values of a link, and ends the line.
fn put_link<E: Sink>(err: &mut E, link: &[i64]) -> Result<(), SinkFail>
    ensures { Puts (link_text link.now ++ codes "\n") (E.state err.old) (E.state err.new) result }
{
    put_values(err, link)?;
    put_all(err, &[b"\n"])
}

fn put_values<E: Sink>(err: &mut E, values: &[i64]) -> Result<(), SinkFail>
    ensures { Puts (link_text values.now) (E.state err.old) (E.state err.new) result }
{
    for value in values {
        put_value(err, *value)?;
    }
    Ok(())
}

fn put_value<E: Sink>(err: &mut E, value: i64) -> Result<(), SinkFail>
    ensures { Puts (codes " " ++ signed_decimal value) (E.state err.old) (E.state err.new) result }
{
    let mut digits = Buffer::new();
    put_all(err, &[b" ", digits.format(value).as_bytes()])
}

/// Puts the pieces in order, up to the first that isn't taken.
fn put_all<E: Sink>(err: &mut E, pieces: &[&[u8]]) -> Result<(), SinkFail>
    ensures { Puts (flat_map (λ piece. piece.now) pieces.now) (E.state err.old) (E.state err.new) result }
{
    for piece in pieces {
        err.put(piece)?;
    }
    Ok(())
}
