//! The command `solve`.

ghost use Rattle.std.specs.Prelude.{◌≡◌, length, IfOk, IfErr};
ghost use Rattle.std.specs.Arc.{arc_value};
ghost use Rattle.bl_terms.specs.Programs.{columns as column_count};
ghost use Rattle.bl_follower.specs.Exhausted.{IsExhausted};
ghost use Rattle.bl_team.specs.Answers.{IsOutcomeFor};
ghost use Rattle.bl_cert_terms.specs.Certificates.{StatementHolds};
ghost use Rattle.bl_cert_book.specs.BookCertificates.{stated_by};
ghost use Rattle.bl_run.specs.Endings.{FollowerSpent};
ghost use Rattle.bl_run.specs.Solve.{settings_of};
ghost use Rattle.bl_run.specs.Steps.{failure_ending, result_ending, IsReport, IsReportOf, FailsToSolve, Ends};
ghost use Rattle.bl_run.specs.Steps.{AreBudgets, IsDefaultUpper, asked_by, AreWithin, program_in};
ghost use Rattle.bl_words.specs.declared.commands.Command.TheVariants as commands;

use crate::cert::{asked_text, write_asked};
use crate::read::{Texts, read_texts};
use crate::report::{INFEASIBLE, follower_value, optimal_report};
use crate::status::{Answer, Failure};
use bl_core::{Book, Ended, Outcome};
use bl_follower::Spent;
use bl_model::{Bilevel, build};
use bl_outer::{Shelf, Sink};
use bl_raw::RawColumn;
use bl_team::{Settings, solve_alone};
use bl_words::ModelWords;
use std::alloc::{AllocError, Global};
use std::sync::Arc;

/// An answer and its text.
#[derive(Drop)]
struct Report {
    answer: Answer,
    text: Vec<u8>,
}

/// The report of a search that is done, and the text of its certificate where one is asked for.
#[derive(Drop)]
struct Solved {
    report: Report,
    cert: Vec<u8>,
}

/// Reads both texts, solves, writes the certificate where one is asked for, and prints the report.
pub(crate) fn solve<'a, F: Shelf, O: Sink>(
    alloc: Global,
    words: &ModelWords<'a>,
    files: &mut F,
    out: &mut O,
) -> Result<Answer, Failure<'a>>
    requires upper { IsDefaultUpper words.now.default_upper }
    requires budgets { AreBudgets words.now.nodes words.now.follower_nodes }
    ensures { Ends (asked_by commands.Solve words.now)
        (record { files = F.state files.old; out = O.state out.old })
        (record { files = F.state files.new; out = O.state out.new })
        (result_ending result) }
{
    let texts = read_texts(alloc, words, files)?;
    let solved = solve_texts(alloc, words, &texts)?;
    write_asked(words, files, &solved.cert)?;
    out.put(&solved.report.text)?;
    Ok(solved.report.answer)
}

/// Searches the program that the texts make, and writes what is to be printed.
fn solve_texts<'a>(
    alloc: Global,
    words: &ModelWords<'a>,
    texts: &Texts,
) -> Result<Solved, Failure<'a>>
    requires within { AreWithin texts.now }
    requires budgets { AreBudgets words.now.nodes words.now.follower_nodes }
    ensures report { IfOk result (λ solved. IsReport texts.now.mps.columns (program_in texts.now)
        (asked_by commands.Solve words.now) solved.report.answer solved.report.text.items solved.cert.items) }
    ensures failed { IfErr result (FailsToSolve (program_in texts.now) (asked_by commands.Solve words.now)) }
{
    let model = shared_model(alloc, texts)?;
    let outcome = solve_alone(alloc, model, settings_of(words))?;
    told_of(alloc, words, texts.mps.columns.as_slice(), &outcome)
}

/// What is told of a search that has ended: the report of its answer, or which budget was spent.
fn told_of<'a>(
    alloc: Global,
    words: &ModelWords<'a>,
    columns: &[RawColumn],
    outcome: &Outcome,
) -> Result<Solved, Failure<'a>>
    requires columns { length columns.now ≡ column_count outcome.now.book.ledger.book.program }
    requires found { IsOutcomeFor outcome.now.book.ledger.book.program 1
        (settings_of (asked_by commands.Solve words.now)) outcome.now }
    ensures report { IfOk result (λ solved. IsReport columns.now outcome.now.book.ledger.book.program
        (asked_by commands.Solve words.now) solved.report.answer solved.report.text.items solved.cert.items) }
    ensures failed { IfErr result
        (FailsToSolve outcome.now.book.ledger.book.program (asked_by commands.Solve words.now)) }
{
    let book = outcome.book();
    let _limit = book.limit();
    match outcome.end() {
        Ended::Done => {
            let report = report_of(alloc, columns, book)?;
            let cert = asked_text(alloc, words, book)?;
            Ok(Solved { report, cert })
        }
        Ended::Nodes { .. } => Err(Failure::NodesSpent {
            budget: words.nodes,
            made: book.made(),
        }),
        Ended::Follower(spent) => Err(follower_spent(alloc, spent)?),
    }
}

/// The program that the texts make.
fn shared_model(alloc: Global, texts: &Texts) -> Result<Arc<Bilevel, Global>, AllocError>
    requires { AreWithin texts.now }
    ensures { IfOk result (λ model. arc_value model ≡ program_in texts.now) }
{
    let model = build(alloc, &texts.mps, &texts.aux)?;
    let model = Arc::new(alloc, model)?;
    Ok(model)
}

/// The search that is asked for, with one worker.
fn settings_of(words: &ModelWords<'_>) -> Settings
    ensures { result ≡ settings_of (asked_by commands.Solve words.now) }
{
    Settings {
        workers: 1,
        nodes: words.nodes,
        follower_nodes: words.follower_nodes,
    }
}

/// The failure where the follower's budget is spent.
fn follower_spent<'a>(alloc: Global, spent: &Spent) -> Result<Failure<'a>, AllocError>
    ensures told { IfOk result (λ failure.
        failure_ending failure ≡ FollowerSpent spent.now.budget (length spent.now.nodes) spent.now.link) }
    ensures exhausted { IsExhausted spent.now }
{
    let link = Vec::from_slice(alloc, spent.link())?;
    let budget = spent.budget();
    let made = spent.tree().nodes.as_slice().len() as u32;
    Ok(Failure::FollowerSpent { budget, made, link })
}

/// The report of the best incumbent of a search that is done.
fn report_of(alloc: Global, columns: &[RawColumn], book: &Book) -> Result<Report, AllocError>
    requires columns { length columns.now ≡ column_count book.now.ledger.book.program }
    requires right { StatementHolds book.now.ledger.book.program
        (stated_by book.now.ledger.book.program book.now.ledger.book.best) }
    ensures { IfOk result (λ report. IsReportOf columns.now book.now.ledger.book.program
        book.now.ledger.book.best report.answer report.text.items) }
{
    let Some(best) = book.best() else {
        return Ok(Report {
            answer: Answer::Infeasible,
            text: Vec::from_slice(alloc, INFEASIBLE)?,
        });
    };
    let model = book.model();
    let point = best.point();
    let value = model.value_of(point);
    let follower = follower_value(model, point);
    let text = optimal_report(alloc, columns, point, value, follower)?;
    Ok(Report {
        answer: Answer::Optimal,
        text,
    })
}
