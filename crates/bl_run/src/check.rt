//! The command `check`.

ghost use Rattle.std.specs.Prelude.{◌≡◌, length, Some, IsSome, IfOk, IfErr};
ghost use Rattle.bl_terms.specs.Programs.{columns as column_count};
ghost use Rattle.bl_cert_terms.specs.Certificates.{StatementHolds};
ghost use Rattle.bl_run.specs.Report.{accepted_report};
ghost use Rattle.bl_run.specs.Steps.{result_ending, Ends, IsDefaultUpper, asked_by, AreWithin, program_in};
ghost use Rattle.bl_run.specs.Steps.{IsAcceptedText, FailsToCheck};
ghost use Rattle.bl_words.specs.declared.commands.Command.TheVariants as commands;

use crate::fault::cert_rule;
use crate::read::{Texts, read_texts, read_whole};
use crate::report::stated_report;
use crate::status::{Answer, Failure};
use bl_check::{CheckFail, Statement};
use bl_model::{Bilevel, build};
use bl_outer::{Shelf, Sink};
use bl_raw::RawColumn;
use bl_words::ModelWords;
use std::alloc::{AllocError, Global};

/// Reads both texts and the certificate, checks it, and prints what it states.
pub(crate) fn check<'a, F: Shelf, O: Sink>(
    alloc: Global,
    words: &ModelWords<'a>,
    files: &mut F,
    out: &mut O,
) -> Result<Answer, Failure<'a>>
    requires upper { IsDefaultUpper words.now.default_upper }
    requires cert { IsSome words.now.cert }
    ensures { Ends (asked_by commands.Check words.now)
        (record { files = F.state files.old; out = O.state out.old })
        (record { files = F.state files.new; out = O.state out.new })
        (result_ending result) }
{
    let file = cert_file(words);
    let texts = read_texts(alloc, words, files)?;
    let cert = read_whole(alloc, files, file)?;
    let report = report_on(alloc, &texts, file, &cert)?;
    out.put(&report)?;
    Ok(Answer::Accepted)
}

/// The certificate's file, where one is named.
fn cert_file<'a>(words: &ModelWords<'a>) -> &'a str
    requires { IsSome words.now.cert }
    ensures { words.now.cert ≡ Some result.now }
{
    match words.cert {
        Some(file) => file,
        None => unreachable!(),
    }
}

/// What is printed of the certificate of this file, where it is accepted of the program that the texts make.
fn report_on<'a>(
    alloc: Global,
    texts: &Texts,
    file: &'a str,
    cert: &[u8],
) -> Result<Vec<u8>, Failure<'a>>
    requires { AreWithin texts.now }
    ensures accepted { IfOk result (λ text.
        IsAcceptedText texts.now.mps.columns (program_in texts.now) cert.now text.items) }
    ensures failed { IfErr result (FailsToCheck (program_in texts.now) file.now cert.now) }
{
    let model = build(alloc, &texts.mps, &texts.aux)?;
    match bl_check::check(alloc, &model, cert) {
        Ok(statement) => {
            let columns = texts.mps.columns.as_slice();
            Ok(accepted_report(alloc, columns, &model, &statement)?)
        }
        Err(CheckFail::Refused { line, rule }) => Err(Failure::NotAccepted(
            file,
            line,
            cert_rule(rule),
        )),
        Err(CheckFail::Memory) => Err(Failure::Memory),
    }
}

/// The report of an accepted certificate, by what it states.
fn accepted_report(
    alloc: Global,
    columns: &[RawColumn],
    model: &Bilevel,
    statement: &Statement,
) -> Result<Vec<u8>, AllocError>
    requires columns { length columns.now ≡ column_count model.now }
    requires holds { StatementHolds model.now statement.now }
    ensures { IfOk result (λ text. text.items ≡ accepted_report columns.now model.now statement.now) }
{
    let mut text = Vec::from_slice(alloc, b"accepted\n")?;
    let report = stated_report(alloc, columns, model, statement)?;
    text.extend_from_slice(&report)?;
    Ok(text)
}
