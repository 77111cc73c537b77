//! The certificate of an answer, and the file that it is written to.

ghost use Rattle.std.specs.Prelude.{IfOk, OnOk, OnErr};
ghost use Rattle.bl_outer.specs.Count.{HasCause};
ghost use Rattle.bl_outer.specs.Files.{Told};
ghost use Rattle.bl_outer.specs.Shelf.{OnlyWrites};
ghost use Rattle.bl_book_terms.specs.Books.{IsFinished};
ghost use Rattle.bl_run.specs.Promise.{Writes, WritesPrefix};
ghost use Rattle.bl_run.specs.Steps.{IsCertText, PutsFile};

use crate::status::Failure;
use bl_cert::certificate_text;
use bl_core::Book;
use bl_outer::{Shelf, ShelfFail};
use bl_words::ModelWords;
use std::alloc::{AllocError, Global};

/// The text of the certificate where one is asked for, and else nothing.
pub(crate) fn asked_text(
    alloc: Global,
    words: &ModelWords<'_>,
    book: &Book,
) -> Result<Vec<u8>, AllocError>
    requires { IsFinished book.now.ledger.book }
    ensures { IfOk result (λ text. IsCertText words.now.cert book.now.ledger.book text.items) }
{
    match words.cert {
        Some(_) => certificate_text(alloc, book),
        None => Ok(Vec::new(alloc)),
    }
}

/// Writes the text to the certificate's file where one is named, and else nothing.
pub(crate) fn write_asked<'a, F: Shelf>(
    words: &ModelWords<'a>,
    files: &mut F,
    text: &[u8],
) -> Result<(), Failure<'a>>
    ensures { PutsFile words.now.cert text.now (F.state files.old) (F.state files.new) result }
{
    let Some(file) = words.cert else {
        return Ok(());
    };
    match write_file(files, file, text) {
        Ok(()) => Ok(()),
        Err(ShelfFail) => Err(Failure::FileFault(file)),
    }
}

/// Writes a whole file. After a failure it is as before, or has some first bytes of the text.
fn write_file<F: Shelf>(files: &mut F, name: &str, text: &[u8]) -> Result<(), ShelfFail>
    ensures ok { OnOk result
        (Told (Writes name.now text.now) (F.state files.old).contents (F.state files.new).contents) }
    ensures err { OnErr result
        (Told (WritesPrefix name.now text.now) (F.state files.old).contents (F.state files.new).contents) }
    ensures writes { OnlyWrites (F.state files.old) (F.state files.new) }
    ensures fault { HasCause (F.state files.old).write_faults (F.state files.new).write_faults result }
{
    files.begin(name)?;
    files.append(text)?;
    files.finish()?;
    Ok(())
}
