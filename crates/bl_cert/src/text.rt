//! The text of the certificate of a book.
ghost use Rattle.std.specs.Prelude.{◌≡◌, ◌++◌, List, map, IfOk, OnOk};
ghost use Rattle.std.specs.Arc.{arc_value};
ghost use Rattle.bl_outer.specs.Shelf.{IsWriting, OnlyWrites};
ghost use Rattle.bl_terms.specs.Trees.{BareNode};
ghost use Rattle.bl_book_terms.specs.Books.{IsFinished};
ghost use Rattle.bl_cert_terms.specs.Certificates.{LeafProof};
ghost use Rattle.bl_cert_terms.specs.declared.stated.Statement.TheVariants.{Optimal};
ghost use Rattle.bl_cert_book.specs.BookCertificates.{stated_by};
ghost use Rattle.bl_certtext.specs.Texts.{text_of};
ghost use Rattle.bl_check_terms.specs.Writing.{node_line, statement_lines};
ghost use Rattle.bl_cert.specs.Entered.{entered};
ghost use Rattle.bl_cert.specs.Order.{IsPreorder};
ghost use Rattle.bl_cert.specs.Pieces.{AreCounted, head_lines, list_lines, tree_lines};
ghost use Rattle.bl_cert.specs.Placing.{PutsBook};
ghost use Rattle.bl_cert.specs.Written.{IsCertificateText, IsWritten};

use crate::entries::{Entries, entries_of, put_entries};
use crate::lines::copied;
use crate::order::preorder;
use crate::steps::put_cuts;
use crate::tree::{PlaceFail, Steps, place_tree};
use bl_certline::{CertLine, put_line};
use bl_core::Book;
use bl_model::Bilevel;
use bl_outer::Shelf;
use std::alloc::{AllocError, Global};

/// Writes an optimal point with its value.
fn put_optimal(
    alloc: Global,
    point: &[i64],
    value: i64,
    text: &mut Vec<u8>,
) -> Result<(), AllocError>
    ensures { OnOk result
        (text.new.items ≡ text.old.items ++ text_of (statement_lines (Optimal point.now value))) }
{
    put_line(text, &CertLine::StatesOptimal { value })?;
    let values = copied(alloc, point)?;
    put_line(text, &CertLine::Point { values })
}

/// Writes what is stated.
fn put_statement(alloc: Global, book: &Book, text: &mut Vec<u8>) -> Result<(), AllocError>
    ensures { OnOk result (text.new.items ≡ text.old.items
        ++ text_of (statement_lines (stated_by book.now.ledger.book.program book.now.ledger.book.best))) }
{
    let Some(best) = book.best() else {
        return put_line(text, &CertLine::StatesInfeasible);
    };
    let point = best.point();
    let value = book.model().value_of(point);
    put_optimal(alloc, point, value, text)
}

/// Writes the version, the sense and what is stated.
fn put_head(alloc: Global, book: &Book, text: &mut Vec<u8>) -> Result<(), AllocError>
    ensures { OnOk result (text.new.items ≡ text.old.items ++ text_of (head_lines book.now.ledger.book)) }
{
    put_line(text, &CertLine::Version { number: 2 })?;
    let maximise = book.model().leader_sense() == -1;
    put_line(text, &CertLine::Sense { maximise })?;
    put_statement(alloc, book, text)
}

/// Writes the entries with their number, and the cuts with theirs.
fn put_lists(
    alloc: Global,
    model: &Bilevel,
    entries: &Entries,
    steps: &Steps,
    text: &mut Vec<u8>,
) -> Result<(), AllocError>
    ensures text { OnOk result (text.new.items ≡ text.old.items
        ++ text_of (list_lines model.now (entered entries.now) (map arc_value steps.now.items))) }
    ensures counted { OnOk result (AreCounted (entered entries.now) (map arc_value steps.now.items)) }
{
    let count = entries.len() as i64;
    put_line(text, &CertLine::Entries { count })?;
    put_entries(alloc, model, entries, text)?;
    let count = steps.len() as i64;
    put_line(text, &CertLine::CutCount { count })?;
    put_cuts(alloc, steps, text)
}

/// Writes the lines of the tree, and gives the cuts that its leaves cite. No leaf of a search cites two cuts that are
/// one.
fn placed(
    alloc: Global,
    book: &Book,
    order: &[u32],
    text: &mut Vec<u8>,
) -> Result<Steps, AllocError>
    requires finished { IsFinished book.now.ledger.book }
    requires order { IsPreorder book.now.ledger.book order.now }
    ensures { IfOk result (λ steps.
        PutsBook book.now.ledger.book text.old.items (map arc_value steps.items) text.new.items) }
{
    let rows = book.model().rows().len() + 1;
    match place_tree(alloc, book, rows, order, text) {
        Ok(steps) => Ok(steps),
        Err(PlaceFail::Twice) => unreachable!(),
        Err(PlaceFail::Memory) => Err(AllocError),
    }
}

/// Writes the tree, the lines of whose nodes are these bytes.
fn put_tree(tree: &[u8], text: &mut Vec<u8>) -> Result<(), AllocError>
    ensures { OnOk result ((nodes : List (BareNode LeafProof)) → tree.now ≡ text_of (map node_line nodes)
        → text.new.items ≡ text.old.items ++ text_of (tree_lines nodes)) }
{
    put_line(text, &CertLine::TreeHead)?;
    text.extend_from_slice(tree)?;
    put_line(text, &CertLine::End)
}

/// The text of the certificate of a finished search, in version 2.
pub fn certificate_text(alloc: Global, book: &Book) -> Result<Vec<u8>, AllocError>
    requires { IsFinished book.now.ledger.book }
    ensures { IfOk result (λ text. IsCertificateText book.now.ledger.book text.items) }
{
    let order = preorder(alloc, book)?;
    let entries = entries_of(alloc, book, &order)?;
    let mut tree = Vec::new(alloc);
    let steps = placed(alloc, book, &order, &mut tree)?;
    let mut text = Vec::new(alloc);
    put_head(alloc, book, &mut text)?;
    put_lists(alloc, book.model(), &entries, &steps, &mut text)?;
    put_tree(&tree, &mut text)?;
    Ok(text)
}

/// Why a certificate isn't written.
#[derive(Clone, Copy, Debug, PartialEq, Eq)]
pub enum WriteFail {
    /// The file took some first bytes of it at most.
    Failed,
    Memory,
}

/// Adds the certificate of a finished search to the chosen file.
pub fn write_cert<F: Shelf>(alloc: Global, book: &Book, files: &mut F) -> Result<(), WriteFail>
    requires finished { IsFinished book.now.ledger.book }
    requires writing { IsWriting (F.state files.old).mode }
    ensures written { IsWritten book.now.ledger.book result (F.state files.old) (F.state files.new) }
    ensures chosen { (F.state files.new).mode ≡ (F.state files.old).mode }
    ensures writes { OnlyWrites (F.state files.old) (F.state files.new) }
{
    let Ok(text) = certificate_text(alloc, book) else {
        return Err(WriteFail::Memory);
    };
    match files.append(&text) {
        Ok(()) => Ok(()),
        Err(_) => Err(WriteFail::Failed),
    }
}
