//! The entries of a certificate.
ghost use Rattle.std.specs.Prelude.{◌≡◌, ◌++◌, ◌<◌, [], length, map, pos, slice_index, IfOk, OnOk};
ghost use Rattle.std.specs.List.{flat_map};
ghost use Rattle.std.specs.Option.{option_copied, option_to_list};
ghost use Rattle.bl_fproof.specs.Steps.{entry_of, node_of, nodes_of, tree_of};
ghost use Rattle.bl_tree.specs.Closing.{evidence_of};
ghost use Rattle.bl_cert_book.specs.BookCertificates.{book_tree};
ghost use Rattle.bl_certtext.specs.Texts.{text_of};
ghost use Rattle.bl_check_terms.specs.Writing.{proof_line, entry_lines, answer_line};
ghost use Rattle.bl_cert_book.specs.Entries.{entries_of_best, entries_of_leaf, entries_of_tree, proved_entry};
ghost use Rattle.bl_cert_book.specs.Entries.{with_entry, with_entries};
ghost use Rattle.bl_cert.specs.Order.{IsPreorder, node_here};
ghost use Rattle.bl_cert.specs.Entered.{AreByLink, entered};

use crate::lines::{copied, pairs_of};
use bl_certline::{CertLine, put_line};
use bl_core::Book;
use bl_fproof::{Answered, Entry, Step};
use bl_model::Bilevel;
use bl_pool::Kept;
use bl_tree::Leaf;
use std::alloc::{AllocError, Global};
use std::collections::BTreeMap;

/// Entries by their links.
pub(crate) type Entries = BTreeMap<Vec<i64>, Kept>;

// ---- which entries

/// Adds an entry where there is none of its link yet.
fn enter(alloc: Global, entries: &mut Entries, kept: &Kept) -> Result<(), AllocError>
    requires { AreByLink entries.old.entries }
    ensures by_link { OnOk result (AreByLink entries.new.entries) }
    ensures entered { OnOk result (entered entries.new ≡ with_entry (entered entries.old) (proved_entry kept.now)) }
{
    let _rising = entries.len();
    let link = kept.entry().link();
    if entries.contains_key(link) {
        return Ok(());
    }
    let link = Vec::from_slice(alloc, link)?;
    let copy = kept.copy()?;
    entries.insert(link, copy)?;
    Ok(())
}

/// The entry that a leaf uses, where it uses one.
fn entry_of_leaf(leaf: &Leaf) -> Option<&Kept>
    ensures { option_to_list (option_copied result) ≡ entries_of_leaf (evidence_of leaf.now) }
{
    match leaf {
        Leaf::Bounded { value_row, .. } => value_row.as_ref(),
        Leaf::NoAnswer(kept) => Some(kept),
    }
}

/// Adds the entry that a node uses, where it is a leaf that uses one.
fn enter_node(
    alloc: Global,
    book: &Book,
    node: u32,
    entries: &mut Entries,
) -> Result<(), AllocError>
    requires there { node < length book.now.ledger.book.nodes }
    requires by_link { AreByLink entries.old.entries }
    ensures by_link { OnOk result (AreByLink entries.new.entries) }
    ensures entered { OnOk result (entered entries.new
        ≡ with_entries (entered entries.old) (entries_of_tree (node_here book.now.ledger.book node))) }
{
    let Some(leaf) = book.leaf_of(node) else {
        return Ok(());
    };
    match entry_of_leaf(leaf.leaf()) {
        Some(kept) => enter(alloc, entries, kept),
        None => Ok(()),
    }
}

/// Adds the entry of the best incumbent.
fn enter_best(alloc: Global, book: &Book, entries: &mut Entries) -> Result<(), AllocError>
    requires { AreByLink entries.old.entries }
    ensures by_link { OnOk result (AreByLink entries.new.entries) }
    ensures entered { OnOk result (entered entries.new
        ≡ with_entries (entered entries.old) (entries_of_best book.now.ledger.book.best)) }
{
    match book.best() {
        Some(best) => enter(alloc, entries, best.kept()),
        None => Ok(()),
    }
}

/// The entries that the best incumbent and the leaves use, the first for each link.
pub(crate) fn entries_of(alloc: Global, book: &Book, order: &[u32]) -> Result<Entries, AllocError>
    requires { IsPreorder book.now.ledger.book order.now }
    ensures { IfOk result (λ entries. entered entries
        ≡ with_entries []
        (entries_of_best book.now.ledger.book.best ++ entries_of_tree (book_tree book.now.ledger.book))) }
{
    let mut entries = BTreeMap::new(alloc);
    enter_best(alloc, book, &mut entries)?;
    for node in order {
        enter_node(alloc, book, *node, &mut entries)?;
    }
    Ok(entries)
}

// ---- how they are written

/// The column of the model that is the follower's of this number.
fn own_column(model: &Bilevel, column: u32) -> i64
    ensures { result ≡ pos (slice_index model.now.follower column) }
{
    match model.follower().get(column as usize) {
        Some(place) => i64::from(*place),
        None => 0,
    }
}

/// The line of a node of a proof.
fn step_line(alloc: Global, model: &Bilevel, step: &Step) -> Result<CertLine, AllocError>
    ensures { IfOk result (λ line. line ≡ proof_line model.now (node_of step.now)) }
{
    match step {
        Step::Split { column, at } => Ok(CertLine::Split {
            column: own_column(model, *column),
            at: *at,
        }),
        Step::Shut(proof) => Ok(CertLine::Proof {
            den: proof.den,
            mult: pairs_of(alloc, proof.mult.as_slice())?,
        }),
    }
}

/// Writes the nodes of a proof.
fn put_steps(
    alloc: Global,
    model: &Bilevel,
    steps: &[Step],
    text: &mut Vec<u8>,
) -> Result<(), AllocError>
    ensures { OnOk result
        (text.new.items ≡ text.old.items ++ text_of (map (proof_line model.now) (nodes_of steps.now))) }
{
    for step in steps {
        put_line(text, &step_line(alloc, model, step)?)?;
    }
    Ok(())
}

/// The line of what is said of a link.
fn said_line(alloc: Global, answered: &Answered) -> Result<CertLine, AllocError>
    ensures { IfOk result (λ line. line ≡ answer_line (entry_of answered.now)) }
{
    match answered {
        Answered::Best {
            response,
            value,
            ..
        } => Ok(CertLine::Best {
            value: *value,
            response: copied(alloc, response.as_slice())?,
        }),
        Answered::NoResponse { .. } => Ok(CertLine::NoAnswer),
    }
}

/// The nodes of a proof.
fn steps_of(answered: &Answered) -> &[Step]
    ensures { nodes_of result.now ≡ tree_of answered.now }
{
    match answered {
        Answered::Best { proof, .. } => proof.steps.as_slice(),
        Answered::NoResponse { proof } => proof.steps.as_slice(),
    }
}

/// Writes an entry with its proof.
fn put_entry(
    alloc: Global,
    model: &Bilevel,
    entry: &Entry,
    text: &mut Vec<u8>,
) -> Result<(), AllocError>
    ensures { OnOk result
        (text.new.items ≡ text.old.items ++ text_of (entry_lines model.now (proved_entry entry.now))) }
{
    let link = copied(alloc, entry.link())?;
    put_line(text, &CertLine::EntryHead { link })?;
    put_line(text, &said_line(alloc, entry.answered())?)?;
    put_steps(alloc, model, steps_of(entry.answered()), text)
}

/// Writes the entries.
pub(crate) fn put_entries(
    alloc: Global,
    model: &Bilevel,
    entries: &Entries,
    text: &mut Vec<u8>,
) -> Result<(), AllocError>
    ensures { OnOk result
        (text.new.items ≡ text.old.items ++ text_of (flat_map (entry_lines model.now) (entered entries.now))) }
{
    for kept in entries.values() {
        put_entry(alloc, model, kept.entry(), text)?;
    }
    Ok(())
}
