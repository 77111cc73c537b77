//! The tree of a certificate, and the cuts that its leaves cite.
ghost use Rattle.std.specs.Prelude.{◌≡◌, ◌++◌, ◌<◌, [], length, map, IfOk, IfErr, OnOk};
ghost use Rattle.std.specs.Prelude.{◌∷◌, ℕ, List, Some, None, pos};
ghost use Rattle.std.specs.Arc.{arc_value};
ghost use Rattle.bl_terms.specs.Trees.{Leaf as LeafNode, Split as SplitNode};
ghost use Rattle.bl_cut.specs.Cuts.{cut_at};
ghost use Rattle.bl_cut_terms.specs.Adopting.{adopt_cut as adopt_one};
ghost use Rattle.bl_tree.specs.Closing.{evidence_of};
ghost use Rattle.bl_leaf_terms.specs.Leaves.{Bounded as BoundedLeaf};
ghost use Rattle.bl_cert_terms.specs.Certificates.{Bounded};
ghost use Rattle.bl_cert_book.specs.Leaves.{adopt_all as adopt_all_of, cited_pairs as pairs_cited, with_pairs};
ghost use Rattle.bl_cert_book.specs.Leaves.{placed_leaf};
ghost use Rattle.bl_certtext.specs.Texts.{text_of};
ghost use Rattle.bl_check_terms.specs.Writing.{node_line};
ghost use Rattle.bl_cert.specs.Order.{node_here, nodes_here};
ghost use Rattle.bl_cert.specs.Placing.{IsTwice, PutsLeaf, PutsNodes, CannotPlace, fail_of};
ghost use Rattle.bl_cert.specs.declared.tree.PlaceFail.TheVariants.{Memory};

use crate::cited::{Cited, are_rising, by_place_of};
use crate::lines::pairs_of;
use bl_bound::Proof;
use bl_certline::{CertLine, put_line};
use bl_core::Book;
use bl_cut::{CutStep, Cuts};
use bl_cut_proof::{CutFault, adopt_used};
use bl_model::Halves;
use bl_pool::Kept;
use bl_raw::Listed;
use bl_tree::Leaf;
use std::alloc::{AllocError, AllocFailed, Global};
use std::sync::Arc;

/// The cuts so far, in their order.
pub(crate) type Steps = Vec<Arc<CutStep, Global>>;

/// Why a tree isn't placed.
#[derive(Clone, Copy, Debug, PartialEq, Eq)]
pub(crate) enum PlaceFail {
    /// A leaf cites two cuts that are one, or a cut uses two such cuts. A search makes none.
    Twice,
    Memory,
}

impl From<AllocError> for PlaceFail {
    ghost from_gives = { λ _ fail. fail ≡ Memory };

    fn from(_: AllocError) -> PlaceFail {
        PlaceFail::Memory
    }
}

impl<T: Drop> From<AllocFailed<T>> for PlaceFail {
    ghost from_gives = { λ _ fail. fail ≡ Memory };

    fn from(_: AllocFailed<T>) -> PlaceFail {
        PlaceFail::Memory
    }
}

/// Why the steps of a cut aren't taken over.
fn place_fail(fault: CutFault) -> PlaceFail
    ensures { result ≡ fail_of fault }
{
    match fault {
        CutFault::Memory => PlaceFail::Memory,
        _ => PlaceFail::Twice,
    }
}

/// Takes over the steps of a cut, and gives the place of its last.
fn adopt_cut(alloc: Global, steps: &mut Steps, cuts: &Cuts, k: u32) -> Result<u32, PlaceFail>
    requires { k < length cuts.now }
    ensures ok { IfOk result (λ place. (places : List ℕ)
        → adopt_one (record { steps = map arc_value steps.old.items; places = places }) (cut_at cuts.now k)
        ≡ Some (record { steps = map arc_value steps.new.items; places = places ++ place ∷ [] })) }
    ensures err { IfErr result (IsTwice ((places : List ℕ)
        → adopt_one (record { steps = map arc_value steps.old.items; places = places }) (cut_at cuts.now k) ≡ None)) }
{
    let Some(cut) = cuts.at(k) else {
        return Ok(0);
    };
    match adopt_used(alloc, steps, cut) {
        Ok(place) => Ok(place),
        Err(fault) => Err(place_fail(fault)),
    }
}

/// Takes over the steps of each cut, and gives the places of their last ones.
fn adopt_all(alloc: Global, steps: &mut Steps, cuts: &Cuts) -> Result<Vec<u32>, PlaceFail>
    ensures ok { IfOk result (λ places.
        adopt_all_of (record { steps = map arc_value steps.old.items; places = [] }) cuts.now
        ≡ Some (record { steps = map arc_value steps.new.items; places = places.items })) }
    ensures err { IfErr result (IsTwice
        (adopt_all_of (record { steps = map arc_value steps.old.items; places = [] }) cuts.now ≡ None)) }
{
    let mut places = Vec::with_capacity(alloc, cuts.count() as usize)?;
    for k in 0..cuts.count() {
        places.push(adopt_cut(alloc, steps, cuts, k)?)?;
    }
    Ok(places)
}

/// The multipliers of a leaf: those of the rows, and behind them those of the cuts.
fn multipliers(
    alloc: Global,
    rows: usize,
    proof: &Proof,
    cited: &[Cited],
) -> Result<Vec<i64>, AllocError>
    ensures { IfOk result (λ mult. mult.items ≡ (with_pairs rows proof.now cited.now).mult) }
{
    let numbers = proof.mult.as_slice();
    let mut all = Vec::from_slice(alloc, &numbers[..rows.min(numbers.len())])?;
    for pair in cited {
        all.push(pair.1)?;
    }
    Ok(all)
}

/// The places of the cited cuts.
fn places_of(alloc: Global, cited: &[Cited]) -> Result<Listed<i64>, AllocError>
    ensures { IfOk result (λ places. places ≡ map pos (map (λ x. x.0) cited.now)) }
{
    let mut places = Vec::with_capacity(alloc, cited.len())?;
    for pair in cited {
        places.push(i64::from(pair.0))?;
    }
    Ok(Listed::new(places))
}

/// The line of a leaf that is closed by a bound.
fn close_line(
    alloc: Global,
    rows: usize,
    proof: &Proof,
    value_row: bool,
    cited: &[Cited],
) -> Result<CertLine, AllocError>
    ensures { IfOk result (λ line. line
        ≡ node_line (LeafNode (Bounded (with_pairs rows proof.now cited.now) value_row (map (λ x. x.0) cited.now)))) }
{
    let mult = multipliers(alloc, rows, proof, cited)?;
    Ok(CertLine::Close {
        den: proof.den,
        value_row,
        count: cited.len() as i64,
        cuts: places_of(alloc, cited)?,
        mult: pairs_of(alloc, &mult)?,
    })
}

/// Writes the line of a leaf that is closed by a bound.
fn put_close(
    alloc: Global,
    rows: usize,
    proof: &Proof,
    value_row: bool,
    cited: &[Cited],
    text: &mut Vec<u8>,
) -> Result<(), AllocError>
    ensures { OnOk result (text.new.items ≡ text.old.items ++ text_of (node_line
        (LeafNode (Bounded (with_pairs rows proof.now cited.now) value_row (map (λ x. x.0) cited.now))) ∷ [])) }
{
    let line = close_line(alloc, rows, proof, value_row, cited)?;
    put_line(text, &line)
}

/// The places of the cuts with their multipliers, which stand behind those of the rows.
fn cited_pairs(
    alloc: Global,
    rows: usize,
    proof: &Proof,
    places: &[u32],
) -> Result<Vec<Cited>, AllocError>
    ensures { IfOk result (λ pairs. pairs.items ≡ pairs_cited rows proof.now places.now) }
{
    let numbers = proof.mult.as_slice();
    by_place_of(alloc, places, &numbers[rows.min(numbers.len())..])
}

/// Takes over the steps of the cuts of a leaf that is closed by a bound, and writes its line.
fn place_bounded(
    alloc: Global,
    rows: usize,
    proof: &Proof,
    cuts: &Cuts,
    value_row: &Option<Kept>,
    steps: &mut Steps,
    text: &mut Vec<u8>,
) -> Result<(), PlaceFail>
    ensures ok { IfOk result (λ _. PutsLeaf rows (BoundedLeaf proof.now cuts.now value_row.now)
        (map arc_value steps.old.items) text.old.items (map arc_value steps.new.items) text.new.items) }
    ensures err { IfErr result (IsTwice
        (placed_leaf rows (map arc_value steps.old.items) (BoundedLeaf proof.now cuts.now value_row.now) ≡ None)) }
{
    let places = adopt_all(alloc, steps, cuts)?;
    let cited = cited_pairs(alloc, rows, proof, &places)?;
    if !are_rising(&cited) {
        return Err(PlaceFail::Twice);
    }
    put_close(alloc, rows, proof, value_row.is_some(), &cited, text)?;
    Ok(())
}

/// Writes the line of a leaf, behind the steps of whose cuts it stands.
fn place_leaf(
    alloc: Global,
    rows: usize,
    leaf: &Leaf,
    steps: &mut Steps,
    text: &mut Vec<u8>,
) -> Result<(), PlaceFail>
    ensures ok { IfOk result (λ _. PutsLeaf rows (evidence_of leaf.now) (map arc_value steps.old.items) text.old.items
        (map arc_value steps.new.items) text.new.items) }
    ensures err { IfErr result
        (IsTwice (placed_leaf rows (map arc_value steps.old.items) (evidence_of leaf.now) ≡ None)) }
{
    match leaf {
        Leaf::Bounded {
            proof,
            cuts,
            value_row,
        } => place_bounded(alloc, rows, proof, cuts, value_row, steps, text),
        Leaf::NoAnswer(_) => {
            put_line(text, &CertLine::NoAnswer)?;
            Ok(())
        }
    }
}

/// Writes the line of a split.
fn put_split(halves: &Halves, text: &mut Vec<u8>) -> Result<(), AllocError>
    ensures { OnOk result (text.new.items
        ≡ text.old.items ++ text_of (node_line (SplitNode halves.now.column halves.now.at tt) ∷ [])) }
{
    let line = CertLine::Split {
        column: i64::from(halves.column()),
        at: halves.at(),
    };
    put_line(text, &line)
}

/// Writes the line of a node, which is split or a leaf.
fn place_node(
    alloc: Global,
    book: &Book,
    rows: usize,
    node: u32,
    steps: &mut Steps,
    text: &mut Vec<u8>,
) -> Result<(), PlaceFail>
    ensures ok { IfOk result (λ _. PutsNodes rows (node_here book.now.ledger.book node) (map arc_value steps.old.items)
        text.old.items (map arc_value steps.new.items) text.new.items) }
    ensures err { IfErr result
        (IsTwice (CannotPlace rows (node_here book.now.ledger.book node) (map arc_value steps.old.items))) }
{
    if let Some(leaf) = book.leaf_of(node) {
        return place_leaf(alloc, rows, leaf.leaf(), steps, text);
    }
    if let Some((halves, _, _)) = book.split_of(node) {
        put_split(halves, text)?;
    }
    Ok(())
}

/// Writes the lines of the tree, and gives the cuts that its leaves cite.
pub(crate) fn place_tree(
    alloc: Global,
    book: &Book,
    rows: usize,
    order: &[u32],
    text: &mut Vec<u8>,
) -> Result<Steps, PlaceFail>
    ensures ok { IfOk result (λ steps. PutsNodes rows (nodes_here book.now.ledger.book order.now) []
        text.old.items (map arc_value steps.items) text.new.items) }
    ensures err { IfErr result (IsTwice (CannotPlace rows (nodes_here book.now.ledger.book order.now) [])) }
{
    let mut steps = Vec::new(alloc);
    for node in order {
        place_node(alloc, book, rows, *node, &mut steps, text)?;
    }
    Ok(steps)
}
