//! Whether the indices, points, boxes and lists of a line are there for a model.
ghost use Rattle.std.specs.Prelude.{◌≡◌, ◌↔◌, ◌+◌, ◌<◌, ◌≤◌, ◌≢◌, ℕ, length, All, Contains, IsTrue, pos, count_by};
ghost use Rattle.bl_terms.specs.Programs.{columns, root};
ghost use Rattle.bl_terms.specs.Responses.{InRanges, IsLink};
ghost use Rattle.bl_certtext.specs.Places.{AreBelow, AreInOrder, IsAbove, IsBefore, IsFollowers, IsLeaf, IsLower};
ghost use Rattle.bl_certtext.specs.Places.{IsPart, IsPlace, IsThere, Rise, kind_of, lower_count, place_of};

use bl_certline::TightItem;
use bl_limits::MAX_CUTS;
use bl_model::Bilevel;

/// Whether a number names one of so many places.
pub(crate) fn is_place(count: usize, place: i64) -> bool
    ensures { IsTrue result ↔ IsPlace count place }
{
    0 <= place && (place as u64) < count as u64
}

/// Whether the indices of the pairs name places below the count.
pub(crate) fn are_below(count: usize, pairs: &[(i64, i64)]) -> bool
    ensures { IsTrue result ↔ AreBelow count pairs.now }
{
    for pair in pairs {
        if !is_place(count, pair.0) {
            return false;
        }
    }
    true
}

/// Whether the first list has the lower number at the first place where the two differ.
pub(crate) fn is_lower(xs: &[i64], ys: &[i64]) -> bool
    ensures { IsTrue result ↔ IsLower xs.now ys.now }
{
    for place in 0..xs.len().min(ys.len()) {
        if xs[place] != ys[place] {
            return xs[place] < ys[place];
        }
    }
    false
}

/// Whether the number names a column of the follower.
pub(crate) fn is_followers(model: &Bilevel, column: i64) -> bool
    ensures { IsTrue result ↔ IsFollowers model.now column }
{
    for place in model.follower() {
        if i64::from(*place) == column {
            return true;
        }
    }
    false
}

fn kind_of(item: TightItem) -> u8
    ensures { result ≡ kind_of item }
{
    match item {
        TightItem::Row(_) => 0,
        TightItem::Upper(_) => 1,
        TightItem::Lower(_) => 2,
        TightItem::Cut(_) => 3,
    }
}

fn place_of(item: TightItem) -> i64
    ensures { result ≡ place_of item }
{
    match item {
        TightItem::Row(place)
        | TightItem::Upper(place)
        | TightItem::Lower(place)
        | TightItem::Cut(place) => place,
    }
}

fn is_before(item: TightItem, next: TightItem) -> bool
    ensures { IsTrue result ↔ IsBefore item next }
{
    kind_of(item) < kind_of(next)
        || kind_of(item) == kind_of(next) && place_of(item) < place_of(next)
}

/// Whether rows, upper sides, lower sides and cuts stand in this order, and rise in each kind.
pub(crate) fn are_in_order(items: &[TightItem]) -> bool
    ensures { IsTrue result ↔ AreInOrder items.now }
{
    for place in 1..items.len() {
        if !is_before(items[place - 1], items[place]) {
            return false;
        }
    }
    true
}

/// Whether what an item names is there, where so many cuts stand before.
fn is_there(model: &Bilevel, earlier: usize, item: TightItem) -> bool
    ensures { IsTrue result ↔ IsThere model.now earlier item }
{
    match item {
        TightItem::Row(place) => is_place(model.rows().len(), place),
        TightItem::Upper(place) => is_place(model.lo().len(), place),
        TightItem::Lower(place) => is_place(model.lo().len(), place),
        TightItem::Cut(place) => is_place(earlier, place),
    }
}

pub(crate) fn are_there(model: &Bilevel, earlier: usize, items: &[TightItem]) -> bool
    ensures { IsTrue result ↔ All (IsThere model.now earlier) items.now }
{
    for item in items {
        if !is_there(model, earlier, *item) {
            return false;
        }
    }
    true
}

/// Whether each number is below the next.
pub(crate) fn rise(numbers: &[i64]) -> bool
    ensures { IsTrue result ↔ Rise numbers.now }
{
    for place in 1..numbers.len() {
        if numbers[place - 1] >= numbers[place] {
            return false;
        }
    }
    true
}

/// How many rows the follower has.
pub fn lower_count(model: &Bilevel) -> usize
    ensures { result ≡ lower_count model.now }
{
    model.rows().iter().filter(|row| row.lower).count()
}

/// Whether each number names one of so many places.
fn are_places(count: usize, numbers: &[i64]) -> bool
    ensures { IsTrue result ↔ All (IsPlace count) numbers.now }
{
    for number in numbers {
        if !is_place(count, *number) {
            return false;
        }
    }
    true
}

/// Whether no pair has this index.
fn lack(index: usize, pairs: &[(i64, i64)]) -> bool
    ensures { IsTrue result ↔ All (λ p. p.0 ≢ pos index) pairs.now }
{
    for pair in pairs {
        if pair.0 >= 0 && pair.0 as u64 == index as u64 {
            return false;
        }
    }
    true
}

/// Whether the cited cuts and the multipliers of a leaf are there, where so many cuts stand before the tree.
pub(crate) fn is_leaf(
    model: &Bilevel,
    cuts: usize,
    value_row: bool,
    cited: &[i64],
    mult: &[(i64, i64)],
) -> bool
    ensures { IsTrue result ↔ IsLeaf model.now cuts value_row cited.now mult.now }
{
    let rows = model.rows().len();
    cited.len() <= MAX_CUTS
        && are_places(cuts, cited)
        && rise(cited)
        && are_below(rows + 1 + cited.len(), mult)
        && (value_row || lack(rows, mult))
}

/// Whether the sides are those of a box within the model's.
pub(crate) fn is_part(model: &Bilevel, sides: &[(i64, i64)]) -> bool
    ensures { IsTrue result ↔ IsPart model.now sides.now }
{
    let lo = model.lo();
    let hi = model.hi();
    if sides.len() != lo.len() {
        return false;
    }
    for column in 0..sides.len() {
        let (low, high) = sides[column];
        if low < lo[column] || high < low || hi[column] < high {
            return false;
        }
    }
    true
}

/// Whether there is a number for each of these columns of the model, each in its range.
fn in_ranges(model: &Bilevel, places: &[u32], values: &[i64]) -> bool
    requires { All (λ k. k < columns model.now) places.now }
    ensures { IsTrue result ↔ InRanges model.now places.now values.now }
{
    let lo = model.lo();
    let hi = model.hi();
    if values.len() != places.len() {
        return false;
    }
    for j in 0..places.len() {
        let column = places[j] as usize;
        if values[j] < lo[column] || hi[column] < values[j] {
            return false;
        }
    }
    true
}

/// Whether there is a number for each column of the follower, each in its range.
pub(crate) fn is_response_point(model: &Bilevel, values: &[i64]) -> bool
    ensures { IsTrue result ↔ InRanges model.now model.now.follower values.now }
{
    in_ranges(model, model.follower(), values)
}

/// Whether there is a number for each linking column, each in its range.
pub(crate) fn is_link(model: &Bilevel, link: &[i64]) -> bool
    ensures { IsTrue result ↔ IsLink model.now link.now }
{
    in_ranges(model, model.links(), link)
}
