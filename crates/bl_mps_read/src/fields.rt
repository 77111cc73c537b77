//! The fields of data lines.
ghost use Rattle.std.specs.Prelude.{◌≡◌, [], ◌∷◌, MatchOption, Some, None, true, false};
ghost use Rattle.std.specs.Option.{option_map};
ghost use Rattle.bl_text.specs.Fields.{fields_of};
ghost use Rattle.bl_mps_terms.specs.Lines.{takes_number, bound_behind, bound_line};
ghost use Rattle.bl_mps_read.specs.Fields.{IsShort, pair_in, entry_in, set_pairs_in, only_in};
ghost use Rattle.bl_mps_read.specs.Views.{pair_view, pairs_view, entry_view, bound_view};

use bl_mps_terms::{BoundKind, bound_kind};
use bl_text::split_field;

/// Two fields side by side.
#[derive(Clone, Copy)]
pub struct Pair<'a> {
    pub first: &'a [u8],
    pub second: &'a [u8],
}

/// One or two pairs of a row and a number.
#[derive(Clone, Copy)]
pub struct Pairs<'a> {
    pub pair: Pair<'a>,
    pub more: Option<Pair<'a>>,
}

/// A column's name, and one or two pairs of a row and a number.
#[derive(Clone, Copy)]
pub struct Entry<'a> {
    pub name: &'a [u8],
    pub pairs: Pairs<'a>,
}

/// A line of bounds: its kind, its column, and its number where the kind takes one.
#[derive(Clone, Copy)]
pub struct BoundLine<'a> {
    pub kind: BoundKind,
    pub column: &'a [u8],
    pub number: Option<&'a [u8]>,
}

/// The first two fields, and what follows them.
fn split_pair(line: &[u8]) -> Option<(Pair<'_>, &[u8])>
    ensures { MatchOption result (IsShort (fields_of line.now))
        (λ parts. fields_of line.now ≡ parts.0.first.now ∷ parts.0.second.now ∷ fields_of parts.1.now) }
{
    let (first, rest) = split_field(line)?;
    let (second, rest) = split_field(rest)?;
    Some((Pair { first, second }, rest))
}

/// The field of a line that has just one.
pub fn only_field(line: &[u8]) -> Option<&[u8]>
    ensures { option_map (λ field. field.now) result ≡ only_in (fields_of line.now) }
{
    let (field, rest) = split_field(line)?;
    if split_field(rest).is_some() {
        return None;
    }
    Some(field)
}

/// The two fields of a line that has just two.
pub fn only_pair(line: &[u8]) -> Option<Pair<'_>>
    ensures { option_map pair_view result ≡ pair_in (fields_of line.now) }
{
    let (pair, rest) = split_pair(line)?;
    if split_field(rest).is_some() {
        return None;
    }
    Some(pair)
}

/// The line's name and pairs, where it has three or five fields.
pub fn entry_line(line: &[u8]) -> Option<Entry<'_>>
    ensures { option_map entry_view result ≡ entry_in (fields_of line.now) }
{
    let (name, rest) = split_field(line)?;
    let (pair, rest) = split_pair(rest)?;
    let more = if split_field(rest).is_none() {
        None
    } else {
        Some(only_pair(rest)?)
    };
    Some(Entry {
        name,
        pairs: Pairs { pair, more },
    })
}

/// The line's pairs behind its set name, where it has two to five fields. With two or four it has no set name.
pub fn set_line(line: &[u8]) -> Option<Pairs<'_>>
    ensures { option_map pairs_view result ≡ set_pairs_in (fields_of line.now) }
{
    let (pair, rest) = split_pair(line)?;
    let Some((third, rest)) = split_field(rest) else {
        return Some(Pairs { pair, more: None });
    };
    let behind_set = Pair {
        first: pair.second,
        second: third,
    };
    let Some((fourth, rest)) = split_field(rest) else {
        return Some(Pairs {
            pair: behind_set,
            more: None,
        });
    };
    let Some((fifth, rest)) = split_field(rest) else {
        let more = Some(Pair {
            first: third,
            second: fourth,
        });
        return Some(Pairs { pair, more });
    };
    if split_field(rest).is_some() {
        return None;
    }
    let more = Some(Pair {
        first: fourth,
        second: fifth,
    });
    Some(Pairs {
        pair: behind_set,
        more,
    })
}

fn takes_number(kind: BoundKind) -> bool
    ensures { result ≡ takes_number kind }
{
    matches!(
        kind,
        BoundKind::Up | BoundKind::Lo | BoundKind::Fx | BoundKind::Ui | BoundKind::Li
    )
}

/// A line of bounds of a kind that takes a number: perhaps a set name, then the column and the number.
fn with_number(kind: BoundKind, line: &[u8]) -> Option<BoundLine<'_>>
    ensures { option_map bound_view result ≡ bound_behind kind true (fields_of line.now) }
{
    let (pair, rest) = split_pair(line)?;
    let Some((third, rest)) = split_field(rest) else {
        return Some(BoundLine {
            kind,
            column: pair.first,
            number: Some(pair.second),
        });
    };
    if split_field(rest).is_some() {
        return None;
    }
    Some(BoundLine {
        kind,
        column: pair.second,
        number: Some(third),
    })
}

/// A line of bounds of a kind that takes no number: perhaps a set name, then the column, and perhaps a field that is
/// ignored.
fn without_number(kind: BoundKind, line: &[u8]) -> Option<BoundLine<'_>>
    ensures { option_map bound_view result ≡ bound_behind kind false (fields_of line.now) }
{
    let (first, rest) = split_field(line)?;
    let Some((second, rest)) = split_field(rest) else {
        return Some(BoundLine {
            kind,
            column: first,
            number: None,
        });
    };
    if let Some((_, rest)) = split_field(rest)
        && split_field(rest).is_some()
    {
        return None;
    }
    Some(BoundLine {
        kind,
        column: second,
        number: None,
    })
}

/// The parts of a line of bounds; `None` where its kind is unknown or its number of fields is wrong.
pub fn bound_line(line: &[u8]) -> Option<BoundLine<'_>>
    ensures { option_map bound_view result ≡ bound_line (fields_of line.now) }
{
    let (word, rest) = split_field(line)?;
    let kind = bound_kind(word)?;
    if takes_number(kind) {
        with_number(kind, rest)
    } else {
        without_number(kind, rest)
    }
}
