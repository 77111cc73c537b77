//! Fields of a line.
ghost use Rattle.std.specs.Prelude.{◌≡◌, ◌==◌, ◌<◌, [], ◌∷◌, length, position, not, MatchOption, IfSome, IsTrue};
ghost use Rattle.std.specs.Iterator.{YieldsFirstRef, item_count};
ghost use Rattle.bl_text.specs.Fields.{is_blank, fields_of, begins_with_blank};

use std::marker::Model;

fn is_blank(byte: u8) -> bool
    ensures { result ≡ is_blank byte }
{
    byte == b' ' || byte == b'\t' || byte == b'\r'
}

fn first_blank(line: &[u8]) -> Option<usize>
    ensures { result ≡ position is_blank line.now }
{
    line.iter().position(|byte| is_blank(*byte))
}

fn first_of_field(line: &[u8]) -> Option<usize>
    ensures { result ≡ position (λ byte. not (is_blank byte)) line.now }
{
    line.iter().position(|byte| !is_blank(*byte))
}

/// Whether the line begins with a blank. The empty line doesn't.
pub fn begins_with_blank(line: &[u8]) -> bool
    ensures { result ≡ begins_with_blank line.now }
{
    match line {
        [] => false,
        [byte, ..] => is_blank(*byte),
    }
}

/// The first field of a line, and what follows that field. `None` where the line has no field.
pub fn split_field(line: &[u8]) -> Option<(&[u8], &[u8])>
    ensures first { MatchOption result (fields_of line.now ≡ [])
        (λ parts. fields_of line.now ≡ parts.0.now ∷ fields_of parts.1.now) }
    ensures shorter { IfSome result (λ parts. length parts.1.now < length line.now) }
{
    let start = first_of_field(line)?;
    let (_, tail) = line.split_at(start);
    let end = first_blank(tail).unwrap_or(tail.len());
    Some(tail.split_at(end))
}

/// The fields of a line in order. Contracts see the fields that are left.
#[derive(Drop)]
pub struct Fields<'a> {
    rest: &'a [u8],
}

impl<'a> Model for Fields<'a> {
    ghost use Rattle.std.specs.Prelude.{List, ℕ};
    ghost use Rattle.bl_text.specs.Fields.{fields_of};

    ghost Value = { List (List ℕ) };

    ghost view = { λ s. fields_of s.rest.now };
}

/// The fields of a line.
pub fn fields_of(line: &[u8]) -> Fields<'_>
    ensures { result ≡ fields_of line.now }
{
    Fields { rest: line }
}

impl<'a> Iterator for Fields<'a> {
    type Item = &'a [u8];

    ghost next_gives = { YieldsFirstRef (λ s. s) };

    ghost remaining = { item_count (λ s. s) };

    fn next(&mut self) -> Option<&'a [u8]> {
        let (field, rest) = split_field(self.rest)?;
        self.rest = rest;
        Some(field)
    }
}
