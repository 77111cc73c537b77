//! Lines of a text.
ghost use Rattle.std.specs.Prelude.{◌≡◌, ◌==◌, ◌<◌, [], ◌∷◌, length, position, MatchOption, IfSome};
ghost use Rattle.std.specs.Iterator.{YieldsFirstRef, item_count};
ghost use Rattle.bl_text.specs.Lines.{lines_of, IsCut};

use std::marker::Model;

fn first_line_feed(text: &[u8]) -> Option<usize>
    ensures { result ≡ position (λ byte. byte == 10) text.now }
{
    text.iter().position(|byte| *byte == b'\n')
}

/// The first line of a text, without its line feed, and what follows that line. `None` at the empty text.
pub fn split_line(text: &[u8]) -> Option<(&[u8], &[u8])>
    ensures first { MatchOption result (text.now ≡ [])
        (λ parts. lines_of text.now ≡ parts.0.now ∷ lines_of parts.1.now) }
    ensures cut { IfSome result (λ parts. IsCut text.now parts.0.now parts.1.now) }
    ensures shorter { IfSome result (λ parts. length parts.1.now < length text.now) }
{
    if text.is_empty() {
        return None;
    }
    match first_line_feed(text) {
        Some(end) => Some((&text[..end], &text[end + 1..])),
        None => Some((text, &[])),
    }
}

/// The lines of a text in order, each without its line feed. Contracts see the lines that are left.
#[derive(Drop)]
pub struct Lines<'a> {
    rest: &'a [u8],
}

impl<'a> Model for Lines<'a> {
    ghost use Rattle.std.specs.Prelude.{List, ℕ};
    ghost use Rattle.bl_text.specs.Lines.{lines_of};

    ghost Value = { List (List ℕ) };

    ghost view = { λ s. lines_of s.rest.now };
}

/// The lines of a text.
pub fn lines_of(text: &[u8]) -> Lines<'_>
    ensures { result ≡ lines_of text.now }
{
    Lines { rest: text }
}

impl<'a> Iterator for Lines<'a> {
    type Item = &'a [u8];

    ghost next_gives = { YieldsFirstRef (λ s. s) };

    ghost remaining = { item_count (λ s. s) };

    fn next(&mut self) -> Option<&'a [u8]> {
        let (line, rest) = split_line(self.rest)?;
        self.rest = rest;
        Some(line)
    }
}
