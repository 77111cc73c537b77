//! The words of a line.
ghost use Rattle.std.specs.Prelude.{◌≡◌, ◌==◌, [], ◌∷◌, position};
ghost use Rattle.std.specs.Option.{option_copied, option_map};
ghost use Rattle.std.specs.Iterator.{YieldsFirstRef, item_count};
ghost use Rattle.bl_certline.specs.SplitWords.{first_word, is_empty, split_words, words_left};

use std::marker::Model;

/// The words of a line that are left: what stands between its spaces, nothing between two of them that touch.
#[derive(Drop)]
pub(crate) struct Words<'a> {
    left: Option<&'a [u8]>,
}

impl<'a> Model for Words<'a> {
    ghost use Rattle.std.specs.Prelude.{List, ℕ};
    ghost use Rattle.std.specs.Option.{option_copied};
    ghost use Rattle.bl_certline.specs.SplitWords.{words_left};

    ghost Value = { List (List ℕ) };

    ghost view = { λ w. words_left (option_copied w.left) };
}

/// The words of a line: at least one.
pub(crate) fn split_words(line: &[u8]) -> Words<'_>
    ensures { result ≡ split_words line.now }
{
    Words { left: Some(line) }
}

fn first_space(bytes: &[u8]) -> Option<usize>
    ensures { result ≡ position (λ b. b == 32) bytes.now }
{
    bytes.iter().position(|byte| *byte == b' ')
}

/// The first word of what is left of a line, and what is left behind it.
fn cut_word(left: &[u8]) -> (&[u8], Option<&[u8]>)
    ensures { split_words left.now ≡ result.0.now ∷ words_left (option_copied result.1) }
{
    match first_space(left) {
        Some(end) => (&left[..end], Some(&left[end + 1..])),
        None => (left, None),
    }
}

/// The first word, and the words behind it.
pub(crate) fn first_word<'a>(words: Words<'a>) -> Option<(&'a [u8], Words<'a>)>
    ensures { option_map (λ x. (x.0.now, x.1)) result ≡ first_word words.entry }
{
    let (word, left) = cut_word(words.left?);
    Some((word, Words { left }))
}

/// Whether no word is left.
pub(crate) fn is_empty(words: &Words<'_>) -> bool
    ensures { result ≡ is_empty words.now }
{
    words.left.is_none()
}

impl<'a> Iterator for Words<'a> {
    type Item = &'a [u8];

    ghost next_gives = { YieldsFirstRef (λ s. s) };

    ghost remaining = { item_count (λ s. s) };

    fn next(&mut self) -> Option<&'a [u8]> {
        let (word, left) = cut_word(self.left?);
        self.left = left;
        Some(word)
    }
}
