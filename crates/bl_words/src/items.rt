//! The words behind a command, as files and options.
ghost use Rattle.std.specs.Prelude.{◌≡◌, [], None, Some, map, string_bytes, slice_get, IfOk};
ghost use Rattle.std.specs.Option.{option_map};
ghost use Rattle.std.specs.List.{before_first, after_first};
ghost use Rattle.bl_words.specs.Items.{is_same, texts_of};
ghost use Rattle.bl_words.specs.Steps.{choice_by, choice_of, is_equals, joined, named, step, taken, texted, walk};

use crate::commands::{Choice, Command, is_plain};
use std::alloc::{AllocError, Global};
use std::marker::Model;

/// A file, or the value of an option.
#[derive(Drop)]
pub(crate) struct Item<'a> {
    choice: Option<Choice>,
    text: &'a str,
}

impl<'a> Model for Item<'a> {
    ghost use Rattle.bl_words.specs.Items.{Item as WordItem};

    ghost Value = { WordItem };

    ghost view = { λ i. record { choice = i.choice; text = i.text.now } };
}

/// The option of this word.
fn choice_by(word: &str) -> Option<Choice>
    ensures { result ≡ choice_by word.now }
{
    if word == "--default-upper" {
        Some(Choice::DefaultUpper)
    } else if word == "--nodes" {
        Some(Choice::Nodes)
    } else if word == "--follower-nodes" {
        Some(Choice::FollowerNodes)
    } else if word == "--cert" {
        Some(Choice::Cert)
    } else {
        None
    }
}

/// The command's option of this word.
fn choice_of(command: Command, word: &str) -> Option<Choice>
    ensures { result ≡ choice_of command word.now }
{
    let choice = choice_by(word)?;
    command.takes(choice).then_some(choice)
}

/// An item with this text, where the text may be a file's or a value's.
fn texted(choice: Option<Choice>, text: &str) -> Option<(Option<Item<'_>>, Option<Choice>)>
    ensures { result ≡ texted choice text.now }
{
    is_plain(text).then_some((Some(Item { choice, text }), None))
}

/// What a word adds where an option may wait for its value, and which option waits behind it.
#[tactic(auto, unfolding(crate::specs::Steps::step))]
fn step(
    command: Command,
    pending: Option<Choice>,
    word: &str,
) -> Option<(Option<Item<'_>>, Option<Choice>)>
    ensures { result ≡ step command pending word.now }
{
    if pending.is_some() {
        return texted(pending, word);
    }
    if is_plain(word) {
        return texted(None, word);
    }
    match choice_of(command, word) {
        Some(choice) => Some((None, Some(choice))),
        None => joined(command, word),
    }
}

/// An option that is joined to its value by the first `=` of the word.
fn joined(command: Command, word: &str) -> Option<(Option<Item<'_>>, Option<Choice>)>
    ensures { result ≡ named None command word.now }
{
    let (name, text) = word.split_once('=')?;
    let choice = choice_of(command, name)?;
    texted(Some(choice), text)
}

/// The items that the words spell, where they spell items.
#[tactic(auto, unfolding(crate::specs::Steps::walk))]
pub(crate) fn read_items(
    alloc: Global,
    command: Command,
    words: &[String],
) -> Result<Option<Vec<Item<'_>>>, AllocError>
    ensures { IfOk result (λ found. option_map (λ items. items.items) found
        ≡ walk command [] None (map string_bytes words.now)) }
{
    let mut items = Vec::new(alloc);
    let mut pending = None;
    for word in words {
        let Some((item, waiting)) = step(command, pending, word.as_str()) else {
            return Ok(None);
        };
        if let Some(item) = item {
            items.push(item)?;
        }
        pending = waiting;
    }
    Ok(if pending.is_some() { None } else { Some(items) })
}

/// The text at a place among the files or the values of an option.
pub(crate) fn text_at<'a>(
    items: &[Item<'a>],
    choice: Option<Choice>,
    place: usize,
) -> Option<&'a str>
    ensures { option_map (λ text. text.now) result ≡ slice_get (texts_of choice items.now) place }
{
    let mut left = place;
    for item in items {
        if is_same(choice, item.choice) {
            if left == 0 {
                return Some(item.text);
            }
            left -= 1;
        }
    }
    None
}

fn is_same(choice: Option<Choice>, other: Option<Choice>) -> bool
    ensures { result ≡ is_same choice other }
{
    match (choice, other) {
        (None, None) => true,
        (Some(Choice::DefaultUpper), Some(Choice::DefaultUpper)) => true,
        (Some(Choice::Nodes), Some(Choice::Nodes)) => true,
        (Some(Choice::FollowerNodes), Some(Choice::FollowerNodes)) => true,
        (Some(Choice::Cert), Some(Choice::Cert)) => true,
        _ => false,
    }
}
