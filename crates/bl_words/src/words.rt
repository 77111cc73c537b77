//! The words of each command.
ghost use Rattle.std.specs.Prelude.{◌≡◌, ◌<◌, ◌≤◌, ◌^◌, ◌↔◌, ℕ, List, [], ◌∷◌, map, drop, length, string_bytes};
ghost use Rattle.std.specs.Prelude.{Option, Some, IsTrue, IfOk, IfSome, IfNone};
ghost use Rattle.std.specs.Option.{option_to_list, option_map};
ghost use Rattle.bl_words.specs.Items.{AreModelWords, AreModelItems, AreFiles, AreApart, IsNumber, Said, texts_of};
ghost use Rattle.bl_words.specs.Steps.{NamesCert};

use crate::commands::{Choice, Command, Limits};
use crate::items::{Item, read_items, text_at};
use bl_text::plain_number;
use std::alloc::{AllocError, Global};
use std::marker::Model;

/// What a command is asked to do.
#[derive(Drop)]
pub struct ModelWords<'a> {
    /// The name of the MPS file.
    pub mps: &'a str,
    /// The name of the auxiliary file.
    pub aux: &'a str,
    /// The name of the certificate's file: `check` reads it, and `solve` writes it where it is named.
    pub cert: Option<&'a str>,
    /// The upper bound of an integer column that no bound line names.
    pub default_upper: u32,
    /// The budget of nodes of the branch-and-bound tree, from 1 to `MAX_NODES`.
    pub nodes: u32,
    /// The budget of nodes of each follower's tree, from 1 to `MAX_FOLLOWER_NODES`.
    pub follower_nodes: u32,
}

impl<'a> Model for ModelWords<'a> {
    ghost use Rattle.std.specs.Option.{option_map};
    ghost use Rattle.bl_words.specs.Items.{Said};

    ghost Value = { Said };

    ghost view = { λ w. record {
      mps = w.mps.now;
      aux = w.aux.now;
      cert = option_map (λ cert. cert.now) w.cert;
      default_upper = w.default_upper;
      nodes = w.nodes;
      follower_nodes = w.follower_nodes;
    } };
}

/// Reads the words behind the program's name as those of the command; `None` where they aren't.
pub fn model_words(
    alloc: Global,
    command: Command,
    words: &[String],
) -> Result<Option<ModelWords<'_>>, AllocError>
    ensures found { IfOk result (λ read. IfSome read (AreModelWords command (map string_bytes words.now))) }
    ensures refused { IfOk result (λ read. IfNone read ((said : Said)
        → AreModelWords command (map string_bytes words.now) said → ⊥)) }
{
    let [first, rest @ ..] = words else {
        return Ok(None);
    };
    if first.as_str() != command.name() {
        return Ok(None);
    }
    let Some(items) = read_items(alloc, command, rest)? else {
        return Ok(None);
    };
    Ok(items_words(command, &items))
}

/// What the items say, where they are the command's files, all different, and each option is given once at most.
fn items_words<'a>(command: Command, items: &[Item<'a>]) -> Option<ModelWords<'a>>
    ensures found { IfSome result (AreModelItems command items.now) }
    ensures refused { IfNone result ((said : Said) → AreModelItems command items.now said → ⊥) }
{
    let files = files_in(command, items)?;
    let default_upper = number_of(items, Choice::DefaultUpper, Limits::upper())?;
    let nodes = number_of(items, Choice::Nodes, Limits::nodes())?;
    let follower_nodes = number_of(items, Choice::FollowerNodes, Limits::follower_nodes())?;
    Some(ModelWords {
        mps: files.mps,
        aux: files.aux,
        cert: files.cert,
        default_upper,
        nodes,
        follower_nodes,
    })
}

/// The files of a command.
#[derive(Clone, Copy)]
struct Files<'a> {
    mps: &'a str,
    aux: &'a str,
    cert: Option<&'a str>,
}

/// The files that the items name, where they are the command's and all different.
fn files_in<'a>(command: Command, items: &[Item<'a>]) -> Option<Files<'a>>
    ensures found { IfSome result (λ f.
        AreFiles command items.now f.mps.now f.aux.now (option_map (λ cert. cert.now) f.cert)) }
    ensures refused { IfNone result ((mps aux : List ℕ) (cert : Option (List ℕ))
        → AreFiles command items.now mps aux cert → ⊥) }
{
    let mps = text_at(items, None, 0)?;
    let aux = text_at(items, None, 1)?;
    let cert = cert_in(command, items)?;
    are_apart(mps, aux, cert).then_some(Files { mps, aux, cert })
}

/// The certificate's file, where the command names one as it may, behind its two files.
fn cert_in<'a>(command: Command, items: &[Item<'a>]) -> Option<Option<&'a str>>
    ensures found { IfSome result (λ cert. NamesCert command items.now (option_map (λ cert. cert.now) cert)) }
    ensures refused { IfNone result ((cert : Option (List ℕ)) → NamesCert command items.now cert → ⊥) }
{
    let file = only(items, None, 2)?;
    let value = only(items, Some(Choice::Cert), 0)?;
    match (command, file, value) {
        (Command::Solve, None, value) => Some(value),
        (Command::Show, None, None) => Some(None),
        (Command::Check, Some(file), None) => Some(Some(file)),
        _ => None,
    }
}

/// Whether no two files are the same.
fn are_apart(mps: &str, aux: &str, cert: Option<&str>) -> bool
    ensures { IsTrue result ↔ AreApart mps.now aux.now (option_map (λ cert. cert.now) cert.entry) }
{
    match cert {
        Some(cert) => mps != aux && mps != cert && aux != cert,
        None => mps != aux,
    }
}

/// The text at a place among the files or the values of an option, if there is one, where none stands behind it.
fn only<'a>(items: &[Item<'a>], choice: Option<Choice>, place: usize) -> Option<Option<&'a str>>
    requires { place ≤ 2 }
    ensures found { IfSome result (λ text.
        drop place (texts_of choice items.now) ≡ option_to_list (option_map (λ text. text.now) text)) }
    ensures refused { IfNone result (2 ≤ length (drop place (texts_of choice items.now))) }
{
    let text = text_at(items, choice, place);
    let behind = text_at(items, choice, place + 1);
    if behind.is_some() {
        return None;
    }
    Some(text)
}

/// The number of an option, which is given once at most.
fn number_of(items: &[Item<'_>], choice: Choice, limits: Limits) -> Option<u32>
    requires { limits.greatest < 2 ^ 32 }
    ensures found { IfSome result (IsNumber limits (texts_of (Some choice) items.now)) }
    ensures refused { IfNone result ((number : ℕ) → IsNumber limits (texts_of (Some choice) items.now) number → ⊥) }
{
    match only(items, Some(choice), 0)? {
        Some(text) => number_in(text, limits),
        None => Some(limits.usual),
    }
}

/// The number of plain digits, where it is within the limits of the option.
fn number_in(text: &str, limits: Limits) -> Option<u32>
    requires { limits.greatest < 2 ^ 32 }
    ensures found { IfSome result (IsNumber limits (text.now ∷ [])) }
    ensures refused { IfNone result ((number : ℕ) → IsNumber limits (text.now ∷ []) number → ⊥) }
{
    let number = plain_number(text.as_bytes())?;
    if number < i64::from(limits.least) || number > i64::from(limits.greatest) {
        return None;
    }
    Some(number as u32)
}
