//! The command `show`.

ghost use Rattle.std.specs.Prelude.{◌≡◌, ◌++◌, codes, decimal, IfOk, OnOk};
ghost use Rattle.std.specs.List.{flat_map};
ghost use Rattle.bl_run.specs.Report.{show_text, links_line};
ghost use Rattle.bl_run.specs.Steps.{result_ending, Ends, IsDefaultUpper, asked_by, AreWithin, program_in};
ghost use Rattle.bl_words.specs.declared.commands.Command.TheVariants as commands;

use crate::read::{Texts, read_texts};
use crate::status::{Answer, Failure};
use bl_aux::write_aux;
use bl_model::build;
use bl_mps_write::write_mps;
use bl_outer::{Shelf, Sink};
use bl_words::ModelWords;
use itoa::Buffer;
use std::alloc::{AllocError, Global};

/// Reads both texts, and prints them in their canonical form with the linking columns.
pub(crate) fn show<'a, F: Shelf, O: Sink>(
    alloc: Global,
    words: &ModelWords<'a>,
    files: &mut F,
    out: &mut O,
) -> Result<Answer, Failure<'a>>
    requires { IsDefaultUpper words.now.default_upper }
    ensures { Ends (asked_by commands.Show words.now)
        (record { files = F.state files.old; out = O.state out.old })
        (record { files = F.state files.new; out = O.state out.new })
        (result_ending result) }
{
    let texts = read_texts(alloc, words, files)?;
    let text = shown(alloc, &texts)?;
    out.put(&text)?;
    Ok(Answer::Shown)
}

/// What is printed of a model and its follower.
#[tactic(auto, unfolding(crate::specs::Report::show_text))]
fn shown(alloc: Global, texts: &Texts) -> Result<Vec<u8>, AllocError>
    requires { AreWithin texts.now }
    ensures { IfOk result (λ text.
        text.items ≡ show_text texts.now.mps texts.now.aux (program_in texts.now)) }
{
    let model = build(alloc, &texts.mps, &texts.aux)?;
    let follower = write_aux(alloc, &texts.aux)?;
    let mut text = write_mps(alloc, &texts.mps)?;
    text.extend_from_slice(follower.as_slice())?;
    push_links(&mut text, model.links())?;
    Ok(text)
}

fn push_links(text: &mut Vec<u8>, links: &[u32]) -> Result<(), AllocError>
    ensures { OnOk result (text.new.items ≡ text.old.items ++ links_line links.now) }
{
    text.extend_from_slice(b"links")?;
    push_numbers(text, links)?;
    text.extend_from_slice(b"\n")?;
    Ok(())
}

fn push_numbers(text: &mut Vec<u8>, numbers: &[u32]) -> Result<(), AllocError>
    ensures { OnOk result
        (text.new.items ≡ text.old.items ++ flat_map (λ number. codes " " ++ decimal number) numbers.now) }
{
    for number in numbers {
        push_spaced(text, *number)?;
    }
    Ok(())
}

fn push_spaced(text: &mut Vec<u8>, number: u32) -> Result<(), AllocError>
    ensures { OnOk result (text.new.items ≡ text.old.items ++ (codes " " ++ decimal number)) }
{
    let mut buffer = Buffer::new();
    text.extend_from_slice(b" ")?;
    text.extend_from_slice(buffer.format(number).as_bytes())?;
    Ok(())
}
