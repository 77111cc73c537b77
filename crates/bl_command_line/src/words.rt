//! The words of each command.
ghost use Rattle.std.specs.Prelude.{◌≡◌, Some, IsSome, map, string_bytes, codes, IfOk, IfErr, IfSome, IfNone};
ghost use Rattle.std.specs.Option.{option_to_list};
ghost use Rattle.clap.specs.Words.{first_value, found_of, kind_of};
ghost use Rattle.clap.specs.declared.error.kind.ErrorKind.{ErrorKind};
ghost use Rattle.bl_words.specs.Commands.{upper_limits, node_limits, follower_limits};
ghost use Rattle.bl_words.specs.Items.{AreModelWords, IsNumber, Said};
ghost use Rattle.bl_words.specs.declared.commands.Choice.TheVariants.{DefaultUpper, Nodes, FollowerNodes};
ghost use Rattle.bl_command_line.specs.Apps.{id_of};

use crate::command::model_command;
use bl_words::{Command, ModelWords};
use clap::{ArgMatches, Error};
use std::alloc::{AllocError, Global};

/// What clap reads of words that are a command's: it can only refuse for want of memory, and its entries are the files
/// and the numbers that the words name.
fn model_matches<'a>(
    alloc: Global,
    command: Command,
    words: &'a [String],
    asked: &ModelWords<'_>,
) -> Result<ArgMatches<'a>, Error>
    requires { AreModelWords command (map string_bytes words.now) asked.now }
    ensures mps { IfOk result (λ m. first_value (found_of m) (codes "mps") ≡ Some asked.now.mps) }
    ensures aux { IfOk result (λ m. first_value (found_of m) (codes "aux") ≡ Some asked.now.aux) }
    ensures cert { IfOk result (λ m. first_value (found_of m) (codes "cert") ≡ asked.now.cert) }
    ensures upper { IfOk result (λ m. IsNumber upper_limits
        (option_to_list (first_value (found_of m) (id_of DefaultUpper))) asked.now.default_upper) }
    ensures nodes { IfOk result (λ m. IsNumber node_limits
        (option_to_list (first_value (found_of m) (id_of Nodes))) asked.now.nodes) }
    ensures follower_nodes { IfOk result (λ m. IsNumber follower_limits
        (option_to_list (first_value (found_of m) (id_of FollowerNodes))) asked.now.follower_nodes) }
    ensures refused { IfErr result (λ e. kind_of e ≡ ErrorKind.OutOfMemory) }
{
    let model = model_command(alloc, command)?;
    model.try_get_matches_from(words)
}

/// The entry of a file, which is there.
fn file_in<'a>(matches: &ArgMatches<'a>, id: &str) -> &'a str
    requires { IsSome (first_value (found_of matches.now) id.now) }
    ensures { Some result.now ≡ first_value (found_of matches.now) id.now }
{
    matches.get_str(id).unwrap()
}

/// Reads the words behind the program's name as those of the command; `None` where they aren't. Words that are
/// understood are read by clap.
pub fn model_words(
    alloc: Global,
    command: Command,
    words: &[String],
) -> Result<Option<ModelWords<'_>>, AllocError>
    ensures found { IfOk result (λ read. IfSome read (AreModelWords command (map string_bytes words.now))) }
    ensures refused { IfOk result (λ read. IfNone read ((said : Said)
        → AreModelWords command (map string_bytes words.now) said → ⊥)) }
{
    let Some(read) = bl_words::model_words(alloc, command, words)? else {
        return Ok(None);
    };
    let Ok(matches) = model_matches(alloc, command, words, &read) else {
        return Err(AllocError);
    };
    Ok(Some(ModelWords {
        mps: file_in(&matches, "mps"),
        aux: file_in(&matches, "aux"),
        cert: matches.get_str("cert"),
        default_upper: read.default_upper,
        nodes: read.nodes,
        follower_nodes: read.follower_nodes,
    }))
}
