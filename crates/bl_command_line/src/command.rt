//! The commands as clap has them.
ghost use Rattle.std.specs.Prelude.{◌≡◌, IfOk};
ghost use Rattle.bl_words.specs.declared.commands.Command.TheVariants.{Solve, Check};
ghost use Rattle.clap.specs.Words.{app_of};
ghost use Rattle.bl_command_line.specs.Apps.{files_app, model_app};

use bl_words::Command as Kind;
use clap::{Arg, Command};
use std::alloc::{AllocError, Global};

/// The command with its files and options.
pub(crate) fn model_command<'a>(alloc: Global, kind: Kind) -> Result<Command<'a>, AllocError>
    ensures { IfOk result (λ command. app_of command ≡ model_app kind) }
{
    match kind {
        Kind::Solve => solve_command(alloc),
        Kind::Show => files_command(alloc, "show"),
        Kind::Check => check_command(alloc),
    }
}

/// `solve`, with the budgets of nodes and a file for its certificate.
fn solve_command<'a>(alloc: Global) -> Result<Command<'a>, AllocError>
    ensures { IfOk result (λ command. app_of command ≡ model_app Solve) }
{
    let nodes = Arg::new(alloc, "nodes").long("nodes");
    let follower = Arg::new(alloc, "follower-nodes").long("follower-nodes");
    let cert = Arg::new(alloc, "cert").long("cert");
    let files = files_command(alloc, "solve")?;
    let with_nodes = files.arg(nodes)?;
    let with_budgets = with_nodes.arg(follower)?;
    with_budgets.arg(cert)
}

/// `check`, which needs a third file.
fn check_command<'a>(alloc: Global) -> Result<Command<'a>, AllocError>
    ensures { IfOk result (λ command. app_of command ≡ model_app Check) }
{
    let cert = Arg::new(alloc, "cert").required(true);
    let files = files_command(alloc, "check")?;
    files.arg(cert)
}

/// A command of this name over two files with a default upper bound.
fn files_command<'a>(alloc: Global, name: &'a str) -> Result<Command<'a>, AllocError>
    ensures { IfOk result (λ command. app_of command ≡ files_app name.now) }
{
    let mps = Arg::new(alloc, "mps").required(true);
    let aux = Arg::new(alloc, "aux").required(true);
    let upper = Arg::new(alloc, "default-upper").long("default-upper");
    let with_mps = Command::new(alloc, name).disable_help_flag(true).arg(mps)?;
    let with_aux = with_mps.arg(aux)?;
    with_aux.arg(upper)
}
