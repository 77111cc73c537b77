//! The commands and their options, each with its name.
ghost use Rattle.std.specs.Prelude.{◌≡◌};
ghost use Rattle.bl_words.specs.Commands.{is_plain};

use bl_limits::{
    DEFAULT_FOLLOWER_NODES, DEFAULT_NODES, DEFAULT_UPPER, MAX_FOLLOWER_NODES, MAX_NODES, MAX_NUMBER,
};

/// A command of the program.
#[derive(Clone, Copy, Debug, PartialEq, Eq)]
pub enum Command {
    /// `solve MPS AUX [--default-upper U] [--nodes N] [--follower-nodes F] [--cert FILE]`
    Solve,
    /// `show MPS AUX [--default-upper U]`
    Show,
    /// `check MPS AUX CERT [--default-upper U]`
    Check,
}

impl Command {
    ghost use Rattle.bl_words.specs.Commands.{name_of, takes};

    /// The command's word.
    pub fn name(self) -> &'static str
        ensures { result.now ≡ name_of self }
    {
        match self {
            Command::Solve => "solve",
            Command::Show => "show",
            Command::Check => "check",
        }
    }

    /// Whether the command has the option.
    pub fn takes(self, choice: Choice) -> bool
        ensures { result ≡ takes self choice }
    {
        match (self, choice) {
            (Command::Solve, _) | (Command::Show | Command::Check, Choice::DefaultUpper) => true,
            (Command::Show | Command::Check, _) => false,
        }
    }
}

/// An option of a command.
#[derive(Clone, Copy, Debug, PartialEq, Eq)]
pub enum Choice {
    /// `--default-upper U`: the upper bound of an integer column that no bound line names.
    DefaultUpper,
    /// `--nodes N`: the budget of nodes of the branch-and-bound tree.
    Nodes,
    /// `--follower-nodes F`: the budget of nodes of each follower's tree.
    FollowerNodes,
    /// `--cert FILE`: the file that the certificate is written to.
    Cert,
}

/// The numbers that an option takes.
#[derive(Clone, Copy)]
pub struct Limits {
    pub least: u32,
    pub greatest: u32,
    /// The number without the option.
    pub usual: u32,
}

impl Limits {
    ghost use Rattle.bl_words.specs.Commands.{upper_limits, node_limits, follower_limits};

    /// Those of the upper bound of an integer column that no bound line names.
    pub(crate) fn upper() -> Limits
        ensures { result ≡ upper_limits }
    {
        Limits {
            least: 0,
            greatest: MAX_NUMBER as u32,
            usual: DEFAULT_UPPER as u32,
        }
    }

    /// Those of the budget of nodes of the branch-and-bound tree.
    pub(crate) fn nodes() -> Limits
        ensures { result ≡ node_limits }
    {
        Limits {
            least: 1,
            greatest: MAX_NODES,
            usual: DEFAULT_NODES,
        }
    }

    /// Those of the budget of nodes of each follower's tree.
    pub(crate) fn follower_nodes() -> Limits
        ensures { result ≡ follower_limits }
    {
        Limits {
            least: 1,
            greatest: MAX_FOLLOWER_NODES,
            usual: DEFAULT_FOLLOWER_NODES,
        }
    }
}

/// Whether a word may be a file's or a value's: it isn't empty and doesn't begin with `-`.
pub(crate) fn is_plain(word: &str) -> bool
    ensures { result ≡ is_plain word.now }
{
    match word.as_bytes() {
        [] => false,
        [byte, ..] => *byte != b'-',
    }
}
