//! How a search ends.
ghost use Rattle.std.specs.Prelude.{◌≡◌};
ghost use Rattle.bl_core.specs.Outcomes.{IsCause, Answers};

use crate::book::Book;
use bl_follower::Spent;
use bl_tree::ProvedWhy;
use std::marker::Model;

/// Why a search ended.
#[derive(Debug, Drop)]
pub enum Ended {
    /// No node is left to be worked on.
    Done,
    /// As many nodes as may be were made, and this one was to be split, with this licence.
    Nodes { node: u32, why: ProvedWhy },
    /// The follower's solver took as many nodes as it may at a link.
    Follower(Spent),
}

/// The book of a search that has ended, with the cause of the end: a link of the follower lies in the box of a node
/// that is left, and a node that was to be split is left too.
#[derive(Debug, Drop)]
pub struct Outcome {
    book: Book,
    end: Ended,
}

impl Model for Outcome {
    ghost use Rattle.bl_core.specs.Outcomes.{Ending, IsCause};

    ghost Value = { Ending };

    ghost view = { λ o. record { book = o.book; end = o.end } };

    ghost invariant = { λ o. IsCause o.book.ledger o.end };
}

impl Outcome {
    /// The outcome of these parts.
    pub fn make(book: Book, end: Ended) -> Outcome
        requires { IsCause book.ledger end }
        ensures { result ≡ record { book = book; end = end } }
    {
        Outcome { book, end }
    }

    /// The book.
    pub fn book(&self) -> &Book
        ensures value { result.now ≡ self.now.book }
        ensures cause { IsCause self.now.book.ledger self.now.end }
        ensures answer { Answers self.now.book.ledger.book self.now.end }
    {
        let _run = self.book.limit();
        &self.book
    }

    /// Why the search ended.
    pub fn end(&self) -> &Ended
        ensures value { result.now ≡ self.now.end }
        ensures cause { IsCause self.now.book.ledger self.now.end }
        ensures answer { Answers self.now.book.ledger.book self.now.end }
    {
        let _run = self.book.limit();
        &self.end
    }
}
