//! Links whose nodes are spent.
ghost use Rattle.std.specs.Prelude.{◌≡◌};
ghost use Rattle.std.specs.Arc.{arc_value};
ghost use Rattle.bl_follower.specs.Exhausted.{IsExhausted};

use bl_follower_tree::Licensed;
use bl_model::Bilevel;
use bl_raw::Listed;
use std::alloc::Global;
use std::marker::Model;
use std::sync::Arc;

/// A link of a model for which the follower's solver took as many nodes as it may, with a leaf left open. The tree has
/// as many nodes as the budget, or one less.
#[derive(Debug, Drop)]
pub struct Spent {
    model: Arc<Bilevel, Global>,
    link: Vec<i64>,
    budget: u32,
    tree: Licensed,
    cutoffs: Listed<Option<i64>>,
}

impl Model for Spent {
    ghost use Rattle.std.specs.Arc.{arc_value};
    ghost use Rattle.bl_follower.specs.Exhausted.{Exhausted, IsExhausted};

    ghost Value = { Exhausted };

    ghost view = { λ s. record {
      program = arc_value s.model;
      link = s.link.items;
      budget = s.budget;
      nodes = s.tree.nodes;
      cutoffs = s.cutoffs;
    } };

    ghost invariant = { λ s. IsExhausted (record {
      program = arc_value s.model;
      link = s.link.items;
      budget = s.budget;
      nodes = s.tree.nodes;
      cutoffs = s.cutoffs;
    }) };
}

impl Spent {
    pub(crate) fn make(
        model: Arc<Bilevel, Global>,
        link: Vec<i64>,
        budget: u32,
        tree: Licensed,
        cutoffs: Listed<Option<i64>>,
    ) -> Spent
        requires { IsExhausted (record {
          program = arc_value model;
          link = link.items;
          budget = budget;
          nodes = tree.nodes;
          cutoffs = cutoffs;
        }) }
        ensures { result ≡ record {
          program = arc_value model;
          link = link.items;
          budget = budget;
          nodes = tree.nodes;
          cutoffs = cutoffs;
        } }
    {
        Spent {
            model,
            link,
            budget,
            tree,
            cutoffs,
        }
    }

    /// The model.
    pub fn model(&self) -> &Arc<Bilevel, Global>
        ensures value { arc_value result.now ≡ self.now.program }
        ensures exhausted { IsExhausted self.now }
    {
        &self.model
    }

    /// The link: a value for each linking column.
    pub fn link(&self) -> &[i64]
        ensures value { result.now ≡ self.now.link }
        ensures exhausted { IsExhausted self.now }
    {
        &self.link
    }

    /// How many nodes the solver could take.
    pub fn budget(&self) -> u32
        ensures value { result ≡ self.now.budget }
        ensures exhausted { IsExhausted self.now }
    {
        self.budget
    }

    /// The tree.
    pub fn tree(&self) -> &Licensed
        ensures value { result.now.nodes ≡ self.now.nodes }
        ensures exhausted { IsExhausted self.now }
    {
        &self.tree
    }

    /// One cutoff for each licence of the tree, in preorder.
    pub fn cutoffs(&self) -> &[Option<i64>]
        ensures value { result.now ≡ self.now.cutoffs }
        ensures exhausted { IsExhausted self.now }
    {
        self.cutoffs.as_slice()
    }
}
