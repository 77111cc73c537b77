//! A tree that grows in preorder.
ghost use Rattle.std.specs.Prelude.{◌≡◌, ◌+◌, length, IfOk};
ghost use Rattle.bl_fproof.specs.Stacks.{IsPart};
ghost use Rattle.bl_follower_tree.specs.Growth.{IsNext, beginning, shut_by, split_by, left_by};

use crate::licensed::{Licensed, LicensedNode};
use bl_bound::Proof;
use bl_fproof::{FollowerRows, Part, Step};
use bl_licence::Why;
use bl_raw::Listed;
use std::alloc::{AllocError, Global};
use std::marker::Model;

/// A tree that grows in preorder: its nodes so far with their cutoffs, the proof of as many boxes, and the boxes that
/// are still to be worked on. [`GrowingTree::next_box`] takes the first of these out, and one of [`GrowingTree::shut`],
/// [`GrowingTree::split`] and [`GrowingTree::leave`] says what became of it. After a failure for want of memory the
/// tree is of no more use.
#[derive(Debug, Drop)]
pub struct GrowingTree {
    nodes: Vec<LicensedNode>,
    cutoffs: Vec<Option<i64>>,
    steps: Vec<Step>,
    /// The boxes that are still to be worked on, the first one last.
    stack: Vec<Part>,
    is_left: bool,
}

impl Model for GrowingTree {
    ghost use Rattle.bl_follower_tree.specs.Growth.{Grown};

    ghost Value = { Grown };

    ghost view = { λ t. record {
      nodes = t.nodes.items;
      cutoffs = t.cutoffs.items;
      steps = t.steps.items;
      stack = t.stack.items;
      left = t.is_left;
    } };
}

impl GrowingTree {
    /// The tree without nodes over the whole box.
    pub fn start(alloc: Global, rows: &FollowerRows) -> Result<GrowingTree, AllocError>
        ensures tree { IfOk result (λ tree. tree ≡ beginning rows.now.area) }
        ensures part { IfOk result (λ _. IsPart rows.now rows.now.area) }
    {
        let mut stack = Vec::new(alloc);
        stack.push(Part::whole(alloc, rows)?)?;
        Ok(GrowingTree {
            nodes: Vec::new(alloc),
            cutoffs: Vec::new(alloc),
            steps: Vec::new(alloc),
            stack,
            is_left: false,
        })
    }

    /// Takes the next box out, if there is one.
    pub fn next_box(&mut self) -> Option<Part>
        ensures { IsNext self.old self.new result }
    {
        self.stack.pop()
    }

    /// How many nodes the tree has where none of the boxes is split that are still to be worked on.
    pub fn size(&self) -> usize
        ensures { result ≡ length self.now.nodes + length self.now.stack }
    {
        self.nodes.len() + self.stack.len()
    }

    /// Closes the box at hand by a proof.
    pub fn shut(&mut self, proof: Proof) -> Result<(), AllocError>
        ensures { IfOk result (λ _. self.new ≡ shut_by self.old proof) }
    {
        self.nodes.push(LicensedNode::Shut)?;
        self.steps.push(Step::Shut(proof))?;
        Ok(())
    }

    /// Splits the box at hand into these halves.
    pub fn split(
        &mut self,
        column: u32,
        at: i64,
        halves: (Part, Part),
        cutoff: Option<i64>,
        why: Why,
    ) -> Result<(), AllocError>
        ensures { IfOk result (λ _. self.new ≡ split_by self.old column at halves cutoff why) }
    {
        let (low, high) = halves;
        self.nodes.push(LicensedNode::Split { column, at, why })?;
        self.cutoffs.push(cutoff)?;
        self.steps.push(Step::Split { column, at })?;
        self.stack.push(high)?;
        self.stack.push(low)?;
        Ok(())
    }

    /// Leaves the box at hand open.
    pub fn leave(&mut self, cutoff: Option<i64>, why: Why) -> Result<(), AllocError>
        ensures { IfOk result (λ _. self.new ≡ left_by self.old cutoff why) }
    {
        self.nodes.push(LicensedNode::Left(Some(why)))?;
        self.is_left = true;
        self.cutoffs.push(cutoff)?;
        Ok(())
    }

    /// Whether a box was left open.
    pub fn is_left(&self) -> bool
        ensures { result ≡ self.now.left }
    {
        self.is_left
    }

    /// The nodes, their cutoffs, and the steps of the proof.
    pub fn into_parts(self) -> (Licensed, Listed<Option<i64>>, Listed<Step>)
        ensures nodes { result.0.nodes ≡ self.nodes }
        ensures cutoffs { result.1 ≡ self.cutoffs }
        ensures steps { result.2 ≡ self.steps }
    {
        let GrowingTree {
            nodes,
            cutoffs,
            steps,
            ..
        } = self;
        let nodes = Listed::new(nodes);
        (Licensed { nodes }, Listed::new(cutoffs), Listed::new(steps))
    }
}
