//! What leads the branching.
use crate::choice::{Choice, best_split};
use crate::pseudo_costs::PseudoCosts;
use crate::queue::{Queue, Step, Waiting};
use bl_bound::Problem;
use bl_float::{End, FloatSimplex};
use bl_place::Place;
use std::alloc::{AllocError, Global};

/// The step of a node of which nothing is to be learned.
const NO_STEP: Step = Step {
    column: 0,
    is_up: false,
    distance: 0.0,
};

/// A node of which nothing is known.
fn unknown(node: u32) -> Waiting {
    Waiting {
        node,
        bound: f64::NEG_INFINITY,
        depth: 0,
        step: NO_STEP,
    }
}

/// What is kept of a search from node to node to lead its branching: the pseudo-costs of the columns, the nodes that
/// wait, and what is known of the node at work.
#[derive(Debug, Drop)]
pub struct Guide {
    simplex: FloatSimplex,
    costs: PseudoCosts,
    queue: Queue,
    present: Waiting,
    choice: Option<Choice>,
}

impl Guide {
    /// A guide that has seen no node. Takes no memory.
    pub fn new(alloc: Global) -> Guide {
        Guide {
            simplex: FloatSimplex::new(alloc),
            costs: PseudoCosts::new(alloc),
            queue: Queue::new(alloc),
            present: unknown(0),
            choice: None,
        }
    }

    /// Takes the node of least bound out of those that wait, as the one at work next.
    pub fn next(&mut self) -> Option<u32> {
        let next = self.queue.pop()?;
        self.present = next;
        Some(next.node)
    }

    /// Takes in the halves of the node at work, which was split.
    pub fn split(&mut self, low: u32, high: u32) -> Result<(), AllocError> {
        let (low_step, high_step) = match self.choice {
            Some(choice) => (step(choice, false), step(choice, true)),
            None => (NO_STEP, NO_STEP),
        };
        let low = self.half(low, low_step);
        let high = self.half(high, high_step);
        self.queue.push(high)?;
        self.queue.push(low)
    }

    /// A half of the node at work.
    fn half(&self, node: u32, step: Step) -> Waiting {
        Waiting {
            node,
            bound: self.present.bound,
            depth: self.present.depth.saturating_add(1),
            step,
        }
    }

    /// Proposes where to split the box of a node, whose problem without cuts this is. Where the point of least cost is
    /// whole, one of the linking columns is split.
    pub fn place(
        &mut self,
        node: u32,
        problem: &Problem<'_>,
        links: &[u32],
    ) -> Result<Option<Place>, AllocError> {
        self.choice = None;
        if self.present.node != node {
            self.present = unknown(node);
        }
        if self.simplex.solve(problem, None)? != End::Optimal {
            return Ok(None);
        }
        self.learn()?;
        self.choice = best_split(problem, &self.simplex, &self.costs, links);
        match self.choice {
            Some(choice) => Ok(Some(choice.place)),
            None => Ok(None),
        }
    }

    /// Learns what the split gained that the node at work is a half of.
    fn learn(&mut self) -> Result<(), AllocError> {
        let bound = self.simplex.cost();
        let gain = bound - self.present.bound;
        self.present.bound = self.present.bound.max(bound);
        self.costs.learn(self.present.step, gain)
    }
}

/// The step to a half of the split.
fn step(choice: Choice, is_up: bool) -> Step {
    Step {
        column: choice.place.column,
        is_up,
        distance: if is_up { choice.high } else { choice.low },
    }
}
