//! Pseudo-costs of columns.
use crate::numbers::{add_at, at, lengthen};
use crate::queue::Step;
use std::alloc::{AllocError, Global};

/// The least distance by which a column is moved where something is learned of it.
const LEAST_DISTANCE: f64 = 1e-9;

/// The mean gain of the bound for each unit of distance in one direction: by column, and over all columns.
#[derive(Debug, Drop)]
struct Gains {
    sums: Vec<f64>,
    counts: Vec<f64>,
    sum: f64,
    count: f64,
}

impl Gains {
    fn new(alloc: Global) -> Gains {
        Gains {
            sums: Vec::new(alloc),
            counts: Vec::new(alloc),
            sum: 0.0,
            count: 0.0,
        }
    }

    fn learn(&mut self, column: usize, gain: f64) -> Result<(), AllocError> {
        lengthen(&mut self.sums, column.saturating_add(1))?;
        lengthen(&mut self.counts, column.saturating_add(1))?;
        add_at(&mut self.sums, column, gain);
        add_at(&mut self.counts, column, 1.0);
        self.sum += gain;
        self.count += 1.0;
        Ok(())
    }

    /// The mean gain of a column, else that of all, else 1.
    fn mean(&self, column: usize) -> f64 {
        let count = at(&self.counts, column);
        if count > 0.0 {
            at(&self.sums, column) / count
        } else if self.count > 0.0 {
            self.sum / self.count
        } else {
            1.0
        }
    }
}

/// The pseudo-costs of columns, downward and upward.
#[derive(Debug, Drop)]
pub(crate) struct PseudoCosts {
    down: Gains,
    up: Gains,
}

impl PseudoCosts {
    /// Pseudo-costs of which nothing is known. Takes no memory.
    pub(crate) fn new(alloc: Global) -> PseudoCosts {
        PseudoCosts {
            down: Gains::new(alloc),
            up: Gains::new(alloc),
        }
    }

    /// Learns that the bound gained so much by a step.
    pub(crate) fn learn(&mut self, step: Step, gain: f64) -> Result<(), AllocError> {
        if !(step.distance > LEAST_DISTANCE && gain >= 0.0 && gain.is_finite()) {
            return Ok(());
        }
        let gain = gain / step.distance;
        if step.is_up {
            self.up.learn(step.column as usize, gain)
        } else {
            self.down.learn(step.column as usize, gain)
        }
    }

    pub(crate) fn down(&self, column: u32) -> f64 {
        self.down.mean(column as usize)
    }

    pub(crate) fn up(&self, column: u32) -> f64 {
        self.up.mean(column as usize)
    }
}
