//! What was said so far.
ghost use Rattle.bl_terms.specs.Programs.{Program};
ghost use Rattle.bl_check_terms.specs.Reading.{nothing};
ghost use Rattle.bl_check_state.specs.Saying.{IsSaid};

use crate::cuts::HeldCuts;
use bl_cert_terms::Statement;
use bl_check_rules::Answers;
use std::alloc::Global;

/// What was said so far: what is stated, what the entries say of their links, and the cuts.
#[derive(Drop)]
pub struct Said {
    pub statement: Statement,
    pub answers: Answers,
    pub cuts: HeldCuts,
}

impl Said {
    /// Nothing was said.
    pub fn nothing(alloc: Global) -> Said
        ensures { (p : Program) → IsSaid p result nothing }
    {
        Said {
            statement: Statement::Infeasible,
            answers: Answers::new(alloc),
            cuts: HeldCuts::new(alloc),
        }
    }
}
