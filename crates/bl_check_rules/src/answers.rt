//! What entries say of links.
ghost use Rattle.std.specs.Prelude.{◌≡◌, [], ℤ, List, None, Some, if◌then◌else◌, OnOk};
ghost use Rattle.std.specs.Cmp.Lexicographic.{pointwise};
ghost use Rattle.std.specs.Ordering.{int_eq};
ghost use Rattle.bl_check_rules.specs.Answers.{answer_in};

use indexmap::IndexMap;
use std::alloc::{AllocError, Global};

/// What entries say of their links: the least cost of a response, or that there is none.
#[derive(Drop)]
pub struct Answers {
    answers: IndexMap<Vec<i64>, Option<i64>>,
}

impl Answers {
    /// Nothing is said.
    pub fn new(alloc: Global) -> Answers
        ensures { (link : List ℤ) → answer_in result link ≡ None }
    {
        Answers {
            answers: IndexMap::new(alloc),
        }
    }

    /// What is said of the link, none where nothing is.
    pub fn get(&self, link: &[i64]) -> Option<Option<i64>>
        ensures { result ≡ answer_in self.now link.now }
    {
        self.answers.get(link).copied()
    }

    /// Says this of the link, in place of what was said of it.
    pub fn note(
        &mut self,
        alloc: Global,
        link: &[i64],
        value: Option<i64>,
    ) -> Result<(), AllocError>
        ensures { OnOk result ((other : List ℤ) → answer_in self.new other
            ≡ (if pointwise int_eq other link.now then Some value else answer_in self.old other)) }
    {
        let key = Vec::from_slice(alloc, link)?;
        self.answers.insert(key, value)?;
        Ok(())
    }
}
