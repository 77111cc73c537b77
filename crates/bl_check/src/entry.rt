//! The entry that is being read.
ghost use Rattle.std.specs.Prelude.{◌≡◌, ◌↔◌, IsTrue, IfOk, Some};
ghost use Rattle.bl_terms.specs.Responses.{Best, IsLink, IsResponse, response_cost};
ghost use Rattle.bl_cert_terms.specs.Certificates.{ProvedEntry};
ghost use Rattle.bl_check_terms.specs.Reading.{entry_of_link, with_answer};
ghost use Rattle.bl_check.specs.Keeping.{IsNoted, IsOpenAs};

use bl_check_rules::{Answers, keeps_best};
use bl_fproof::FollowerRows;
use bl_model::Bilevel;
use std::alloc::{AllocError, Global};

/// The entry that is being read, or that was read last: its link, the least cost of a response where it tells one, and
/// the follower's problem of the link.
#[derive(Drop)]
pub(crate) struct OpenEntry {
    pub(crate) link: Vec<i64>,
    pub(crate) value: Option<i64>,
    pub(crate) rows: FollowerRows,
}

impl OpenEntry {
    /// An entry of which only the link is said.
    pub(crate) fn of(alloc: Global, model: &Bilevel, link: &[i64]) -> Result<OpenEntry, AllocError>
        requires { IsLink model.now link.now }
        ensures { IfOk result (λ entry. IsOpenAs model.now entry (entry_of_link link.now)) }
    {
        let rows = FollowerRows::make(alloc, model, link)?;
        let link = Vec::from_slice(alloc, link)?;
        Ok(OpenEntry {
            link,
            value: None,
            rows,
        })
    }

    /// Whether the numbers are a response to the entry's link, of this cost; where they are, the entry says so, and it
    /// is noted among the answers.
    pub(crate) fn answer(
        &mut self,
        alloc: Global,
        model: &Bilevel,
        answers: &mut Answers,
        value: i64,
        response: &[i64],
    ) -> Result<bool, AllocError>
        ensures { IfOk result (λ kept. (e : ProvedEntry) → IsOpenAs model.now self.old e
            → (IsTrue kept ↔ (IsResponse model.now e.link response.now
            × (response_cost model.now response.now ≡ value)))
            × (IsTrue kept → IsOpenAs model.now self.new (with_answer (Best response.now value) e)
            × IsNoted answers.old answers.new e.link (Some value))) }
    {
        if !keeps_best(alloc, model, &self.rows, value, response)? {
            return Ok(false);
        }
        answers.note(alloc, &self.link, Some(value))?;
        self.value = Some(value);
        Ok(true)
    }
}
