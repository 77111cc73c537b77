//! The lines of what is stated, and of what entries say.
ghost use Rattle.std.specs.Prelude.{◌≡◌, ◌↔◌, ℕ, ℤ, pos, None, IsTrue, IfOk};
ghost use Rattle.bl_terms.specs.Programs.{InBox, MeetsRows, Program, value_at};
ghost use Rattle.bl_check_terms.specs.Reading.{stated_value, with_point};
ghost use Rattle.bl_check.specs.Keeping.{IsAsked, IsJudged};

use crate::checker::{Checker, unless};
use crate::entry::OpenEntry;
use bl_cert_terms::Statement;
use bl_certline::CertLine;
use bl_check_leaf::has_follower;
use bl_check_rules::keeps_point;
use bl_check_terms::CertRule;
use bl_check_walk::Site;
use bl_model::{Bilevel, Listed};
use std::alloc::{AllocError, Global};

/// Whether a point of the box meets the rows and has the stated value; where it does, it is stated.
fn state_point(model: &Bilevel, statement: &mut Statement, values: Listed<i64>) -> bool
    requires { InBox model.now values }
    ensures kept { IsTrue result ↔ (MeetsRows model.now values
        × (value_at model.now values ≡ stated_value statement.old)) }
    ensures taken { IsTrue result → statement.new ≡ with_point values statement.old }
{
    if !keeps_point(model, statement, values.as_slice()) {
        return false;
    }
    if let Statement::Optimal { point, .. } = statement {
        *point = values;
    }
    true
}

impl Checker {
    /// A value is stated to be the best one; its point follows.
    pub(crate) fn optimal(&mut self, alloc: Global, value: i64)
        ensures { (p : Program)
            → IsJudged p self.old Site.Elsewhere (CertLine.StatesOptimal value) None self.new }
    {
        self.said.statement = Statement::Optimal {
            point: Listed::new(Vec::new(alloc)),
            value,
        };
    }

    /// The stated point.
    pub(crate) fn point(&mut self, model: &Bilevel, values: Listed<i64>) -> Option<CertRule>
        requires asked { IsAsked model.now self.old Site.Elsewhere (CertLine.Point values) }
        ensures { IsJudged model.now self.old Site.Elsewhere (CertLine.Point values) result self.new }
    {
        let kept = state_point(model, &mut self.said.statement, values);
        unless(kept, CertRule::Point)
    }

    /// The link of a new entry. It breaks no rule.
    pub(crate) fn entry_head(
        &mut self,
        alloc: Global,
        model: &Bilevel,
        link: Listed<i64>,
    ) -> Result<Option<CertRule>, AllocError>
        requires asked { IsAsked model.now self.old Site.Elsewhere (CertLine.EntryHead link) }
        ensures { IfOk result
            (λ broken. IsJudged model.now self.old Site.Elsewhere (CertLine.EntryHead link) broken self.new) }
    {
        let _columns = model.lo();
        let entry = OpenEntry::of(alloc, model, link.as_slice())?;
        self.said.answers.note(alloc, link.as_slice(), None)?;
        self.entry = Some(entry);
        Ok(None)
    }

    /// The best response to the entry's link, and its cost.
    pub(crate) fn best(
        &mut self,
        alloc: Global,
        model: &Bilevel,
        value: i64,
        response: Listed<i64>,
    ) -> Result<Option<CertRule>, AllocError>
        requires asked { IsAsked model.now self.old Site.Elsewhere (CertLine.Best value response) }
        ensures { IfOk result
            (λ broken. IsJudged model.now self.old Site.Elsewhere (CertLine.Best value response) broken self.new) }
    {
        let _columns = model.lo();
        let Some(entry) = &mut self.entry else {
            unreachable!()
        };
        let answers = &mut self.said.answers;
        let kept = entry.answer(alloc, model, answers, value, response.as_slice())?;
        Ok(unless(kept, CertRule::Best))
    }

    /// The count of cuts, where the entries end.
    pub(crate) fn cut_count(
        &self,
        alloc: Global,
        model: &Bilevel,
    ) -> Result<Option<CertRule>, AllocError>
        requires asked { (count : ℤ) × IsAsked model.now self.now Site.Elsewhere (CertLine.CutCount count) }
        ensures { IfOk result (λ broken. (count : ℤ)
            → IsJudged model.now self.now Site.Elsewhere (CertLine.CutCount count) broken self.now) }
    {
        let _columns = model.lo();
        let kept = has_follower(alloc, model, &self.said)?;
        Ok(unless(kept, CertRule::Follower))
    }
}
