//! The lines of a cut.
ghost use Rattle.std.specs.Prelude.{None, IfOk};
ghost use Rattle.bl_check.specs.Keeping.{IsAsked, IsJudged};

use crate::checker::{Checker, unless};
use bl_certline::{CertLine, TightItem};
use bl_check_cuts as rules;
use bl_check_terms::CertRule;
use bl_check_walk::Site;
use bl_model::{Bilevel, Listed};
use std::alloc::{AllocError, Global};

impl Checker {
    /// The box of a new cut. It breaks no rule.
    pub(crate) fn area(
        &mut self,
        alloc: Global,
        model: &Bilevel,
        sides: Listed<(i64, i64)>,
    ) -> Result<Option<CertRule>, AllocError>
        requires asked { IsAsked model.now self.old Site.Elsewhere (CertLine.Area sides) }
        ensures { IfOk result
            (λ broken. IsJudged model.now self.old Site.Elsewhere (CertLine.Area sides) broken self.new) }
    {
        rules::begin(alloc, model, &mut self.said.cuts, sides.as_slice())?;
        Ok(None)
    }

    /// What the cut adds up.
    pub(crate) fn tight(
        &mut self,
        alloc: Global,
        model: &Bilevel,
        items: Listed<TightItem>,
    ) -> Result<Option<CertRule>, AllocError>
        requires asked { IsAsked model.now self.old Site.Elsewhere (CertLine.TightList items) }
        ensures { IfOk result
            (λ broken. IsJudged model.now self.old Site.Elsewhere (CertLine.TightList items) broken self.new) }
    {
        let _columns = model.lo();
        let kept = rules::size(alloc, model, &mut self.said.cuts, items.as_slice())?;
        Ok(unless(kept, CertRule::Size))
    }

    /// The number of the cut's inverse. It breaks no rule.
    pub(crate) fn inverse(&mut self, model: &Bilevel, den: i64)
        requires asked { IsAsked model.now self.old Site.Elsewhere (CertLine.Inverse den) }
        ensures { IsJudged model.now self.old Site.Elsewhere (CertLine.Inverse den) None self.new }
    {
        let _columns = model.lo();
        rules::inverse(&mut self.said.cuts, den);
    }

    /// The numbers of one unit of the inverse.
    pub(crate) fn unit(
        &mut self,
        alloc: Global,
        model: &Bilevel,
        pairs: Listed<(i64, i64)>,
    ) -> Result<Option<CertRule>, AllocError>
        requires asked { IsAsked model.now self.old Site.Elsewhere (CertLine.Unit pairs) }
        ensures { IfOk result
            (λ broken. IsJudged model.now self.old Site.Elsewhere (CertLine.Unit pairs) broken self.new) }
    {
        let _columns = model.lo();
        let kept = rules::unit(alloc, model, &mut self.said.cuts, pairs.as_slice())?;
        Ok(unless(kept, CertRule::Inverse))
    }

    /// The cut's point.
    pub(crate) fn at(
        &mut self,
        alloc: Global,
        model: &Bilevel,
        values: Listed<i64>,
    ) -> Result<Option<CertRule>, AllocError>
        requires asked { IsAsked model.now self.old Site.Elsewhere (CertLine.At values) }
        ensures { IfOk result
            (λ broken. IsJudged model.now self.old Site.Elsewhere (CertLine.At values) broken self.new) }
    {
        let _columns = model.lo();
        let kept = rules::point(alloc, model, &mut self.said.cuts, values.as_slice())?;
        Ok(unless(kept, CertRule::Tight))
    }

    /// The response to the cut's point.
    pub(crate) fn response(
        &self,
        alloc: Global,
        model: &Bilevel,
        values: Listed<i64>,
    ) -> Result<Option<CertRule>, AllocError>
        requires asked { IsAsked model.now self.now Site.Elsewhere (CertLine.Response values) }
        ensures { IfOk result
            (λ broken. IsJudged model.now self.now Site.Elsewhere (CertLine.Response values) broken self.now) }
    {
        let _columns = model.lo();
        let kept = rules::response(alloc, model, &self.said.cuts, values.as_slice())?;
        Ok(unless(kept, CertRule::Response))
    }
}
