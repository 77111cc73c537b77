//! The lines of trees.
ghost use Rattle.std.specs.Prelude.{◌≡◌, IfOk};
ghost use Rattle.bl_certtext.specs.Places.{lower_count};
ghost use Rattle.bl_check.specs.Keeping.{IsAsked, IsJudged};

use crate::checker::{Checker, unless};
use bl_certline::CertLine;
use bl_check_leaf::{close, is_unanswered};
use bl_check_rules::keeps_entry_proof;
use bl_check_terms::CertRule;
use bl_check_walk::Site;
use bl_model::{Bilevel, Box2};
use std::alloc::{AllocError, Global};
use std::sync::Arc;

impl Checker {
    /// A node of a tree of the follower, at this box.
    pub(crate) fn follower_node(
        &self,
        alloc: Global,
        model: &Bilevel,
        lower: usize,
        area: Arc<Box2, Global>,
        line: CertLine,
    ) -> Result<Option<CertRule>, AllocError>
        requires lower { lower ≡ lower_count model.now }
        requires asked { IsAsked model.now self.now (Site.FollowerTree area) line }
        ensures { IfOk result
            (λ broken. IsJudged model.now self.now (Site.FollowerTree area) line broken self.now) }
    {
        let _columns = model.lo();
        let CertLine::Proof { den, mult } = line else {
            return Ok(None);
        };
        let Some(entry) = &self.entry else {
            unreachable!()
        };
        let (rows, value) = (&entry.rows, entry.value);
        let kept = keeps_entry_proof(
            alloc,
            model,
            lower,
            rows,
            value,
            &area,
            den,
            mult.as_slice(),
        )?;
        Ok(unless(kept, CertRule::Proof))
    }

    /// A node of the tree, at this box.
    pub(crate) fn node(
        &self,
        alloc: Global,
        model: &Bilevel,
        area: Arc<Box2, Global>,
        line: CertLine,
    ) -> Result<Option<CertRule>, AllocError>
        requires asked { IsAsked model.now self.now (Site.Tree area) line }
        ensures { IfOk result (λ broken. IsJudged model.now self.now (Site.Tree area) line broken self.now) }
    {
        let _columns = model.lo();
        match line {
            CertLine::Close {
                den,
                value_row,
                cuts,
                mult,
                ..
            } => close(
                alloc,
                model,
                &self.said,
                &area,
                den,
                value_row,
                cuts.as_slice(),
                mult.as_slice(),
            ),
            CertLine::NoAnswer => {
                let kept = is_unanswered(alloc, model, &self.said, &area)?;
                Ok(unless(kept, CertRule::Cited))
            }
            _ => Ok(None),
        }
    }
}
