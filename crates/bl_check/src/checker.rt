//! A checker of the lines of a certificate.
ghost use Rattle.std.specs.Prelude.{IfOk};
ghost use Rattle.bl_terms.specs.Programs.{Program};
ghost use Rattle.bl_check_terms.specs.Reading.{nothing};
ghost use Rattle.bl_check.specs.Keeping.{IsAsked, IsJudged, IsKept, IsUnless};

use crate::entry::OpenEntry;
use bl_certline::CertLine;
use bl_check_rules::keeps_sense;
use bl_check_state::Said;
use bl_check_terms::CertRule;
use bl_check_walk::{Judge, Site};
use bl_model::Bilevel;
use std::alloc::{AllocError, Global};

/// What was said so far, and the entry that is being read.
#[derive(Drop)]
pub(crate) struct Checker {
    pub(crate) said: Said,
    pub(crate) entry: Option<OpenEntry>,
}

/// The rule, where it isn't kept.
pub(crate) fn unless(kept: bool, rule: CertRule) -> Option<CertRule>
    ensures { IsUnless kept rule result }
{
    if kept { None } else { Some(rule) }
}

impl Checker {
    /// Nothing was said.
    pub(crate) fn new(alloc: Global) -> Checker
        ensures { (p : Program) → IsKept p result nothing }
    {
        Checker {
            said: Said::nothing(alloc),
            entry: None,
        }
    }

    /// A line that stands in no tree.
    fn plain_line(
        &mut self,
        alloc: Global,
        model: &Bilevel,
        line: CertLine,
    ) -> Result<Option<CertRule>, AllocError>
        requires asked { IsAsked model.now self.old Site.Elsewhere line }
        ensures { IfOk result (λ broken. IsJudged model.now self.old Site.Elsewhere line broken self.new) }
    {
        match line {
            CertLine::StatesOptimal { value } => {
                self.optimal(alloc, value);
                Ok(None)
            }
            CertLine::Point { values } => Ok(self.point(model, values)),
            CertLine::EntryHead { link } => self.entry_head(alloc, model, link),
            CertLine::Best { value, response } => self.best(alloc, model, value, response),
            CertLine::CutCount { .. } => self.cut_count(alloc, model),
            CertLine::Area { sides } => self.area(alloc, model, sides),
            CertLine::TightList { items } => self.tight(alloc, model, items),
            CertLine::Inverse { den } => {
                self.inverse(model, den);
                Ok(None)
            }
            CertLine::Unit { pairs } => self.unit(alloc, model, pairs),
            CertLine::At { values } => self.at(alloc, model, values),
            CertLine::Response { values } => self.response(alloc, model, values),
            line => Ok(unless(keeps_sense(model, &line), CertRule::Sense)),
        }
    }
}

impl Judge for Checker {
    ghost says = { λ checker p c. IsKept p checker c };

    fn take(
        &mut self,
        alloc: Global,
        model: &Bilevel,
        lower: usize,
        site: Site,
        line: CertLine,
    ) -> Result<Option<CertRule>, AllocError> {
        match site {
            Site::FollowerTree(area) => self.follower_node(alloc, model, lower, area, line),
            Site::Tree(area) => self.node(alloc, model, area, line),
            Site::Elsewhere => self.plain_line(alloc, model, line),
        }
    }
}
