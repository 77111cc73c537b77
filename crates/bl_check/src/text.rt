//! The check of a whole text.
ghost use Rattle.std.specs.Prelude.{IfOk};
ghost use Rattle.bl_cert_terms.specs.Certificates.{StatementHolds};
ghost use Rattle.bl_check.specs.Checks.{IsChecked};

use crate::checker::Checker;
use bl_cert_terms::Statement;
use bl_check_walk::{CheckFail, walk};
use bl_model::Bilevel;
use std::alloc::Global;

/// The verdict on the text.
fn verdict(alloc: Global, model: &Bilevel, bytes: &[u8]) -> Result<Statement, CheckFail>
    ensures { IsChecked model.now bytes.now result }
{
    let mut checker = Checker::new(alloc);
    match walk(alloc, model, bytes, &mut checker) {
        Ok(()) => Ok(checker.said.statement),
        Err(fail) => Err(fail),
    }
}

/// Whether the text is accepted as a certificate of the model: then what it states, which is true of the model whoever
/// wrote the text. Else the first line that breaks a rule, and the first rule that it breaks there; or that memory ran
/// out, which says nothing of the text.
///
/// Time is linear in the text, but for the sums of its proofs: each line with multipliers is judged by adding up the
/// rows that it names over a box.
pub fn check(alloc: Global, model: &Bilevel, bytes: &[u8]) -> Result<Statement, CheckFail>
    ensures checked { IsChecked model.now bytes.now result }
    ensures holds { IfOk result (StatementHolds model.now) }
{
    let _sense = model.sense();
    verdict(alloc, model, bytes)
}
