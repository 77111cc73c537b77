//! The way through a whole text.
ghost use Rattle.std.specs.Prelude.{◌≡◌, ◌++◌, IfOk, MatchOption, OnOk, reverse};
ghost use Rattle.std.specs.Result.{MatchResult};
ghost use Rattle.bl_cert_terms.specs.Certificates.{Certificate};
ghost use Rattle.bl_certtext.specs.Places.{lower_count};
ghost use Rattle.bl_certtext.specs.Grammar.{parts_in};
ghost use Rattle.bl_check_terms.specs.Reading.{nothing};
ghost use Rattle.bl_check_walk.specs.Sites.{IsSound};
ghost use Rattle.bl_check_walk.specs.Walked.{IsWalked};
ghost use Rattle.bl_check_walk.specs.Walks.{IsAdvance, IsAt, IsFirstLine, IsNoLine, IsPlacedStep, IsRefusal};

use crate::fail::CheckFail;
use crate::judge::Judge;
use crate::site::Site;
use bl_certline::{CertLine, next_line, pairs_rise, read_spelled};
use bl_certtext::{Following, Part, has_form, lower_count, step};
use bl_check_terms::CertRule;
use bl_model::Bilevel;
use std::alloc::{AllocError, Global};

/// The line at the front of the bytes, whose pairs may stand in any order, and what stands behind its line feed.
fn first_line(alloc: Global, bytes: &[u8]) -> Result<Option<(CertLine, &[u8])>, AllocError>
    ensures { IfOk result (λ first. MatchOption first (IsNoLine bytes.now) (λ x. IsFirstLine bytes.now x.0 x.1.now)) }
{
    let Some(end) = next_line(bytes, 0) else {
        return Ok(None);
    };
    match read_spelled(alloc, &bytes[..end])? {
        Some(line) => Ok(Some((line, &bytes[end + 1..]))),
        None => Ok(None),
    }
}

/// What is expected behind the line in place of the part; none where the line isn't in its place.
fn following(
    alloc: Global,
    model: &Bilevel,
    lower: usize,
    part: Part,
    line: &CertLine,
) -> Result<Option<Following>, AllocError>
    requires { lower ≡ lower_count model.now }
    ensures { IfOk result (IsPlacedStep model.now part line.now) }
{
    if !pairs_rise(line) {
        return Ok(None);
    }
    step(alloc, model, lower, part, line)
}

/// Puts the parts on a stack, the first on top.
fn push(stack: &mut Vec<Part>, following: Following) -> Result<(), AllocError>
    ensures { OnOk result (reverse stack.new.items ≡ parts_in following ++ reverse stack.old.items) }
{
    match following {
        Following::Nothing => Ok(()),
        Following::One(part) => {
            stack.push(part)?;
            Ok(())
        }
        Following::Two(part, next) => {
            stack.push(next)?;
            stack.push(part)?;
            Ok(())
        }
    }
}

/// Reads the next line, where the part is expected: what stands behind it, or the rule that it breaks.
fn advance<'a, J: Judge>(
    alloc: Global,
    model: &Bilevel,
    lower: usize,
    part: Part,
    bytes: &'a [u8],
    stack: &mut Vec<Part>,
    judge: &mut J,
) -> Result<Result<&'a [u8], CertRule>, AllocError>
    requires lower { lower ≡ lower_count model.now }
    requires sound { IsSound model.now part }
    requires known { (c : Certificate) × IsAt (J.says judge.old model.now) model.now part (reverse stack.old.items) c }
    ensures { IfOk result (λ next. MatchResult next
        (λ rest. IsAdvance (J.says judge.old model.now) (J.says judge.new model.now) model.now part bytes.now rest.now
        stack.old.items stack.new.items)
        (IsRefusal (J.says judge.old model.now) model.now part bytes.now stack.old.items)) }
{
    let Some((line, rest)) = first_line(alloc, bytes)? else {
        return Ok(Err(CertRule::Syntax));
    };
    if !has_form(model, &part, &line) {
        return Ok(Err(CertRule::Syntax));
    }
    let site = Site::of(&part)?;
    let Some(following) = following(alloc, model, lower, part, &line)? else {
        return Ok(Err(CertRule::Place));
    };
    if let Some(rule) = judge.take(alloc, model, lower, site, line)? {
        return Ok(Err(rule));
    }
    push(stack, following)?;
    Ok(Ok(rest))
}

/// Leads the judge through a text, line after line, while they are right: the text is then that of a certificate, and
/// the judge was told it. Else it tells the first line that breaks a rule, and the first rule that it breaks.
///
/// Time is linear in the text, but for what the judge takes.
pub fn walk<J: Judge>(
    alloc: Global,
    model: &Bilevel,
    bytes: &[u8],
    judge: &mut J,
) -> Result<(), CheckFail>
    requires { J.says judge.old model.now nothing }
    ensures { IsWalked (J.says judge.new model.now) model.now bytes.now result }
{
    let _columns = model.lo();
    let lower = lower_count(model);
    let mut stack = Vec::new(alloc);
    stack.push(Part::Version)?;
    let mut number = 0;
    let mut rest = bytes;
    while let Some(part) = stack.pop() {
        match advance(alloc, model, lower, part, rest, &mut stack, judge)? {
            Ok(behind) => rest = behind,
            Err(rule) => {
                return Err(CheckFail::Refused {
                    line: number + 1,
                    rule,
                });
            }
        }
        number += 1;
    }
    if !rest.is_empty() {
        return Err(CheckFail::Refused {
            line: number + 1,
            rule: CertRule::Tail,
        });
    }
    Ok(())
}
