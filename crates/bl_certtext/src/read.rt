//! The reader of a whole text.
ghost use Rattle.std.specs.Prelude.{◌≡◌, ◌++◌, ◌<◌, ◌+◌, IfOk, MatchOption, OnOk, length, reverse};
ghost use Rattle.bl_certtext.specs.Places.{lower_count};
ghost use Rattle.bl_certtext.specs.Grammar.{parts_in};
ghost use Rattle.bl_certtext.specs.Steps.{Advances, IsFirstLine, IsNoLine, IsRefusedLine};
ghost use Rattle.bl_certtext.specs.Texts.{IsRead};

use crate::cert::{CertError, RawCert};
use crate::part::{Following, Part};
use crate::places::lower_count;
use crate::stepping::step;
use bl_certline::{CertLine, next_line, read_line};
use bl_model::{Bilevel, Listed};
use std::alloc::{AllocError, Global};

/// The canonical line at the front of the bytes, and what stands behind its line feed.
fn first_line(alloc: Global, bytes: &[u8]) -> Result<Option<(CertLine, &[u8])>, AllocError>
    ensures { IfOk result (λ first. MatchOption first (IsNoLine bytes.now) (λ x. IsFirstLine bytes.now x.0 x.1.now)) }
{
    let Some(end) = next_line(bytes, 0) else {
        return Ok(None);
    };
    match read_line(alloc, &bytes[..end])? {
        Some(line) => Ok(Some((line, &bytes[end + 1..]))),
        None => Ok(None),
    }
}

/// Puts the parts on a stack, the first on top.
fn push(stack: &mut Vec<Part>, following: Following) -> Result<(), AllocError>
    ensures { OnOk result (reverse stack.new.items ≡ parts_in following ++ reverse stack.old.items) }
{
    match following {
        Following::Nothing => Ok(()),
        Following::One(part) => {
            stack.push(part)?;
            Ok(())
        }
        Following::Two(part, next) => {
            stack.push(next)?;
            stack.push(part)?;
            Ok(())
        }
    }
}

/// Reads a line where the part is expected, and puts what is expected then on the stack.
fn advance<'a>(
    alloc: Global,
    model: &Bilevel,
    lower: usize,
    part: Part,
    bytes: &'a [u8],
    stack: &mut Vec<Part>,
) -> Result<Option<(CertLine, &'a [u8])>, AllocError>
    requires { lower ≡ lower_count model.now }
    ensures { IfOk result (λ taken. MatchOption taken (IsRefusedLine model.now part bytes.now)
        (λ x. Advances model.now part bytes.now x.0 x.1.now stack.old.items stack.new.items)) }
{
    let Some((line, rest)) = first_line(alloc, bytes)? else {
        return Ok(None);
    };
    let Some(following) = step(alloc, model, lower, part, &line)? else {
        return Ok(None);
    };
    push(stack, following)?;
    Ok(Some((line, rest)))
}

/// The lines of a text that has the form of a certificate of the model, each canonical and where it may stand; or the
/// first line at which it hasn't that form. What the lines claim isn't tested. Time is linear in the text.
pub fn read_cert(alloc: Global, bytes: &[u8], model: &Bilevel) -> Result<RawCert, CertError>
    ensures { IsRead model.now bytes.now result }
{
    let lower = lower_count(model);
    let mut stack = Vec::new(alloc);
    stack.push(Part::Version)?;
    let mut lines = Vec::new(alloc);
    let mut rest = bytes;
    while let Some(part) = stack.pop() {
        let Some((line, behind)) = advance(alloc, model, lower, part, rest, &mut stack)? else {
            return Err(CertError::Fault {
                line: lines.len() as u64 + 1,
            });
        };
        lines.push(line)?;
        rest = behind;
    }
    if !rest.is_empty() {
        return Err(CertError::Fault {
            line: lines.len() as u64 + 1,
        });
    }
    Ok(RawCert {
        lines: Listed::new(lines),
    })
}
