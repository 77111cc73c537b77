//! The cuts of a certificate.
ghost use Rattle.std.specs.Prelude.{◌≡◌, ◌++◌, map, All, OnOk};
ghost use Rattle.std.specs.List.{flat_map};
ghost use Rattle.std.specs.Arc.{arc_value};
ghost use Rattle.bl_certtext.specs.Texts.{text_of};
ghost use Rattle.bl_check_terms.specs.Writing.{cut_lines, unit_line};
ghost use Rattle.bl_cert.specs.Pieces.{HasFewTight, box_lines, point_lines};

use crate::lines::{copied, items_of, sides_of, unit_pairs};
use bl_certline::{CertLine, put_line};
use bl_cut::CutStep;
use bl_raw::Listed;
use std::alloc::{AllocError, Global};
use std::sync::Arc;

/// Writes the units.
fn put_units(
    alloc: Global,
    units: &[Listed<(u32, i64)>],
    text: &mut Vec<u8>,
) -> Result<(), AllocError>
    ensures { OnOk result (text.new.items ≡ text.old.items ++ text_of (map unit_line units.now)) }
{
    for unit in units {
        let pairs = unit_pairs(alloc, unit.as_slice())?;
        put_line(text, &CertLine::Unit { pairs })?;
    }
    Ok(())
}

/// Writes a cut's box, tight rows and the number of its inverse.
fn put_rows(alloc: Global, step: &CutStep, text: &mut Vec<u8>) -> Result<(), AllocError>
    ensures text { OnOk result (text.new.items ≡ text.old.items ++ text_of (box_lines step.now)) }
    ensures few { OnOk result (HasFewTight step.now) }
{
    put_line(text, &CertLine::CutHead)?;
    let sides = sides_of(alloc, step.area())?;
    put_line(text, &CertLine::Area { sides })?;
    let items = items_of(alloc, step.parts().tight.as_slice())?;
    put_line(text, &CertLine::TightList { items })?;
    put_line(
        text,
        &CertLine::Inverse {
            den: step.parts().den,
        },
    )
}

/// Writes a cut's point and response.
fn put_points(alloc: Global, step: &CutStep, text: &mut Vec<u8>) -> Result<(), AllocError>
    ensures { OnOk result (text.new.items ≡ text.old.items ++ text_of (point_lines step.now)) }
{
    let values = copied(alloc, step.parts().point.as_slice())?;
    put_line(text, &CertLine::At { values })?;
    let values = copied(alloc, step.parts().response.as_slice())?;
    put_line(text, &CertLine::Response { values })
}

/// Writes a cut.
fn put_cut(alloc: Global, step: &CutStep, text: &mut Vec<u8>) -> Result<(), AllocError>
    ensures text { OnOk result (text.new.items ≡ text.old.items ++ text_of (cut_lines step.now)) }
    ensures few { OnOk result (HasFewTight step.now) }
{
    put_rows(alloc, step, text)?;
    put_units(alloc, step.parts().units.as_slice(), text)?;
    put_points(alloc, step, text)
}

/// Writes the cuts.
pub(crate) fn put_cuts(
    alloc: Global,
    steps: &[Arc<CutStep, Global>],
    text: &mut Vec<u8>,
) -> Result<(), AllocError>
    ensures text { OnOk result
        (text.new.items ≡ text.old.items ++ text_of (flat_map cut_lines (map arc_value steps.now))) }
    ensures few { OnOk result (All HasFewTight (map arc_value steps.now)) }
{
    for step in steps {
        put_cut(alloc, step, text)?;
    }
    Ok(())
}
