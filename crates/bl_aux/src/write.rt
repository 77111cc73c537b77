//! The writer of the canonical auxiliary text.
ghost use Rattle.std.specs.Prelude.{◌≡◌, ◌++◌, map, pos, IfOk, OnOk};
ghost use Rattle.bl_aux.specs.Canonical.{aux_text, number_line, number_lines};

use bl_num::put_whole;
use bl_raw::RawAux;
use std::alloc::{AllocError, Global};

/// The canonical text: `N n`, `M m`, the `LC`, `LR` and `LO` lines in order, and `OS s`, each with one space and a line
/// feed.
#[tactic(auto, unfolding(crate::specs::Canonical::aux_text))]
pub fn write_aux(alloc: Global, aux: &RawAux) -> Result<Vec<u8>, AllocError>
    ensures { IfOk result (λ text. text.items ≡ aux_text aux.now) }
{
    let columns = aux.columns.as_slice();
    let rows = aux.rows.as_slice();
    let mut text = Vec::new(alloc);
    put_line(&mut text, "N", columns.len() as i128)?;
    put_line(&mut text, "M", rows.len() as i128)?;
    put_places(&mut text, "LC", columns)?;
    put_places(&mut text, "LR", rows)?;
    put_costs(&mut text, "LO", aux.costs.as_slice())?;
    put_line(&mut text, "OS", i128::from(aux.sense))?;
    Ok(text)
}

fn put_places(text: &mut Vec<u8>, key: &str, places: &[u32]) -> Result<(), AllocError>
    ensures { OnOk result (text.new.items ≡ text.old.items ++ number_lines key.now (map pos places.now)) }
{
    for place in places {
        put_line(text, key, i128::from(*place))?;
    }
    Ok(())
}

fn put_costs(text: &mut Vec<u8>, key: &str, costs: &[i64]) -> Result<(), AllocError>
    ensures { OnOk result (text.new.items ≡ text.old.items ++ number_lines key.now costs.now) }
{
    for cost in costs {
        put_line(text, key, i128::from(*cost))?;
    }
    Ok(())
}

fn put_line(text: &mut Vec<u8>, key: &str, number: i128) -> Result<(), AllocError>
    ensures { OnOk result (text.new.items ≡ text.old.items ++ number_line key.now number) }
{
    text.extend_from_slice(key.as_bytes())?;
    text.extend_from_slice(b" ")?;
    put_whole(text, number)?;
    text.extend_from_slice(b"\n")?;
    Ok(())
}
