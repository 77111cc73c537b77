//! Links: values of the linking columns.
ghost use Rattle.std.specs.Prelude.{◌≡◌, ◌↔◌, IsTrue};
ghost use Rattle.bl_terms.specs.Responses.{IsLink};

use bl_model::Bilevel;

/// Whether the numbers are a link of the model: one for each linking column, in its range.
pub fn is_link(model: &Bilevel, link: &[i64]) -> bool
    ensures { IsTrue result ↔ IsLink model.now link.now }
{
    let links = model.links();
    let lo = model.lo();
    let hi = model.hi();
    if link.len() != links.len() {
        return false;
    }
    for j in 0..links.len() {
        let column = links[j] as usize;
        if link[j] < lo[column] || hi[column] < link[j] {
            return false;
        }
    }
    true
}
