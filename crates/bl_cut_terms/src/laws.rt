//! Laws of cuts.
ghost use Rattle.bl_cut_terms.specs.ValidRows.{ValidOnParts};
ghost use Rattle.bl_cut_terms.specs.NoGoods.{NoGoodLaw, NoGoodsLaw};

/// A row that is valid on a box is valid on each part of it.
pub fn valid_on_parts()
    ensures { ValidOnParts }
{}

/// Every bilevel feasible point of a no-good cut's box meets its row, where that is so of the earlier cuts that it
/// uses.
pub fn no_good_law()
    ensures { NoGoodLaw }
{}

/// So in a list of no-good cuts, each of which uses those before it, each is valid on its box.
pub fn no_goods_law()
    ensures { NoGoodsLaw }
{}
