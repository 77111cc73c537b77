//! The laws that other crates cite, each the contract of a function that does nothing.

ghost use Rattle.bl_whole.specs.Identities.{OneNormalFormOneValue};
ghost use Rattle.bl_whole.specs.Laws.{ProductOrder, RingLaws, SizeLaws, SumLaws};

/// Two polynomials with one normal form have one value at every list of numbers.
pub fn one_normal_form_one_value()
    ensures { OneNormalFormOneValue }
{}

/// Products are shared out over sums, and may be grouped anyhow.
pub fn ring_laws()
    ensures { RingLaws }
{}

/// Products against order.
pub fn product_order()
    ensures { ProductOrder }
{}

/// Sums by place.
pub fn sum_laws()
    ensures { SumLaws }
{}

/// Sizes of sums and products, and what fits a width.
pub fn size_laws()
    ensures { SizeLaws }
{}
