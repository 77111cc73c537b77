//! What any puts leave in a pool, as laws over the definitions.
ghost use Rattle.bl_pool.specs.Laws.{FindsTheLink, KeepsTheFirst};

/// The entry of a link is one of that link, and is none where there is none.
pub fn finds_the_link()
    ensures { FindsTheLink }
{}

/// Of each link a pool keeps the first entry that was put and kept.
pub fn keeps_the_first()
    ensures { KeepsTheFirst }
{}
