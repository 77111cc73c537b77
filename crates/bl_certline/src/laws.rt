//! What fixes the meaning of a certificate's lines, as laws over their definitions.
ghost use Rattle.bl_certline.specs.Laws.{HaveNoLineFeed, HaveOneMeaning};

/// Each spelling is of one well-formed line.
pub fn spellings_have_one_meaning()
    ensures { HaveOneMeaning }
{}

/// No line feed stands in the spelling of a well-formed line.
pub fn spellings_have_no_line_feed()
    ensures { HaveNoLineFeed }
{}
