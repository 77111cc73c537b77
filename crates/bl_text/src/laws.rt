//! What fixes the meaning of lines and fields, as laws over their definitions.
ghost use Rattle.bl_text.specs.Fields.{AreRuns};
ghost use Rattle.bl_text.specs.Lines.{HasItsLines, IsItsLines};

/// A text that begins with lines has these lines first, and bytes without a line feed are one line at most.
pub fn text_has_its_lines()
    ensures { HasItsLines }
{}

/// Each text is its lines, each with its line feed, but perhaps for the last.
pub fn text_is_its_lines()
    ensures { IsItsLines }
{}

/// The fields of a line are its runs of bytes that aren't blank.
pub fn fields_are_runs()
    ensures { AreRuns }
{}
