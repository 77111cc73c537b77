//! The sections of a text in their order.
ghost use Rattle.std.specs.Prelude.{◌≡◌, ◌==◌, length};
ghost use Rattle.bl_text.specs.Fields.{fields_of};
ghost use Rattle.bl_mps_terms.specs.Parts.{begins_section, is_comment, is_skipped};
ghost use Rattle.bl_mps_read.specs.Sections.{no_sections, next_may_be, with_section};

use bl_mps_terms::Section;
use bl_text::{begins_with_blank, split_field};

/// The present section, and which sections have begun.
#[derive(Clone, Copy)]
pub struct Sections {
    pub present: Option<Section>,
    pub sense: bool,
    pub rows: bool,
    pub columns: bool,
    pub right_sides: bool,
    pub ranges: bool,
    pub bounds: bool,
}

impl Sections {
    /// Before the first section line.
    pub fn none() -> Sections
        ensures { result ≡ no_sections }
    {
        Sections {
            present: None,
            sense: false,
            rows: false,
            columns: false,
            right_sides: false,
            ranges: false,
            bounds: false,
        }
    }

    /// Whether this section may begin here. NAME, OBJSENSE, ROWS and COLUMNS stand in this order, each once, and the
    /// first two may lack; then RHS, RANGES and BOUNDS in any order, each at most once; then ENDATA.
    pub fn may_begin(self, section: Section) -> bool
        ensures { result ≡ next_may_be self section }
    {
        match section {
            Section::Name => self.present.is_none(),
            Section::ObjSense => !self.sense && !self.rows,
            Section::Rows => !self.rows,
            Section::Columns => self.rows && !self.columns,
            Section::RightSides => self.columns && !self.right_sides,
            Section::Ranges => self.columns && !self.ranges,
            Section::Bounds => self.columns && !self.bounds,
            Section::End => self.columns,
        }
    }

    /// With this section begun.
    pub fn begin(self, section: Section) -> Sections
        ensures { result ≡ with_section self section }
    {
        let mut sections = self;
        sections.present = Some(section);
        match section {
            Section::ObjSense => sections.sense = true,
            Section::Rows => sections.rows = true,
            Section::Columns => sections.columns = true,
            Section::RightSides => sections.right_sides = true,
            Section::Ranges => sections.ranges = true,
            Section::Bounds => sections.bounds = true,
            Section::Name | Section::End => {}
        }
        sections
    }
}

/// Whether the line's first byte isn't a blank.
pub fn begins_section(line: &[u8]) -> bool
    ensures { result ≡ begins_section line.now }
{
    !line.is_empty() && !begins_with_blank(line)
}

fn is_comment(line: &[u8]) -> bool
    ensures { result ≡ is_comment line.now }
{
    matches!(line, [b'*', ..])
}

fn has_no_field(line: &[u8]) -> bool
    ensures { result ≡ (length (fields_of line.now) == 0) }
{
    split_field(line).is_none()
}

/// Whether the line is a comment or has no field.
pub fn is_skipped(line: &[u8]) -> bool
    ensures { result ≡ is_skipped line.now }
{
    is_comment(line) || has_no_field(line)
}
