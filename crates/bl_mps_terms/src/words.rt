//! The words of an MPS text.
ghost use Rattle.std.specs.Prelude.{◌≡◌};
ghost use Rattle.std.specs.Str.{bytes_eq};
ghost use Rattle.bl_mps_terms.specs.Words.{section_named, row_kind, bound_kind, maximises};

/// A section of a text.
#[derive(Clone, Copy, Debug, PartialEq, Eq)]
pub enum Section {
    Name,
    ObjSense,
    Rows,
    Columns,
    RightSides,
    Ranges,
    Bounds,
    End,
}

/// The kind of a row: one that isn't bounded, at most its right-hand side, at least, or equal to it.
#[derive(Clone, Copy, Debug, PartialEq, Eq)]
pub enum RowKind {
    Free,
    AtMost,
    AtLeast,
    Equal,
}

/// The kind of a line of bounds, by its word.
#[derive(Clone, Copy, Debug, PartialEq, Eq)]
pub enum BoundKind {
    Up,
    Lo,
    Fx,
    Ui,
    Li,
    Bv,
    Fr,
    Mi,
    Pl,
}

/// Whether a field is this word.
pub fn is_word(field: &[u8], word: &str) -> bool
    ensures { result ≡ bytes_eq field.now word.now }
{
    field == word.as_bytes()
}

/// The section of this name.
pub fn section_named(field: &[u8]) -> Option<Section>
    ensures { result ≡ section_named field.now }
{
    if is_word(field, "NAME") {
        Some(Section::Name)
    } else if is_word(field, "OBJSENSE") {
        Some(Section::ObjSense)
    } else if is_word(field, "ROWS") {
        Some(Section::Rows)
    } else if is_word(field, "COLUMNS") {
        Some(Section::Columns)
    } else if is_word(field, "RHS") {
        Some(Section::RightSides)
    } else if is_word(field, "RANGES") {
        Some(Section::Ranges)
    } else if is_word(field, "BOUNDS") {
        Some(Section::Bounds)
    } else if is_word(field, "ENDATA") {
        Some(Section::End)
    } else {
        None
    }
}

/// The kind of a row that a field names.
pub fn row_kind(field: &[u8]) -> Option<RowKind>
    ensures { result ≡ row_kind field.now }
{
    if is_word(field, "N") {
        Some(RowKind::Free)
    } else if is_word(field, "L") {
        Some(RowKind::AtMost)
    } else if is_word(field, "G") {
        Some(RowKind::AtLeast)
    } else if is_word(field, "E") {
        Some(RowKind::Equal)
    } else {
        None
    }
}

/// The kind of a bound that a field names.
pub fn bound_kind(field: &[u8]) -> Option<BoundKind>
    ensures { result ≡ bound_kind field.now }
{
    if is_word(field, "UP") {
        Some(BoundKind::Up)
    } else if is_word(field, "LO") {
        Some(BoundKind::Lo)
    } else if is_word(field, "FX") {
        Some(BoundKind::Fx)
    } else if is_word(field, "UI") {
        Some(BoundKind::Ui)
    } else if is_word(field, "LI") {
        Some(BoundKind::Li)
    } else if is_word(field, "BV") {
        Some(BoundKind::Bv)
    } else if is_word(field, "FR") {
        Some(BoundKind::Fr)
    } else if is_word(field, "MI") {
        Some(BoundKind::Mi)
    } else if is_word(field, "PL") {
        Some(BoundKind::Pl)
    } else {
        None
    }
}

/// Whether a sense word asks for a maximum; `None` where it is no sense word.
pub fn maximises(word: &[u8]) -> Option<bool>
    ensures { result ≡ maximises word.now }
{
    if is_word(word, "MAX") || is_word(word, "MAXIMIZE") {
        Some(true)
    } else if is_word(word, "MIN") || is_word(word, "MINIMIZE") {
        Some(false)
    } else {
        None
    }
}
