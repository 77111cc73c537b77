//! Laws over what MPS texts say.
ghost use Rattle.bl_mps.specs.Read.{HasOneReading};

/// Each text either says one model or has a first fault, and never both.
pub fn text_has_one_reading()
    ensures { HasOneReading }
{}
