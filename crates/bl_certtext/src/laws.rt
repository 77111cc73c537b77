//! What fixes the reading of a certificate's text, as laws over its definitions.
ghost use Rattle.bl_certtext.specs.Forms.{BeginsWithForm};
ghost use Rattle.bl_certtext.specs.Laws.{HaveOneReading};

/// A text is a certificate of one list of lines, or first fails to be one at one line, and never both.
pub fn texts_have_one_reading()
    ensures { HaveOneReading }
{}

/// A line that may stand where a part is expected has the form that is expected there.
pub fn lines_begin_with_their_form()
    ensures { BeginsWithForm }
{}
