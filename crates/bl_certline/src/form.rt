//! The forms of lines, each with its first word.
ghost use Rattle.std.specs.Prelude.{◌≡◌, find};
ghost use Rattle.std.specs.Str.{bytes_eq};
ghost use Rattle.bl_certline.specs.Forms.{form_of, word_of};

/// The form of a line, which its first word tells.
#[derive(Clone, Copy, Debug, PartialEq, Eq)]
pub(crate) enum Form {
    Version,
    Sense,
    States,
    Point,
    Entries,
    Entry,
    Best,
    NoAnswer,
    Split,
    Proof,
    Cuts,
    Cut,
    Area,
    Tight,
    Inverse,
    Multiples,
    At,
    Response,
    Tree,
    Close,
    End,
}

/// The forms, those first of which a text has most lines.
const FORMS: [Form; 21] = [
    Form::Split,
    Form::Close,
    Form::Proof,
    Form::NoAnswer,
    Form::Best,
    Form::Entry,
    Form::Multiples,
    Form::Cut,
    Form::Area,
    Form::Tight,
    Form::Inverse,
    Form::At,
    Form::Response,
    Form::Version,
    Form::Sense,
    Form::States,
    Form::Point,
    Form::Entries,
    Form::Cuts,
    Form::Tree,
    Form::End,
];

/// Whether a word is this one.
pub(crate) fn is_word(word: &[u8], text: &str) -> bool
    ensures { result ≡ bytes_eq word.now text.now }
{
    word == text.as_bytes()
}

/// The first word of a form's lines.
pub(crate) fn word_of(form: Form) -> &'static str
    ensures { result.now ≡ word_of form }
{
    match form {
        Form::Version => "mibs-certificate",
        Form::Sense => "sense",
        Form::States => "states",
        Form::Point => "point",
        Form::Entries => "entries",
        Form::Entry => "entry",
        Form::Best => "best",
        Form::NoAnswer => "none",
        Form::Split => "split",
        Form::Proof => "proof",
        Form::Cuts => "cuts",
        Form::Cut => "cut",
        Form::Area => "box",
        Form::Tight => "tight",
        Form::Inverse => "inverse",
        Form::Multiples => "unit",
        Form::At => "at",
        Form::Response => "response",
        Form::Tree => "tree",
        Form::Close => "close",
        Form::End => "end",
    }
}

/// The form of the lines that begin with this word.
pub(crate) fn form_of(word: &[u8]) -> Option<Form>
    ensures { result ≡ form_of word.now }
{
    FORMS
        .iter()
        .copied()
        .find(|form| is_word(word, word_of(*form)))
}
