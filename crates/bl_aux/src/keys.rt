//! The keys of the lines.
ghost use Rattle.std.specs.Prelude.{◌≡◌};
ghost use Rattle.bl_aux.specs.Lines.{key_of, is_unsupported};

/// What a line's number says.
#[derive(Clone, Copy, Debug, PartialEq, Eq)]
pub enum Key {
    /// The count of follower columns.
    N,
    /// The count of follower rows.
    M,
    /// A follower column.
    Lc,
    /// A follower row.
    Lr,
    /// A follower cost.
    Lo,
    /// The follower's sense.
    Os,
}

pub(crate) fn key_of(word: &[u8]) -> Option<Key>
    ensures { result ≡ key_of word.now }
{
    match word {
        b"N" => Some(Key::N),
        b"M" => Some(Key::M),
        b"LC" => Some(Key::Lc),
        b"LR" => Some(Key::Lr),
        b"LO" => Some(Key::Lo),
        b"OS" => Some(Key::Os),
        _ => None,
    }
}

/// Whether a line that begins with this field is of another kind of auxiliary file.
pub(crate) fn is_unsupported(word: &[u8]) -> bool
    ensures { result ≡ is_unsupported word.now }
{
    match word {
        b"IC" | b"IB" | [b'@', ..] => true,
        _ => false,
    }
}
