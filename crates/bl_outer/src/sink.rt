//! An output, as a trait.

ghost use Rattle.std.specs.Prelude.{OnOk, OnErr};
ghost use Rattle.bl_outer.specs.Count.{HasCause};
ghost use Rattle.bl_outer.specs.Files.{Told};
ghost use Rattle.bl_outer.specs.Sink.{SinkState, Adds, AddsPrefix};

/// A call of a sink failed. What failed isn't told.
#[derive(Clone, Copy, Debug, PartialEq, Eq)]
pub struct SinkFail;

/// An output to which pieces are added.
///
/// The count of faults never falls. At 2^64 - 1 it stands still, and "rose" is read as "stands there".
/// Whether the bytes are told never changes.
pub trait Sink {
    /// What the sink tells of itself.
    ghost state: { Self → SinkState };

    /// Adds the piece at the end. After a failure some first bytes of it were added.
    fn put(&mut self, piece: &[u8]) -> Result<(), SinkFail>
        ensures ok { OnOk result (Told (Adds piece.now) (state self.old).bytes (state self.new).bytes) }
        ensures err { OnErr result (Told (AddsPrefix piece.now)
            (state self.old).bytes (state self.new).bytes) }
        ensures fault { HasCause (state self.old).faults (state self.new).faults result };
}
