//! The files outside, as a trait.

ghost use Rattle.std.specs.Prelude.{◌≡◌, ◌<◌, ◌≤◌, length, drop, IfOk, OnOk, OnErr};
ghost use Rattle.bl_outer.specs.Count.{HasCause};
ghost use Rattle.bl_outer.specs.Files.{IfTold, Told, Empties, StaysOrEmpties, Appends, AppendsPrefix};
ghost use Rattle.bl_outer.specs.Shelf.{ShelfState, Nothing, IsReading, IsWriting, chosen_name, mode_found, mode_read};
ghost use Rattle.bl_outer.specs.Shelf.{mode_begun, FindsIn, GivesNext, OnlyReads, OnlyWrites, CountsFault, CountsMiss};

/// A call of a shelf failed. What failed isn't told.
#[derive(Clone, Copy, Debug, PartialEq, Eq)]
pub struct ShelfFail;

/// Whether a file of the name is there.
#[derive(Clone, Copy, Debug, PartialEq, Eq)]
pub enum Found {
    /// The file is there, and is chosen.
    Here,
    /// There is no file of the name.
    Missing,
}

/// A set of files, one of which may be chosen at a time, to be read or to be written.
///
/// Each failure and each miss is counted, so that a caller who answers one can show its cause, and the
/// shelf may tell the name of the file whose reading failed last. The counts never fall, and a call
/// raises none but its own. At 2^64 - 1 a count stands still, and "rose" is read as "stands there".
/// Whether the files are told never changes.
pub trait Shelf {
    /// What the shelf tells of itself.
    ghost state: { Self → ShelfState };

    /// Chooses the file, to be read from its first byte.
    fn find(&mut self, name: &str) -> Result<Found, ShelfFail>
        ensures chosen { (state self.new).mode ≡ mode_found name.now result }
        ensures exact { IfTold (state self.old).contents (FindsIn result name.now) }

        ensures reads { OnlyReads (state self.old) (state self.new) }
        ensures fault { CountsFault name.now (state self.old) (state self.new) result }
        ensures miss { CountsMiss (state self.old) (state self.new) result };

    /// Writes the next bytes of the chosen file to the front of `into`, and answers how many.
    /// 0 is the end of the file.
    fn next(&mut self, into: &mut [u8]) -> Result<usize, ShelfFail>
        requires reading { IsReading (state self.old).mode }
        requires room { 0 < length into.old }

        ensures chosen { (state self.new).mode ≡ mode_read (state self.old).mode result }
        ensures count { IfOk result (λ n. n ≤ length into.old) }
        ensures bytes { IfOk result (λ n. IfTold
            (state self.old).contents (GivesNext (state self.old).mode n into.new)) }
        ensures rest { IfOk result (λ n. drop n into.new ≡ drop n into.old) }
        ensures err { OnErr result (into.new ≡ into.old) }

        ensures reads { OnlyReads (state self.old) (state self.new) }
        ensures fault { CountsFault
            (chosen_name (state self.old).mode) (state self.old) (state self.new) result }
        ensures misses { (state self.new).misses ≡ (state self.old).misses };

    /// Makes the file empty, and chooses it for writing.
    /// A file that was chosen earlier stays as it stands.
    /// After a failure the file is as before, or empty.
    fn begin(&mut self, name: &str) -> Result<(), ShelfFail>
        ensures chosen { (state self.new).mode ≡ mode_begun name.now result }
        ensures ok { OnOk result (Told (Empties name.now)
            (state self.old).contents (state self.new).contents) }
        ensures err { OnErr result (Told (StaysOrEmpties name.now)
            (state self.old).contents (state self.new).contents) }

        ensures writes { OnlyWrites (state self.old) (state self.new) }
        ensures fault { HasCause
            (state self.old).write_faults (state self.new).write_faults result };

    /// Adds the piece at the end of the chosen file, which stays chosen.
    /// After a failure some first bytes of the piece were added.
    fn append(&mut self, piece: &[u8]) -> Result<(), ShelfFail>
        requires writing { IsWriting (state self.old).mode }

        ensures chosen { (state self.new).mode ≡ (state self.old).mode }
        ensures ok { OnOk result (Told (Appends (chosen_name (state self.old).mode) piece.now)
            (state self.old).contents (state self.new).contents) }
        ensures err { OnErr result (Told (AppendsPrefix (chosen_name (state self.old).mode) piece.now)
            (state self.old).contents (state self.new).contents) }

        ensures writes { OnlyWrites (state self.old) (state self.new) }
        ensures fault { HasCause
            (state self.old).write_faults (state self.new).write_faults result };

    /// Ends the writing of the chosen file. After any answer none is chosen.
    fn finish(&mut self) -> Result<(), ShelfFail>
        requires writing { IsWriting (state self.old).mode }

        ensures chosen { (state self.new).mode ≡ Nothing }
        ensures files { (state self.new).contents ≡ (state self.old).contents }

        ensures writes { OnlyWrites (state self.old) (state self.new) }
        ensures fault { HasCause
            (state self.old).write_faults (state self.new).write_faults result };
}
