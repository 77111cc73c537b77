//! A writer as an output.

ghost use Rattle.std.specs.Prelude.{OnOk};
ghost use Rattle.std.specs.Io.KnownBytes.{Appends};

use crate::count::saturating_increment;
use crate::sink::{Sink, SinkFail};
use std::io;
use std::io::Write;

/// A writer as an output, such as standard output or standard error. What `put` accepted is flushed.
///
/// It doesn't tell the bytes, so that no clause speaks of them.
#[derive(Drop)]
pub struct StdSink<W: Write> {
    writer: W,
    faults: u64,
}

impl<W: Write> StdSink<W> {
    ghost use Rattle.std.specs.Prelude.{◌≡◌, None};

    /// The sink over a writer.
    pub fn new(writer: W) -> StdSink<W>
        ensures { ⟦<StdSink<W> as Sink>⟧.state result ≡ record { bytes = None; faults = 0 } }
    {
        StdSink { writer, faults: 0 }
    }
}

impl<W: Write> Sink for StdSink<W> {
    ghost use Rattle.std.specs.Prelude.{None};

    ghost state = { λ sink. record { bytes = None; faults = sink.faults } };

    fn put(&mut self, piece: &[u8]) -> Result<(), SinkFail> {
        if write_through(&mut self.writer, piece).is_err() {
            self.faults = saturating_increment(self.faults);
            return Err(SinkFail);
        }
        Ok(())
    }
}

/// Writes the whole piece and flushes it.
fn write_through<W: Write>(writer: &mut W, piece: &[u8]) -> io::Result<()>
    ensures { OnOk result (Appends (W.contents writer.old) (W.contents writer.new) piece.now) }
{
    writer.write_all(piece)?;
    writer.flush()
}
