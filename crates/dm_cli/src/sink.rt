ghost use Rattle.std.specs.Prelude.{◌≡◌, ◌≤◌, None, OnOk, OnErr};
ghost use Rattle.std.specs.Io.KnownBytes.{Appends};
ghost use Rattle.dm_base.specs.Outside.{raised};

use dm_base::{Sink, SinkError};
use std::io;
use std::io::Write;

/// An output that bytes are written to, as the standard output. What it took is not told.
#[derive(Drop)]
pub struct FileSink<W: Write + Drop> {
    output: W,
    faults: u64,
}

impl<W: Write + Drop> FileSink<W> {
    pub fn new(output: W) -> FileSink<W>
        ensures { result ≡ record { output = output; faults = 0 } }
    {
        FileSink { output, faults: 0 }
    }
}

impl<W: Write + Drop> Sink for FileSink<W> {
    ghost taken = { λ _. None };

    ghost faults = { λ sink. sink.faults };

    /// Where what the writer holds is told, a put adds all of the bytes there, or fails.
    fn put(&mut self, bytes: &[u8]) -> Result<(), SinkError>
        ensures written { OnOk result (Appends (W.contents self.old.output) (W.contents self.new.output) bytes.now) }
        ensures faults { self.old.faults ≤ self.new.faults }
        ensures failed { OnErr result (self.new.faults ≡ raised self.old.faults) }
        ensures none_failed { OnOk result (self.new.faults ≡ self.old.faults) }
    {
        match write_piece(&mut self.output, bytes) {
            Ok(()) => Ok(()),
            Err(_) => {
                self.faults = self.faults.saturating_add(1);
                Err(SinkError::Failed)
            }
        }
    }
}

/// Writes all of the piece, and sends it on.
pub fn write_piece<W: Write>(output: &mut W, piece: &[u8]) -> io::Result<()>
    ensures { OnOk result (Appends (W.contents output.old) (W.contents output.new) piece.now) }
{
    output.write_all(piece)?;
    output.flush()
}
