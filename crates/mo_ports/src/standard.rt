//! A writer of the system as a sink. What it got is not told.
ghost use Rattle.std.specs.Prelude.{◌≡◌, ◌≤◌, ◌<◌, length, None, IfOk};

use crate::shelf::Failed;
use crate::sink::Sink;
use std::io;
use std::io::Write;

/// A writer of the system, which is flushed after each write. Each error of the system counts as a fault, a refused
/// flush and a write of no byte too.
#[derive(Drop)]
pub struct StdSink<W: Write> {
    writer: W,
    faults: u64,
}

impl<W: Write> StdSink<W> {
    /// A sink to which nothing was written.
    pub fn new(writer: W) -> StdSink<W>
        ensures { ⟦<StdSink<W> as Sink>⟧.faults result ≡ 0 }
    {
        StdSink { writer, faults: 0 }
    }
}

/// Writes once and flushes.
fn write_some<W: Write>(writer: &mut W, piece: &[u8]) -> io::Result<usize>
    ensures { IfOk result (λ count. count ≤ length piece.now) }
{
    let count = writer.write(piece)?;
    writer.flush()?;
    Ok(count)
}

impl<W: Write> Sink for StdSink<W> {
    ghost written = { λ _. None };

    ghost faults = { λ s. s.faults };

    fn write(&mut self, piece: &[u8]) -> Result<usize, Failed> {
        match write_some(&mut self.writer, piece) {
            Ok(count) if count > 0 || piece.is_empty() => Ok(count),
            _ => {
                self.faults = self.faults.saturating_add(1);
                Err(Failed)
            }
        }
    }
}
