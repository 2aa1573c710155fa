//! Writing a whole text.
ghost use Rattle.std.specs.Prelude.{◌≡◌, ◌≤◌, OnOk, OnErr};
ghost use Rattle.mo_ports.specs.Counts.{Rose};
ghost use Rattle.mo_ports.specs.Written.{appended, AppendsFront};

use crate::sink::Sink;
use thiserror::Error;

/// A write failed.
#[derive(Clone, Copy, Debug, PartialEq, Eq, Error)]
#[error("a write failed")]
pub struct WriteFault;

/// Appends all bytes. It takes no memory. `WriteFault` comes only where a write failed, and then some of the first bytes
/// were appended and the others were not.
pub fn put_all<W: Sink>(out: &mut W, bytes: &[u8]) -> Result<(), WriteFault>
    ensures ok { OnOk result (W.written out.new ≡ appended (W.written out.old) bytes.now) }
    ensures fault { OnErr result (Rose (W.faults out.old) (W.faults out.new)) }
    ensures fault_front { OnErr result (AppendsFront (W.written out.old) (W.written out.new) bytes.now) }
    ensures faults_later { W.faults out.old ≤ W.faults out.new }
{
    let mut done = 0;
    while done < bytes.len() {
        match out.write(&bytes[done..]) {
            Ok(count) => done += count,
            Err(_) => return Err(WriteFault),
        }
    }
    Ok(())
}
