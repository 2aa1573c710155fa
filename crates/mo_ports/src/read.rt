//! Reading the whole of a name.
ghost use Rattle.std.specs.Prelude.{◌≡◌, ◌≤◌, ◌<◌, Some, length, IfOk, OnOk, IfSome, IsErrOf};
ghost use Rattle.mo_ports.specs.Contents.{HoldsMoreThan};
ghost use Rattle.mo_ports.specs.Counts.{Rose, RoseBeyond};

use crate::shelf::Shelf;
use mo_syntax::List;
use std::alloc::Global;
use thiserror::Error;

/// Why the bytes of a name were not read.
#[derive(Clone, Copy, Debug, PartialEq, Eq, Error)]
pub enum ReadStop {
    /// A read failed.
    #[error("a read failed")]
    ReadFault,
    /// The name has more bytes than the limit.
    #[error("there are too many bytes")]
    TooLong,
    /// Memory was refused.
    #[error("out of memory")]
    NoMemory,
}

/// How many bytes are asked for in one read.
const PIECE: usize = 4096;

/// All bytes of the name, which are at most `limit`.
///
/// `ReadFault` comes only where a read of that name failed, and `TooLong` only where more than `limit` bytes were given:
/// where the shelf tells its bytes, exactly there. `NoMemory` comes only where memory was refused.
pub fn read_all<S: Shelf>(
    alloc: Global,
    shelf: &mut S,
    name: &str,
    limit: u64,
) -> Result<List<u8>, ReadStop>
    ensures whole { IfOk result (λ bytes. IfSome (S.told shelf.old) (λ contents. contents name.now ≡ Some bytes)) }
    ensures within { IfOk result (λ bytes. length bytes ≤ limit) }

    ensures fault { IsErrOf result ReadStop.ReadFault → Rose (S.faults shelf.old) (S.faults shelf.new) }
    ensures fault_name { IsErrOf result ReadStop.ReadFault → S.failed shelf.new ≡ Some name.now }

    ensures long { IsErrOf result ReadStop.TooLong → RoseBeyond limit (S.taken shelf.old) (S.taken shelf.new) }
    ensures long_told { IsErrOf result ReadStop.TooLong → HoldsMoreThan limit name.now (S.told shelf.old) }

    ensures same { S.told shelf.new ≡ S.told shelf.old }
    ensures faults_later { S.faults shelf.old ≤ S.faults shelf.new }
    ensures taken_later { S.taken shelf.old ≤ S.taken shelf.new }
    ensures ok { OnOk result (S.failed shelf.new ≡ S.failed shelf.old) }
    ensures long_failed { IsErrOf result ReadStop.TooLong → S.failed shelf.new ≡ S.failed shelf.old }
    ensures memory_failed { IsErrOf result ReadStop.NoMemory → S.failed shelf.new ≡ S.failed shelf.old }
{
    let mut bytes: Vec<u8> = Vec::new(alloc);
    let mut buf = [0u8; PIECE];
    let mut at: u64 = 0;
    loop {
        let count = match shelf.read_at(name, at, &mut buf) {
            Ok(count) => count,
            Err(_) => return Err(ReadStop::ReadFault),
        };
        if count == 0 {
            return Ok(List::from_vec(bytes));
        }
        if count as u64 > limit - at {
            return Err(ReadStop::TooLong);
        }
        if bytes.extend_from_slice(&buf[..count]).is_err() {
            return Err(ReadStop::NoMemory);
        }
        at += count as u64;
    }
}
