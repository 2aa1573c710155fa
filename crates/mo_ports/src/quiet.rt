//! A shelf and a sink that never fail.
ghost use Rattle.std.specs.Prelude.{◌≡◌, [], Some, None};
ghost use Rattle.mo_ports.specs.Contents.{bytes_or_none, joined};

use crate::memory_shelf::{copy_at, find};
use crate::record::Record;
use crate::shelf::{Failed, Shelf};
use crate::sink::Sink;
use mo_syntax::{List, Text};

/// A shelf on which no read fails. A name that it was not given has no bytes. Of two files of one name the first counts.
#[derive(Drop)]
pub struct QuietShelf {
    files: List<(Text, List<u8>)>,
    taken: u64,
}

impl QuietShelf {
    /// A shelf of which nothing was read.
    pub fn new(files: List<(Text, List<u8>)>) -> QuietShelf
        ensures told { ⟦<QuietShelf as Shelf>⟧.told result ≡ Some (λ name. Some (bytes_or_none files name)) }
        ensures taken { ⟦<QuietShelf as Shelf>⟧.taken result ≡ 0 }
    {
        QuietShelf { files, taken: 0 }
    }
}

/// The bytes of the first file of that name, or none.
fn find_or_none<'a>(files: &'a [(Text, List<u8>)], name: &str) -> &'a [u8]
    ensures { result.now ≡ bytes_or_none files.now name.now }
{
    match find(files, name) {
        None => &[],
        Some(bytes) => bytes.as_slice(),
    }
}

impl Shelf for QuietShelf {
    ghost told = { λ s. Some (λ name. Some (bytes_or_none s.files name)) };

    ghost faults = { λ _. 0 };

    ghost taken = { λ s. s.taken };

    ghost failed = { λ _. None };

    fn read_at(&mut self, name: &str, at: u64, buf: &mut [u8]) -> Result<usize, Failed> {
        let bytes = find_or_none(self.files.as_slice(), name);
        let count = copy_at(bytes, at, usize::MAX, buf);
        self.taken = self.taken.saturating_add(count as u64);
        Ok(count)
    }
}

/// A sink on which no write fails. It keeps its bytes for contracts alone, so it takes no memory.
#[derive(Drop)]
pub struct QuietSink {
    pieces: Record,
}

impl QuietSink {
    /// A sink to which nothing was written.
    pub fn new() -> QuietSink
        ensures { ⟦<QuietSink as Sink>⟧.written result ≡ Some [] }
    {
        QuietSink {
            pieces: Record::new(),
        }
    }
}

impl Sink for QuietSink {
    ghost written = { λ s. Some (joined s.pieces.pieces) };

    ghost faults = { λ _. 0 };

    fn write(&mut self, piece: &[u8]) -> Result<usize, Failed> {
        self.pieces.note(piece);
        Ok(piece.len())
    }
}
