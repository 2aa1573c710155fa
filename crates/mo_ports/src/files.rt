//! The files of the system as a shelf. What a file holds is not told.
ghost use Rattle.std.specs.Prelude.{◌≡◌, ◌≤◌, length, None, IfOk};
ghost use Rattle.mo_ports.specs.Contents.{newest};

use crate::shelf::{Failed, ReadCounts, Shelf};
use std::io::{Read, Seek, SeekFrom};
use std::rt::Files;
use std::{fs, io};

/// The files of the system by their paths. Each error of the system counts as a fault, and so does an absent file.
#[derive(Drop)]
pub struct FileShelf<'a, R: Files> {
    files: &'a R,
    counts: ReadCounts,
}

impl<'a, R: Files> FileShelf<'a, R> {
    /// A shelf of which nothing was read.
    pub fn new(files: &'a R) -> FileShelf<'a, R>
        ensures faults { ⟦<FileShelf<'a, R> as Shelf>⟧.faults result ≡ 0 }
        ensures taken { ⟦<FileShelf<'a, R> as Shelf>⟧.taken result ≡ 0 }
        ensures failed { ⟦<FileShelf<'a, R> as Shelf>⟧.failed result ≡ None }
    {
        FileShelf {
            files,
            counts: ReadCounts::new(),
        }
    }
}

/// Opens the file, goes to byte `at` and reads once.
fn read_file<R: Files>(files: &R, path: &str, at: u64, buf: &mut [u8]) -> io::Result<usize>
    ensures { IfOk result (λ count. count ≤ length buf.new) }
{
    let mut file = fs::open(files, path)?;
    file.seek(SeekFrom::Start(at))?;
    file.read(buf)
}

impl<R: Files> Shelf for FileShelf<'_, R> {
    ghost told = { λ _. None };

    ghost faults = { λ s. s.counts.faults };

    ghost taken = { λ s. s.counts.taken };

    ghost failed = { λ s. newest s.counts.failures.pieces };

    fn read_at(&mut self, name: &str, at: u64, buf: &mut [u8]) -> Result<usize, Failed> {
        match read_file(self.files, name, at, buf) {
            Ok(count) => {
                self.counts.take(count);
                Ok(count)
            }
            Err(_) => Err(self.counts.fail(name)),
        }
    }
}
