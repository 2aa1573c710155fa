//! A shelf that holds its files in memory, and fails where it is told to.
ghost use Rattle.std.specs.Prelude.{◌≡◌, ◌≤◌, ◌-◌, ◌<◌, min, length, take, drop, Some, is_err, IfOk, IfSome, OnErr};
ghost use Rattle.std.specs.Option.{option_copied};
ghost use Rattle.mo_ports.specs.Contents.{bytes_of, ReadsAt};
ghost use Rattle.mo_ports.specs.Counts.{raised};
ghost use Rattle.mo_ports.specs.Memory.{read_fails, unread};

use crate::shelf::{Failed, ReadCounts, Shelf};
use mo_syntax::{List, Text};
use std::marker::Model;

/// A shelf of files in memory. It gives at most `most` bytes in a read, and the reads whose numbers, from 1, stand in
/// `failing` fail. Of two files of one name the first counts. It takes no memory beyond what it is given.
#[derive(Drop)]
pub struct MemoryShelf {
    files: List<(Text, List<u8>)>,
    most: usize,
    failing: List<u64>,
    calls: u64,
    counts: ReadCounts,
}

impl Model for MemoryShelf {
    ghost use Rattle.std.specs.Prelude.{◌<◌};
    ghost use Rattle.mo_ports.specs.Memory.{ShelfState};
    ghost use Rattle.mo_ports.specs.Contents.{newest};

    ghost Value = { ShelfState };

    ghost view = { λ s. record {
      files = s.files;
      most = s.most;
      failing = s.failing;
      calls = s.calls;
      taken = s.counts.taken;
      faults = s.counts.faults;
      failed = newest s.counts.failures.pieces;
    } };

    ghost invariant = { λ s. 0 < s.most };
}

impl MemoryShelf {
    /// A shelf of which nothing was read.
    pub fn new(files: List<(Text, List<u8>)>, most: usize, failing: List<u64>) -> MemoryShelf
        requires { 0 < most }
        ensures { result ≡ unread files most failing }
    {
        MemoryShelf {
            files,
            most,
            failing,
            calls: 0,
            counts: ReadCounts::new(),
        }
    }
}

/// The bytes of the first file of that name.
pub(crate) fn find<'a>(files: &'a [(Text, List<u8>)], name: &str) -> Option<&'a List<u8>>
    ensures { option_copied result ≡ bytes_of files.now name.now }
{
    for (file, bytes) in files {
        if file.as_str() == name {
            return Some(bytes);
        }
    }
    None
}

/// Copies bytes from byte `at` on, as many as there are and as fit and at most `most`, and answers how many.
pub(crate) fn copy_at(bytes: &[u8], at: u64, most: usize, buf: &mut [u8]) -> usize
    ensures count { result ≡ min (min (length bytes.now - at) most) (length buf.old) }
    ensures copied { take result buf.new ≡ take result (drop at bytes.now) }
{
    let start = at.min(bytes.len() as u64) as usize;
    let rest = &bytes[start..];
    let count = rest.len().min(most).min(buf.len());
    buf[..count].copy_from_slice(&rest[..count]);
    count
}

impl Shelf for MemoryShelf {
    ghost told = { λ s. Some (bytes_of s.files) };

    ghost faults = { λ s. s.faults };

    ghost taken = { λ s. s.taken };

    ghost failed = { λ s. s.failed };

    fn read_at(&mut self, name: &str, at: u64, buf: &mut [u8]) -> Result<usize, Failed>
        ensures fails { is_err result ≡ read_fails self.old name.now }
        ensures count { IfOk result (λ count. IfSome (bytes_of self.old.files name.now) (λ bytes. count ≡ min (min (length bytes - at) self.old.most) (length buf.old))) }
        ensures within { IfOk result (λ count. count ≤ length buf.new) }
        ensures bytes { IfOk result (λ count. ReadsAt (bytes_of self.old.files name.now) at buf.new count) }

        ensures counts { IfOk result (λ count. self.new ≡ record self.old { calls = raised self.old.calls 1; taken = raised self.old.taken count }) }
        ensures counts_fault { OnErr result (self.new ≡ record self.old { calls = raised self.old.calls 1; faults = raised self.old.faults 1; failed = Some name.now }) }
        ensures taken_later { self.old.taken ≤ self.new.taken }
        ensures faults_later { self.old.faults ≤ self.new.faults }
    {
        self.calls = self.calls.saturating_add(1);
        if self.failing.as_slice().contains(&self.calls) {
            return Err(self.counts.fail(name));
        }
        match find(self.files.as_slice(), name) {
            None => Err(self.counts.fail(name)),
            Some(bytes) => {
                let count = copy_at(bytes.as_slice(), at, self.most, buf);
                self.counts.take(count);
                Ok(count)
            }
        }
    }
}
