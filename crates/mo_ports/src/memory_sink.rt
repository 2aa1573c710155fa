//! A sink that keeps its bytes in memory, and fails where it is told to.
ghost use Rattle.std.specs.Prelude.{◌≡◌, ◌<◌, ◌≤◌, ◌-◌, ◌++◌, min, length, take, IfOk, OnErr, is_err, Some};
ghost use Rattle.mo_ports.specs.Counts.{raised};
ghost use Rattle.mo_ports.specs.Memory.{unwritten, write_fails};

use crate::shelf::Failed;
use crate::sink::Sink;
use mo_syntax::{List, NoMemory};
use std::alloc::Global;
use std::marker::Model;

/// A sink in memory, with room for `room` bytes. It takes at most `most` bytes in a write, and the writes whose numbers,
/// from 1, stand in `failing` fail, as does a write for which no room is left.
#[derive(Drop)]
pub struct MemorySink {
    bytes: Vec<u8>,
    room: usize,
    most: usize,
    failing: List<u64>,
    calls: u64,
    faults: u64,
}

impl Model for MemorySink {
    ghost use Rattle.std.specs.Prelude.{◌<◌, ◌≤◌, vec_len, vec_capacity};
    ghost use Rattle.mo_ports.specs.Memory.{SinkState};

    ghost Value = { SinkState };

    ghost view = { λ s. record {
      bytes = s.bytes.items;
      room = s.room;
      most = s.most;
      failing = s.failing;
      calls = s.calls;
      faults = s.faults;
    } };

    ghost invariant = { λ s. (0 < s.most) × (vec_len s.bytes ≤ s.room) × (s.room ≤ vec_capacity s.bytes) };
}

impl MemorySink {
    /// A sink to which nothing was written. `NoMemory` is the only other answer.
    pub fn new(
        alloc: Global,
        room: usize,
        most: usize,
        failing: List<u64>,
    ) -> Result<MemorySink, NoMemory>
        requires { 0 < most }
        ensures { IfOk result (λ s. s ≡ unwritten room most failing) }
    {
        let bytes = Vec::with_capacity(alloc, room)?;
        Ok(MemorySink {
            bytes,
            room,
            most,
            failing,
            calls: 0,
            faults: 0,
        })
    }

    /// The bytes written.
    pub fn bytes(&self) -> &[u8]
        ensures { result.now ≡ self.now.bytes }
    {
        self.bytes.as_slice()
    }
}

impl Sink for MemorySink {
    ghost written = { λ s. Some s.bytes };

    ghost faults = { λ s. s.faults };

    fn write(&mut self, piece: &[u8]) -> Result<usize, Failed>
        ensures fails { is_err result ≡ write_fails self.old piece.now }
        ensures count { IfOk result (λ count. count ≡ min (min (length piece.now) self.old.most) (self.old.room - length self.old.bytes)) }
        ensures some { IfOk result (λ count. 0 < length piece.now → 0 < count) }

        ensures writes { IfOk result (λ count. self.new ≡ record self.old { bytes = self.old.bytes ++ take count piece.now; calls = raised self.old.calls 1 }) }
        ensures writes_nothing { OnErr result (self.new ≡ record self.old { calls = raised self.old.calls 1; faults = raised self.old.faults 1 }) }
        ensures faults_later { self.old.faults ≤ self.new.faults }
    {
        self.calls = self.calls.saturating_add(1);
        let count = piece.len().min(self.most).min(self.room - self.bytes.len());
        if self.failing.as_slice().contains(&self.calls) || (count == 0 && !piece.is_empty()) {
            self.faults = self.faults.saturating_add(1);
            return Err(Failed);
        }
        match self.bytes.extend_from_slice(&piece[..count]) {
            Ok(()) => Ok(count),
            Err(_) => unreachable!(),
        }
    }
}
