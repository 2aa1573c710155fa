//! Runs of which each read or each write fails in turn, and files that are cut short at each byte.
ghost use Rattle.std.specs.Prelude.{◌<◌};

use crate::telling::{put, put_number};
use mo_front::{Status, run};
use mo_ports::{MemoryShelf, MemorySink};
use mo_syntax::{List, NoMemory, Text, both, pushed};
use std::alloc::Global;

/// The most bytes that a run writes.
pub(crate) const ROOM: usize = 1_048_576;

/// The most bytes of a read or a write where they fail in turn.
const PIECE: usize = 16;

/// The most reads or writes that fail in turn.
const MOST_TURNS: usize = 1_000;

/// How a run ended, and what it wrote.
#[derive(Drop)]
pub(crate) struct Ran {
    pub status: Status,
    pub text: Vec<u8>,
}

/// The most bytes of a read or a write, at least one, and the numbers, from 1, of the reads and writes that fail.
#[derive(Drop)]
pub(crate) struct Transfer {
    pub most: usize,
    pub reads: List<u64>,
    pub writes: List<u64>,
}

/// The run with these words over these files.
pub(crate) fn run_over(
    alloc: Global,
    words: &[String],
    files: List<(Text, List<u8>)>,
    transfer: Transfer,
) -> Result<Ran, NoMemory>
    requires { 0 < transfer.most }
{
    let Transfer {
        most,
        reads,
        writes,
    } = transfer;
    let mut sink = MemorySink::new(alloc, ROOM, most, writes)?;
    let mut shelf = MemoryShelf::new(files, most, reads);
    let status = run(alloc, words, &mut shelf, &mut sink);
    Ok(Ran {
        status,
        text: Vec::from_slice(alloc, sink.bytes())?,
    })
}

/// A list of these bytes.
fn listed(alloc: Global, bytes: &[u8]) -> Result<List<u8>, NoMemory> {
    Ok(List::from_vec(Vec::from_slice(alloc, bytes)?))
}

/// A file of that name with these bytes.
fn file_of(alloc: Global, name: &Text, bytes: &[u8]) -> Result<(Text, List<u8>), NoMemory> {
    both(Text::from_str(alloc, name.as_str()), listed(alloc, bytes))
}

/// The same files.
fn copied(alloc: Global, files: &[(Text, List<u8>)]) -> Result<List<(Text, List<u8>)>, NoMemory> {
    let mut copies = List::new(alloc);
    for (name, bytes) in files {
        pushed(&mut copies, file_of(alloc, name, bytes.as_slice()))?;
    }
    Ok(copies)
}

/// A list of one number.
fn one(alloc: Global, number: usize) -> Result<List<u64>, NoMemory> {
    Ok(List::from_vec(Vec::from_slice(alloc, &[number as u64])?))
}

/// The run with these words over a copy of these files, of which the read and the write of these numbers fail, none for 0.
fn run_failing(
    alloc: Global,
    words: &[String],
    files: &[(Text, List<u8>)],
    read: usize,
    write: usize,
) -> Result<Ran, NoMemory> {
    let faults = both(one(alloc, read), one(alloc, write));
    let (files, (reads, writes)) = both(copied(alloc, files), faults)?;
    let transfer = Transfer {
        most: PIECE,
        reads,
        writes,
    };
    run_over(alloc, words, files, transfer)
}

/// What a run wrote, behind a line with that number.
fn counted(alloc: Global, count: usize, ran: &Ran) -> Result<Ran, NoMemory> {
    let mut text = Vec::new(alloc);
    put_number(&mut text, count)?;
    put(&mut text, "\n")?;
    text.extend_from_slice(ran.text.as_slice())?;
    Ok(Ran {
        status: ran.status,
        text,
    })
}

/// The run where no read fails any more, behind how many reads fail in turn, each so that nothing is written.
fn reads_failing(
    alloc: Global,
    words: &[String],
    files: &[(Text, List<u8>)],
) -> Result<Ran, NoMemory> {
    for before in 0..MOST_TURNS {
        let ran = run_failing(alloc, words, files, before + 1, 0)?;
        if ran.status != Status::ReadFault || !ran.text.is_empty() {
            return counted(alloc, before, &ran);
        }
    }
    Err(NoMemory)
}

/// Whether a run ended as the write behind so many failed: the first bytes of the text are written, and no others.
fn is_cut(whole: &Ran, ran: &Ran, writes: usize) -> bool {
    ran.status == Status::WriteFault
        && ran.text.len() == writes.saturating_mul(PIECE)
        && whole.text.starts_with(ran.text.as_slice())
}

/// The run where no write fails any more, behind how many writes fail in turn, each so that the writes before it are done.
fn writes_failing(
    alloc: Global,
    words: &[String],
    files: &[(Text, List<u8>)],
) -> Result<Ran, NoMemory> {
    let whole = run_failing(alloc, words, files, 0, 0)?;
    for before in 0..MOST_TURNS {
        let ran = run_failing(alloc, words, files, 0, before + 1)?;
        if !is_cut(&whole, &ran, before) {
            return counted(alloc, before, &ran);
        }
    }
    Err(NoMemory)
}

/// Whether the run with these words over a file of these bytes is refused.
fn is_refused(
    alloc: Global,
    words: &[String],
    name: &Text,
    bytes: &[u8],
) -> Result<bool, NoMemory> {
    let mut files = List::new(alloc);
    pushed(&mut files, file_of(alloc, name, bytes))?;
    let ran = run_failing(alloc, words, files.as_slice(), 0, 0)?;
    Ok(ran.status == Status::Refused)
}

/// At how many bytes the first file may be cut short so that the run is refused.
fn cuts_refused(
    alloc: Global,
    words: &[String],
    name: &Text,
    bytes: &[u8],
) -> Result<Ran, NoMemory> {
    let mut count = 0usize;
    for behind in 0..bytes.len() {
        if is_refused(alloc, words, name, &bytes[..behind])? {
            count = count.saturating_add(1);
        }
    }
    let nothing = Ran {
        status: Status::Done,
        text: Vec::new(alloc),
    };
    counted(alloc, count, &nothing)
}

/// Whether the word asks for runs in turn.
pub(crate) fn is_turned(word: &str) -> bool {
    matches!(word, "reads" | "writes" | "cuts")
}

/// What comes of the runs with these words in turn, by what the word before them asks: each read fails, or each write, or the first file is cut
/// short at each byte.
pub(crate) fn turned(
    alloc: Global,
    word: &str,
    words: &[String],
    files: &[(Text, List<u8>)],
) -> Result<Ran, NoMemory> {
    match (word, files.get(0)) {
        ("reads", _) => reads_failing(alloc, words, files),
        ("writes", _) => writes_failing(alloc, words, files),
        (_, Some((name, bytes))) => cuts_refused(alloc, words, name, bytes.as_slice()),
        _ => Err(NoMemory),
    }
}
