use super::*;
use mo_syntax::{List, NoMemory, Text, both, pushed};
use std::alloc::Global;
use std::io;
use std::process::Abort;

/// The files that shelves hold: of two files of one name the first counts.
const HELD: [(&str, &str); 3] = [("a.mo", "model"), ("b.mo", ""), ("a.mo", "second")];

fn file(alloc: Global, name: &str, text: &str) -> Result<(Text, List<u8>), NoMemory> {
    let bytes = Vec::from_slice(alloc, text.as_bytes())?;
    both(Text::from_str(alloc, name), Ok(List::from_vec(bytes)))
}

fn held(alloc: Global) -> Result<List<(Text, List<u8>)>, NoMemory> {
    let mut files = List::new(alloc);
    for (name, text) in HELD {
        pushed(&mut files, file(alloc, name, text))?;
    }
    Ok(files)
}

fn numbers(alloc: Global, numbers: &[u64]) -> Result<List<u64>, NoMemory> {
    Ok(List::from_vec(Vec::from_slice(alloc, numbers)?))
}

/// A shelf that gives one byte more than that in a read.
fn shelf(alloc: Global, more: u32, failing: &[u64]) -> Result<MemoryShelf, NoMemory> {
    let (files, failing) = both(held(alloc), numbers(alloc, failing))?;
    Ok(MemoryShelf::new(files, more as usize + 1, failing))
}

/// A name, the limit, how many bytes a read gives beyond one, the reads that fail; what is read.
type Read = (
    &'static str,
    u64,
    u32,
    &'static [u64],
    Result<&'static str, ReadStop>,
);

const READS: [Read; 7] = [
    ("a.mo", 5, 1, &[], Ok("model")),
    ("a.mo", 4, 1, &[], Err(ReadStop::TooLong)),
    ("a.mo", 5, 1, &[3], Err(ReadStop::ReadFault)),
    ("a.mo", 5, 4999, &[2], Err(ReadStop::ReadFault)),
    ("a.mo", 5, 4999, &[3], Ok("model")),
    ("b.mo", 0, 0, &[], Ok("")),
    ("c.mo", 9, 0, &[], Err(ReadStop::ReadFault)),
];

fn is_wanted(rt: &impl Abort, read: &Result<List<u8>, ReadStop>, wanted: Result<&str, ReadStop>) {
    match (read, wanted) {
        (Ok(bytes), Ok(text)) => assert_eq!(rt; bytes.as_slice(), text.as_bytes()),
        (Err(stop), Err(other)) => assert_eq!(rt; *stop, other),
        _ => panic!(rt; "another answer"),
    }
}

fn is_read(rt: &impl Abort, alloc: Global, row: &Read) -> Result<(), NoMemory> {
    let mut shelf = shelf(alloc, row.2, row.3)?;
    let read = read_all(alloc, &mut shelf, row.0, row.1);
    is_wanted(rt, &read, row.4);
    Ok(())
}

#[test]
fn reads_whole_names(rt: HostRuntime) -> Result<(), NoMemory> {
    for row in &READS {
        is_read(&rt, rt.alloc(), row)?;
    }
    Ok(())
}

#[test]
fn reads_quietly(rt: HostRuntime) -> Result<(), NoMemory> {
    let mut quiet = QuietShelf::new(held(rt.alloc())?);
    let read = read_all(rt.alloc(), &mut quiet, "a.mo", 5);
    is_wanted(&rt, &read, Ok("model"));
    Ok(())
}

/// The room, how many bytes a write takes beyond one, the writes that fail; whether the text is written whole, and what is.
type Write = (usize, u32, &'static [u64], bool, &'static str);

const WRITES: [Write; 5] = [
    (16, 15, &[], true, "end of the model"),
    (20, 0, &[17], true, "end of the model"),
    (16, 5, &[2], false, "end of"),
    (16, 5, &[1], false, ""),
    (15, 8, &[], false, "end of the mode"),
];

fn sink(alloc: Global, room: usize, more: u32, failing: &[u64]) -> Result<MemorySink, NoMemory> {
    let failing = numbers(alloc, failing)?;
    MemorySink::new(alloc, room, more as usize + 1, failing)
}

fn is_written(rt: &impl Abort, alloc: Global, row: &Write) -> Result<(), NoMemory> {
    let mut sink = sink(alloc, row.0, row.1, row.2)?;
    assert_eq!(rt; put_all(&mut sink, b"end of the model").is_ok(), row.3);
    assert_eq!(rt; sink.bytes(), row.4.as_bytes());
    Ok(())
}

#[test]
fn writes_whole_texts(rt: HostRuntime) -> Result<(), NoMemory> {
    for row in &WRITES {
        is_written(&rt, rt.alloc(), row)?;
    }
    Ok(())
}

#[test]
fn writes_quietly(rt: HostRuntime) {
    assert!(rt; put_all(&mut QuietSink::new(), b"model").is_ok());
}

// A writer that takes one byte a write, and none after `left` of them; it flushes only if it is told to.
#[derive(Drop)]
struct Narrow {
    left: usize,
    flushes: bool,
}

impl io::Write for Narrow {
    fn write(&mut self, piece: &[u8]) -> io::Result<usize> {
        if self.left == 0 || piece.is_empty() {
            return Ok(0);
        }
        self.left -= 1;
        Ok(1)
    }

    fn flush(&mut self) -> io::Result<()> {
        if self.flushes {
            Ok(())
        } else {
            Err(io::Error::from(io::ErrorKind::BrokenPipe))
        }
    }
}

#[test]
fn writes_to_a_writer(rt: HostRuntime) {
    for (left, flushes, whole) in [(5, true, true), (4, true, false), (5, false, false)] {
        let mut sink = StdSink::new(Narrow { left, flushes });
        assert_eq!(rt; put_all(&mut sink, b"model").is_ok(), whole);
    }
    let mut steps = Steps::new(());
    steps.tick();
}
