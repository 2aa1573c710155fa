//! The cases: each file that the arguments name holds command lines, with the files that they name and with what is to be written.
//! Of each case that differs it is written what came, and of each file how many cases it has.
//!
//! Begin with `main`; the notation is told in docs/CONTRIBUTING.md, Cases. What this crate may not know ends its paragraph in
//! docs/ARCHITECTURE.md.
#![tactic(auto)]

mod answers;
mod case;
mod frames;
mod telling;
mod turns;

use mo_ports::{FileShelf, StdSink, put_all, read_all};
use mo_syntax::{List, NoMemory};
use std::process::ExitCode;
use std::rt::{Env, Files};
use std::{env, io};
use telling::{put, put_cases};

/// The most bytes of a file of cases.
const LONGEST: u64 = 1_048_576;

/// The names of the files of cases.
fn names_of<R: Env + AllocGlobal>(rt: &R) -> io::Result<Vec<String>> {
    Ok(env::args(rt)?.skip(1).collect(rt.alloc())?)
}

/// The bytes of a file, None where they are not read.
fn bytes_of<R: Files + AllocGlobal>(rt: &R, name: &str) -> Option<List<u8>> {
    let mut shelf = FileShelf::new(rt);
    read_all(rt.alloc(), &mut shelf, name, LONGEST).ok()
}

/// Tells of the cases of one file.
fn put_file<R: Files + AllocGlobal>(
    rt: &R,
    told: &mut Vec<u8>,
    name: &str,
) -> Result<(), NoMemory> {
    put(told, name)?;
    put(told, ": ")?;
    match bytes_of(rt, name) {
        Some(bytes) => put_cases(rt.alloc(), told, bytes.as_slice()),
        None => put(told, "not read\n"),
    }
}

/// What is told of the cases of these files.
fn told_of<R: Files + AllocGlobal>(rt: &R, names: &[String]) -> Result<Vec<u8>, NoMemory> {
    let mut told = Vec::new(rt.alloc());
    for name in names {
        put_file(rt, &mut told, name.as_str())?;
    }
    Ok(told)
}

fn main(rt: HostRuntime) -> ExitCode {
    let Ok(names) = names_of(&rt) else {
        return ExitCode::FAILURE;
    };
    let Ok(told) = told_of(&rt, names.as_slice()) else {
        return ExitCode::FAILURE;
    };
    let mut out = StdSink::new(io::writer(&rt));
    match put_all(&mut out, told.as_slice()) {
        Ok(()) => ExitCode::SUCCESS,
        Err(_) => ExitCode::FAILURE,
    }
}
