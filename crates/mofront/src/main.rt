//! The program on the files and the output of the system.
//!
//! Begin with `main`; what is written is the contract of `run` in mo_front. What this crate may not know ends its paragraph in
//! docs/ARCHITECTURE.md.
#![tactic(auto)]

ghost use Rattle.std.specs.Prelude.{◌≡◌};
ghost use Rattle.std.specs.IoError.{error_kind};
ghost use Rattle.mofront.specs.Words.{status_without_words};

use mo_front::{Status, run};
use mo_ports::{FileShelf, StdSink};
use std::process::ExitCode;
use std::rt::Env;
use std::{env, io};

/// The words of the command line, without the program's own name.
fn words_of<R: Env + AllocGlobal>(rt: &R) -> io::Result<Vec<String>> {
    Ok(env::args(rt)?.skip(1).collect(rt.alloc())?)
}

/// The status of a run whose words could not be taken up: one that is not UTF-8 is no word of any form.
fn without_words(error: &io::Error) -> Status
    ensures { result ≡ status_without_words (error_kind error.now) }
{
    match error.kind() {
        io::ErrorKind::InvalidData => Status::Usage,
        _ => Status::NoMemory,
    }
}

fn main(rt: HostRuntime) -> ExitCode {
    let mut shelf = FileShelf::new(&rt);
    let mut out = StdSink::new(io::writer(&rt));
    let status = match words_of(&rt) {
        Ok(words) => run(rt.alloc(), words.as_slice(), &mut shelf, &mut out),
        Err(error) => without_words(&error),
    };
    if status == Status::Usage {
        let _ = eprintln!(rt;
            "usage: mofront --class NAME [--emit flat|reduced|report|all|json|states|alias | --verify REPORT] FILE... | --make N"
        );
    }
    ExitCode::from(status.number())
}
