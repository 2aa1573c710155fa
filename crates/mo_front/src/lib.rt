//! The program from words and files to bytes: it reads the files, finds the class in their trees, and writes its flat
//! text, its reduced model, the report on its structure, the states that stateSelect prefers or its aliases, or the line that names the first broken
//! rule. Of a printed report behind the files it writes whether it holds. In place of files it makes a ladder, and writes a line with its counts.
//!
//! Begin with `src/program.rt`; the definition to read first is `specs/Told.antt`. What this crate may not know ends its paragraph in
//! docs/ARCHITECTURE.md.
//!
//! - `run`: the program over any shelf and sink.
//! - `files_give_one`, `files_tell_one` and `words_tell_one` are the laws that files give one thing only, and that one text is told of it and of
//!   the words.
//! - `Status`: how it ended, and the number that it ends with.
//! - `read_words`: what the words of the command line ask for, as `Words` and `Emit`, or a `WordsFault`.
#![tactic(auto)]

mod answer;
mod degrees;
mod emit;
mod ladder;
mod laws;
mod load;
mod phases;
mod printed;
mod program;
mod refusal;
mod rungs;
mod states;
mod status;
mod structure;
mod summary;
mod table;
mod verified;
mod words;

pub use laws::{files_give_one, files_tell_one, words_tell_one};
pub use program::run;
pub use status::Status;
pub use words::{Emit, Words, WordsFault, read_words};
