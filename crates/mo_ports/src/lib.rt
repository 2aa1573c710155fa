//! The outside of the program: what it reads, what it writes, what fails, and the counter of its steps.
//!
//! Begin with `src/shelf.rt`, `src/sink.rt` and `src/read.rt`; the definition to read first is `specs/Contents.antt`. What this crate may
//! not know ends its paragraph in docs/ARCHITECTURE.md.
//!
//! - `Shelf`: bytes by name. `MemoryShelf` and `QuietShelf` hold them, `FileShelf` reads the files of the system.
//!   `read_all` reads the whole of one name.
//! - `Sink`: where bytes go. `MemorySink` and `QuietSink` keep them, `StdSink` hands them to a writer of the system.
//!   `put_all` writes a whole text.
//! - `Steps`: how often `tick` was called on the counter of one ledger.
//!
//! A shelf and a sink mean, where they tell this, the bytes of each name and the bytes written, and they count what
//! fails. So a contract says of each failure that comes from the outside: only where a count rose in this call. A count
//! has 64 bits and stands still at its last value, and each clause on a rise reads: rose, or stands there.
#![tactic(auto)]

mod files;
mod memory_shelf;
mod memory_sink;
mod put;
mod quiet;
mod read;
mod record;
mod shelf;
mod sink;
mod standard;
mod steps;

pub use files::FileShelf;
pub use memory_shelf::MemoryShelf;
pub use memory_sink::MemorySink;
pub use put::{WriteFault, put_all};
pub use quiet::{QuietShelf, QuietSink};
pub use read::{ReadStop, read_all};
pub use shelf::{Failed, Shelf};
pub use sink::Sink;
pub use standard::StdSink;
pub use steps::Steps;

#[cfg(test)]
mod tests;
