//! One case.
use mo_syntax::{List, NoMemory, Text, both, pushed};
use std::alloc::Global;

/// A command line with the files that it names, the status that it ends with, and what is written.
#[derive(Drop)]
pub(crate) struct Case {
    pub words: Vec<String>,
    pub files: List<(Text, List<u8>)>,
    pub status: u8,
    pub wanted: Vec<u8>,
}

/// Writes a text as often as the number before it says, with a blank between them.
fn put_often(out: &mut Vec<u8>, counted: &str) -> Result<(), NoMemory> {
    let (count, text) = counted.split_once(' ').unwrap_or(("", ""));
    for _ in 0..count.parse::<u32>().unwrap_or(0) {
        out.extend_from_slice(text.as_bytes())?;
    }
    Ok(())
}

/// Writes what a line holds behind its tag: a bar for a line with its line feed, a plus for text without one, a star for a text that comes
/// often. Other lines hold nothing.
fn put_line(out: &mut Vec<u8>, line: &str) -> Result<(), NoMemory> {
    if let Some(counted) = line.strip_prefix("* ") {
        put_often(out, counted)?;
    } else if let Some(text) = line.strip_prefix("+ ") {
        out.extend_from_slice(text.as_bytes())?;
    } else if let Some(text) = line.strip_prefix("| ") {
        out.extend_from_slice(text.as_bytes())?;
        out.push(b'\n')?;
    } else if line == "|" {
        out.push(b'\n')?;
    }
    Ok(())
}

/// What these lines hold.
fn held_by(alloc: Global, lines: &str) -> Result<Vec<u8>, NoMemory> {
    let mut held = Vec::new(alloc);
    for line in lines.split('\n') {
        put_line(&mut held, line)?;
    }
    Ok(held)
}

/// The file whose name begins the text; what its lines hold comes behind.
fn file_of(alloc: Global, text: &str) -> Result<(Text, List<u8>), NoMemory> {
    let (name, lines) = text.split_once('\n').unwrap_or((text, ""));
    let (name, held) = both(Text::from_str(alloc, name), held_by(alloc, lines))?;
    Ok((name, List::from_vec(held)))
}

/// The files of a case.
fn files_of(alloc: Global, text: &str) -> Result<List<(Text, List<u8>)>, NoMemory> {
    let mut files = List::new(alloc);
    for part in text.split("\nfile ").skip(1) {
        pushed(&mut files, file_of(alloc, part))?;
    }
    Ok(files)
}

/// The words of a line, between which stands one blank each.
fn words_of(alloc: Global, line: &str) -> Result<Vec<String>, NoMemory> {
    let mut words = Vec::new(alloc);
    for word in line.split(' ') {
        words.push(String::from_str(alloc, word)?)?;
    }
    Ok(words)
}

/// The case whose words begin the text. A status that is no number is 255, with which no run ends.
pub(crate) fn case_of(alloc: Global, text: &str) -> Result<Case, NoMemory> {
    let (given, end) = text.split_once("\nends ").unwrap_or((text, ""));
    let (words, _) = given.split_once('\n').unwrap_or((given, ""));
    let (status, wanted) = end.split_once('\n').unwrap_or((end, ""));
    let given = both(words_of(alloc, words), files_of(alloc, given));
    let ((words, files), wanted) = both(given, held_by(alloc, wanted))?;
    Ok(Case {
        words,
        files,
        status: status.parse().unwrap_or(255),
        wanted,
    })
}
