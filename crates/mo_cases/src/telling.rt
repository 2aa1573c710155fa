//! What is told of cases.
use crate::answers::answer;
use crate::case::{Case, case_of};
use crate::turns::Ran;
use itoa::Buffer;
use mo_syntax::NoMemory;
use std::alloc::Global;

/// Writes the text.
pub(crate) fn put(told: &mut Vec<u8>, text: &str) -> Result<(), NoMemory> {
    Ok(told.extend_from_slice(text.as_bytes())?)
}

/// Writes the number.
pub(crate) fn put_number(told: &mut Vec<u8>, number: usize) -> Result<(), NoMemory> {
    put(told, Buffer::new().format(number))
}

/// Tells the words of a case, which are the first line of its text, and what came of it.
fn put_ran(told: &mut Vec<u8>, text: &str, ran: &Ran) -> Result<(), NoMemory> {
    let (words, _) = text.split_once('\n').unwrap_or((text, ""));
    put(told, "case ")?;
    put(told, words)?;
    put(told, "\nends ")?;
    put_number(told, ran.status.number() as usize)?;
    put(told, "\n")?;
    Ok(told.extend_from_slice(ran.text.as_slice())?)
}

/// Tells of a case where it differs.
fn put_case(alloc: Global, told: &mut Vec<u8>, text: &str) -> Result<(), NoMemory> {
    let Case {
        words,
        files,
        status,
        wanted,
    } = case_of(alloc, text)?;
    let ran = answer(alloc, words.as_slice(), files)?;
    if ran.status.number() != status || ran.text.as_slice() != wanted.as_slice() {
        put_ran(told, text, &ran)?;
    }
    Ok(())
}

/// Tells how many cases a file with these bytes has, and of each that differs.
pub(crate) fn put_cases(alloc: Global, told: &mut Vec<u8>, bytes: &[u8]) -> Result<(), NoMemory> {
    let mut count = 0usize;
    for text in str::from_utf8(bytes).unwrap_or("").split("\ncase ").skip(1) {
        put_case(alloc, told, text)?;
        count = count.saturating_add(1);
    }
    put_number(told, count)?;
    put(told, " cases\n")
}
