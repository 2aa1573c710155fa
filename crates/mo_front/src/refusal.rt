//! The line that names a broken rule and its place.
ghost use Rattle.std.specs.Prelude.{◌≡◌, ◌++◌, ◌<◌, ◌==◌, [], map, slice_index_or, not, length, reverse, take, take_while, decimal, IfOk};
ghost use Rattle.mo_front.specs.Refusal.{rule_text, line_of, column_of, place_text, refusal_line};

use itoa::Buffer;
use mo_syntax::{Broken, NoMemory, Place, Rule};
use std::alloc::Global;

/// What the line says of each rule, from rule 1 on.
const RULE_TEXTS: [&str; 46] = [
    "file too long",
    "not UTF-8",
    "bad character",
    "text without end",
    "literal too wide",
    "token cannot stand here",
    "end name differs",
    "nesting too deep",
    "name declared twice",
    "within names no class",
    "class not found",
    "name not found",
    "wrong kind of name",
    "name imported twice",
    "not a constant",
    "not a package",
    "protected",
    "base class cycle",
    "inherited elements clash",
    "modified element not found",
    "modified twice",
    "final",
    "each",
    "replaceable",
    "not compatible",
    "partial",
    "instance too deep",
    "no value",
    "reference chain too long",
    "Integer arithmetic",
    "size",
    "subscript",
    "type",
    "outside the profile",
    "branch counts differ",
    "connect under an open condition",
    "not a connector",
    "connectors differ",
    "enumeration",
    "condition not Boolean",
    "flat model too large",
    "incidence too large",
    "derivative of an input",
    "result too large",
    "no inner",
    "inner differs",
];

/// What the line says of a rule.
#[tactic(auto, unfolding(crate::specs::Refusal::rule_texts))]
fn text_of(rule: Rule) -> &'static str
    ensures { result.now ≡ rule_text rule }
{
    text_at(&RULE_TEXTS, rule.number() as usize - 1)
}

/// The text at a place of a table.
fn text_at(texts: &[&'static str], at: usize) -> &'static str
    requires { at < length texts.now }
    ensures { result.now ≡ slice_index_or (map (λ text. text.now) texts.now) at [] }
{
    texts[at]
}

/// The bytes before a byte.
fn before(bytes: &[u8], byte: u32) -> &[u8]
    ensures { result.now ≡ take byte bytes.now }
{
    &bytes[..bytes.len().min(byte as usize)]
}

/// The line of a byte, from 1.
fn line(bytes: &[u8], byte: u32) -> usize
    ensures { result ≡ line_of bytes.now byte }
{
    1 + before(bytes, byte).iter().filter(|b| **b == b'\n').count()
}

/// How many bytes follow the last line feed.
fn after_line_feed(bytes: &[u8]) -> usize
    ensures { result ≡ length (take_while (λ b. not (b == 10)) (reverse bytes.now)) }
{
    bytes.iter().rev().take_while(|b| **b != b'\n').count()
}

/// The column of a byte, from 1.
fn column(bytes: &[u8], byte: u32) -> usize
    ensures { result ≡ column_of bytes.now byte }
{
    1 + after_line_feed(before(bytes, byte))
}

/// Appends a number in decimal.
fn push_number(text: &mut Vec<u8>, number: usize) -> Result<(), NoMemory>
    ensures { IfOk result (λ _. text.new.items ≡ text.old.items ++ decimal number) }
{
    let mut buffer = Buffer::new();
    text.extend_from_slice(buffer.format(number).as_bytes())?;
    Ok(())
}

/// Appends a place.
fn push_place(text: &mut Vec<u8>, file: &str, bytes: &[u8], place: Place) -> Result<(), NoMemory>
    ensures { IfOk result (λ _. text.new.items ≡ text.old.items ++ place_text file.now bytes.now place) }
{
    if place.file == 0 {
        text.extend_from_slice(b"command line")?;
    } else {
        text.extend_from_slice(file.as_bytes())?;
        text.extend_from_slice(b":")?;
        push_number(text, line(bytes, place.byte))?;
        text.extend_from_slice(b":")?;
        push_number(text, column(bytes, place.byte))?;
    }
    Ok(())
}

/// The refusal line of a broken rule, in a file of that name with these bytes. `NoMemory` is the only other answer.
pub(crate) fn refusal_text(
    alloc: Global,
    file: &str,
    bytes: &[u8],
    broken: Broken,
) -> Result<Vec<u8>, NoMemory>
    ensures { IfOk result (λ text. text.items ≡ refusal_line file.now bytes.now broken) }
{
    let mut text = Vec::new(alloc);
    push_place(&mut text, file, bytes, broken.place)?;
    text.extend_from_slice(b": rule ")?;
    push_number(&mut text, broken.rule.number() as usize)?;
    text.extend_from_slice(b": ")?;
    text.extend_from_slice(text_of(broken.rule).as_bytes())?;
    text.extend_from_slice(b"\n")?;
    Ok(text)
}
