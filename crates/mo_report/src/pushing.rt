//! Words, numbers and names at the end of a text.
ghost use Rattle.std.specs.Prelude.{◌≡◌, ◌++◌, slice_index, string_bytes, OnOk};
ghost use Rattle.mo_report.specs.Lines.{unknown_name, numbered, named};

use itoa::Buffer;
use mo_syntax::{NoMemory, Text};

#[tactic(auto, unfolding(crate::specs::Lines::numbered))]
/// Puts a word and behind it a number at the end. `NoMemory` is the only other answer.
pub fn push_numbered(out: &mut String, word: &str, number: usize) -> Result<(), NoMemory>
    ensures { OnOk result (string_bytes out.new ≡ string_bytes out.old ++ numbered word.now number) }
{
    let mut buffer = Buffer::new();
    out.push_str(word)?;
    out.push_str(buffer.format(number))?;
    Ok(())
}

#[tactic(auto, unfolding(crate::specs::Lines::named))]
/// Puts a word and behind it a text at the end.
pub(crate) fn push_named(out: &mut String, word: &str, text: &str) -> Result<(), NoMemory>
    ensures { OnOk result (string_bytes out.new ≡ string_bytes out.old ++ named word.now text.now) }
{
    out.push_str(word)?;
    out.push_str(text)?;
    Ok(())
}

/// The number at a place, and 0 past the last.
pub fn number_at(numbers: &[u32], at: usize) -> usize
    ensures { result ≡ slice_index numbers.now at }
{
    match numbers.get(at) {
        Some(number) => *number as usize,
        None => 0,
    }
}

/// The name of an unknown by its number, from 1, and nothing where there is none.
pub(crate) fn name_of(names: &[Text], unknown: usize) -> &str
    ensures { result.now ≡ unknown_name names.now unknown }
{
    if unknown == 0 {
        return "";
    }
    match names.get(unknown - 1) {
        None => "",
        Some(name) => name.as_str(),
    }
}
