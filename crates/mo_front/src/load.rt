//! Reading the named files.
ghost use Rattle.std.specs.Prelude.{◌≡◌, ◌≤◌, ◌<◌, ◌^◌, [], Some, Ok as Yes, length, min, IfOk, IfErr, IfSome, OnOk, All};
ghost use Rattle.mo_ports.specs.Counts.{Rose};
ghost use Rattle.mo_front.specs.Files.{Reads, IsText, breaks_at};
ghost use Rattle.mo_front.specs.Limits.{file_limit, all_files_limit, most_files};
ghost use Rattle.mo_front.specs.steps.Loading.{IsLine, IsTextOf, RefusesBytes, RefusesFile, RefusesReading};
ghost use Rattle.mo_front.specs.Run.{IsNamedFault};

use crate::refusal::refusal_text;
use mo_ports::{ReadStop, Shelf, read_all};
use mo_syntax::{List, NoMemory, Place, Text, broken, rules};
use std::alloc::Global;

/// The most bytes that a file may have.
const FILE_LIMIT: u64 = 4_194_304;

/// The most bytes that all files may have.
const ALL_FILES_LIMIT: u64 = 16_777_216;

/// Why the files were not read.
#[derive(Drop)]
pub(crate) enum Unread {
    /// A read failed.
    Fault,
    NoMemory,
    /// A rule is broken, which this line names.
    Refused(List<u8>),
}

impl From<NoMemory> for Unread {
    ghost use Rattle.mo_front.specs.declared.load.Unread.TheVariants.{NoMemory as no_memory};
    ghost use Rattle.std.specs.Prelude.{◌≡◌};

    ghost from_gives = { λ _ u. u ≡ no_memory };

    fn from(_refused: NoMemory) -> Unread {
        Unread::NoMemory
    }
}

/// The texts of the named files, of which there are at most 64.
pub(crate) fn read_files<S: Shelf>(
    alloc: Global,
    names: &[Text],
    shelf: &mut S,
) -> Result<List<Text>, Unread>
    requires few { length names.now ≤ most_files }
    ensures texts { IfOk result (λ texts. IfSome (S.told shelf.old) (λ contents. Reads contents 1 all_files_limit names.now (Yes texts))) }
    ensures count { IfOk result (λ texts. length texts ≡ length names.now) }
    ensures short { IfOk result (All (λ text. length text ≤ file_limit)) }
    ensures refused { IfErr result (λ u. IfSome (S.told shelf.old) (λ contents. RefusesReading contents names.now u)) }
    ensures fault { IfErr result (λ u. u ≡ Unread.Fault → Rose (S.faults shelf.old) (S.faults shelf.new)) }
    ensures fault_name { IfErr result (λ u. u ≡ Unread.Fault → IsNamedFault (S.failed shelf.new) names.now) }
    ensures same { OnOk result (S.told shelf.new ≡ S.told shelf.old) }
    ensures faults_later { OnOk result (S.faults shelf.old ≤ S.faults shelf.new) }
{
    let mut texts = List::new(alloc);
    let mut left = ALL_FILES_LIMIT;
    let mut number = 1u32;
    for name in names {
        let text = match read_file(alloc, name.as_str(), number, left, shelf) {
            Ok(text) => text,
            Err(unread) => return Err(unread),
        };
        left -= text.as_str().len() as u64;
        texts.push(text)?;
        number += 1;
    }
    Ok(texts)
}

/// The text of a file with that number, where so many bytes are left of the limit of all files.
fn read_file<S: Shelf>(
    alloc: Global,
    name: &str,
    number: u32,
    left: u64,
    shelf: &mut S,
) -> Result<Text, Unread>
    ensures text { IfOk result (λ text. IfSome (S.told shelf.old) (λ contents. IsText contents left name.now text)) }
    ensures within { IfOk result (λ text. length text ≤ min file_limit left) }
    ensures refused { IfErr result (λ u. IfSome (S.told shelf.old) (λ contents. RefusesFile contents number left name.now u)) }
    ensures fault { IfErr result (λ u. u ≡ Unread.Fault → Rose (S.faults shelf.old) (S.faults shelf.new)) }
    ensures fault_name { IfErr result (λ u. u ≡ Unread.Fault → S.failed shelf.new ≡ Some name.now) }
    ensures same { S.told shelf.new ≡ S.told shelf.old }
    ensures faults_later { S.faults shelf.old ≤ S.faults shelf.new }
{
    match read_all(alloc, shelf, name, FILE_LIMIT.min(left)) {
        Ok(bytes) => text_of(alloc, name, number, bytes.as_slice()),
        Err(ReadStop::TooLong) => Err(refused(alloc, name, number, &[], rules::FILE_TOO_LONG, 0)),
        Err(ReadStop::ReadFault) => Err(Unread::Fault),
        Err(ReadStop::NoMemory) => Err(Unread::NoMemory),
    }
}

/// The text that the bytes of a file are.
fn text_of(alloc: Global, name: &str, number: u32, bytes: &[u8]) -> Result<Text, Unread>
    requires { length bytes.now < 2 ^ 32 }
    ensures text { IfOk result (IsTextOf bytes.now) }
    ensures refused { IfErr result (RefusesBytes number name.now bytes.now) }
{
    match str::from_utf8(bytes) {
        Ok(text) => Ok(Text::from_str(alloc, text)?),
        Err(error) => {
            let byte = error.valid_up_to() as u32;
            Err(refused(alloc, name, number, bytes, rules::NOT_UTF_8, byte))
        }
    }
}

/// The refusal with the line of a rule that is broken at a byte of a file.
pub(crate) fn refused(
    alloc: Global,
    name: &str,
    file: u32,
    bytes: &[u8],
    rule: u8,
    byte: u32,
) -> Unread
    requires low { 1 ≤ rule }
    requires high { rule ≤ 46 }
    ensures { IsLine (breaks_at rule file byte) name.now bytes.now result }
{
    let broken = broken(rule, Place { file, byte });
    match refusal_text(alloc, name, bytes, broken) {
        Ok(line) => Unread::Refused(List::from_vec(line)),
        Err(_) => Unread::NoMemory,
    }
}
