//! A printed report behind the files: read, verified, and told.
ghost use Rattle.std.specs.Prelude.{◌≡◌, ◌≢◌, ◌≤◌, ◌⊎◌, ◌+◌, Some, Ok as Yes, length, IfOk, IfErr, IfSome, All};
ghost use Rattle.mo_ports.specs.Counts.{Rose};
ghost use Rattle.mo_front.specs.Files.{Reads};
ghost use Rattle.mo_front.specs.Limits.{all_files_limit, file_limit, most_files, printed_limit};
ghost use Rattle.mo_front.specs.steps.Loading.{JudgesTexts, RefusesReadingAll, RefusesReport, TellsBytes};
ghost use Rattle.mo_front.specs.Run.{IsAnswer, IsNamedFault, IsSilent, WritesFront, WritesTold, with_report};
ghost use Rattle.mo_front.specs.Told.{Breaks, TextsGive};
ghost use Rattle.mo_front.specs.Verified.{ReadsReport, TellsVerdict};
ghost use Rattle.mo_syntax.specs.Outcome.{IfBroken};

use crate::answer::of_texts;
use crate::load::{Unread, read_files, refused};
use crate::program::{bytes_of, line_of};
use crate::status::Status;
use crate::verified::judged;
use crate::words::Emit;
use mo_ports::{ReadStop, Shelf, Sink, put_all, read_all};
use mo_syntax::{List, NoMemory, Path, Stop, Text, rules};
use std::alloc::Global;

/// The most bytes that a printed report may have.
const PRINTED_LIMIT: u64 = 67_108_864;

/// Runs the program for a class, files and a printed report.
pub(crate) fn run_verdict<S: Shelf, W: Sink>(
    alloc: Global,
    class: &Path,
    files: &[Text],
    report: &str,
    shelf: &mut S,
    out: &mut W,
) -> Status
    requires few { length files.now ≤ most_files }
    ensures told { IsAnswer result → IfSome (S.told shelf.old) (λ contents. WritesTold (TellsVerdict class.now.0 files.now report.now contents) (W.written out.old) (W.written out.new) result) }
    ensures silent { IsSilent result → W.written out.new ≡ W.written out.old }
    ensures front { result ≡ Status.WriteFault → IfSome (S.told shelf.old) (λ contents. WritesFront (TellsVerdict class.now.0 files.now report.now contents) (W.written out.old) (W.written out.new)) }
    ensures usage { result ≢ Status.Usage }
    ensures read { result ≡ Status.ReadFault → Rose (S.faults shelf.old) (S.faults shelf.new) }
    ensures read_name { result ≡ Status.ReadFault → IsNamedFault (S.failed shelf.new) (with_report files.now (Some report.now)) }
    ensures write { result ≡ Status.WriteFault → Rose (W.faults out.old) (W.faults out.new) }
{
    let (status, text) = match verdict_answer(alloc, class, files, report, shelf) {
        Ok(answer) => answer,
        Err(status) => return status,
    };
    match put_all(out, text.as_slice()) {
        Ok(()) => status,
        Err(_) => Status::WriteFault,
    }
}

/// Reads the files and the report behind them, and finds the status and text that are told, or the status with which nothing is written.
fn verdict_answer<S: Shelf>(
    alloc: Global,
    class: &Path,
    files: &[Text],
    report: &str,
    shelf: &mut S,
) -> Result<(Status, List<u8>), Status>
    requires few { length files.now ≤ most_files }
    ensures told { IfOk result (λ a. IfSome (S.told shelf.old) (λ contents. TellsVerdict class.now.0 files.now report.now contents a.0 a.1)) }
    ensures answers { IfOk result (λ a. IsAnswer a.0) }
    ensures stops { IfErr result (λ status. (status ≡ Status.ReadFault) ⊎ (status ≡ Status.NoMemory)) }
    ensures read { IfErr result (λ status. status ≡ Status.ReadFault → Rose (S.faults shelf.old) (S.faults shelf.new)) }
    ensures read_name { IfErr result (λ status. status ≡ Status.ReadFault → IsNamedFault (S.failed shelf.new) (with_report files.now (Some report.now))) }
{
    match read_both(alloc, files, report, shelf) {
        Ok((texts, bytes)) => {
            match told_of(alloc, class, files, texts.as_slice(), bytes.as_slice()) {
                Ok(answer) => Ok(answer),
                Err(_) => Err(Status::NoMemory),
            }
        }
        Err(Unread::Refused(line)) => Ok((Status::Refused, line)),
        Err(Unread::Fault) => Err(Status::ReadFault),
        Err(Unread::NoMemory) => Err(Status::NoMemory),
    }
}

/// The texts of the named files, and the bytes of the report behind them.
fn read_both<S: Shelf>(
    alloc: Global,
    files: &[Text],
    report: &str,
    shelf: &mut S,
) -> Result<(List<Text>, List<u8>), Unread>
    requires few { length files.now ≤ most_files }
    ensures texts { IfOk result (λ both. IfSome (S.told shelf.old) (λ contents. Reads contents 1 all_files_limit files.now (Yes both.0))) }
    ensures count { IfOk result (λ both. length both.0 ≡ length files.now) }
    ensures short { IfOk result (λ both. All (λ text. length text ≤ file_limit) both.0) }
    ensures bytes { IfOk result (λ both. IfSome (S.told shelf.old) (λ contents. ReadsReport contents report.now both.1)) }
    ensures within { IfOk result (λ both. length both.1 ≤ printed_limit) }
    ensures refused { IfErr result (λ u. IfSome (S.told shelf.old) (λ contents. RefusesReadingAll contents files.now report.now u)) }
    ensures fault { IfErr result (λ u. u ≡ Unread.Fault → Rose (S.faults shelf.old) (S.faults shelf.new)) }
    ensures fault_name { IfErr result (λ u. u ≡ Unread.Fault → IsNamedFault (S.failed shelf.new) (with_report files.now (Some report.now))) }
{
    let texts = match read_files(alloc, files, shelf) {
        Ok(texts) => texts,
        Err(unread) => return Err(unread),
    };
    match read_printed(alloc, report, files.len() as u32 + 1, shelf) {
        Ok(bytes) => Ok((texts, bytes)),
        Err(unread) => Err(unread),
    }
}

/// The bytes of a printed report, which has that number behind the files.
fn read_printed<S: Shelf>(
    alloc: Global,
    name: &str,
    number: u32,
    shelf: &mut S,
) -> Result<List<u8>, Unread>
    ensures bytes { IfOk result (λ bytes. IfSome (S.told shelf.old) (λ contents. ReadsReport contents name.now bytes)) }
    ensures within { IfOk result (λ bytes. length bytes ≤ printed_limit) }
    ensures refused { IfErr result (λ u. IfSome (S.told shelf.old) (λ contents. RefusesReport contents number name.now u)) }
    ensures fault { IfErr result (λ u. u ≡ Unread.Fault → Rose (S.faults shelf.old) (S.faults shelf.new)) }
    ensures fault_name { IfErr result (λ u. u ≡ Unread.Fault → S.failed shelf.new ≡ Some name.now) }
{
    match read_all(alloc, shelf, name, PRINTED_LIMIT) {
        Ok(bytes) => Ok(bytes),
        Err(ReadStop::TooLong) => Err(refused(alloc, name, number, &[], rules::FILE_TOO_LONG, 0)),
        Err(ReadStop::ReadFault) => Err(Unread::Fault),
        Err(ReadStop::NoMemory) => Err(Unread::NoMemory),
    }
}

/// The status and the line that are told of the bytes of a report, by a class and files with these texts.
fn told_of(
    alloc: Global,
    class: &Path,
    files: &[Text],
    texts: &[Text],
    bytes: &[u8],
) -> Result<(Status, List<u8>), NoMemory>
    requires few { length texts.now ≤ most_files }
    requires short { All (λ text. length text ≤ file_limit) texts.now }
    requires printed { length bytes.now ≤ printed_limit }
    ensures tells { IfOk result (λ a. TellsBytes class.now.0 files.now texts.now bytes.now a.0 a.1) }
{
    match verdict_given(alloc, class, texts, bytes) {
        Ok((status, line)) => Ok((status, bytes_of(alloc, &line)?)),
        Err(Stop::Broken(broken)) => Ok((
            Status::Refused,
            List::from_vec(line_of(alloc, files, texts, broken)?),
        )),
        Err(Stop::NoMemory) => Err(NoMemory),
    }
}

/// The line of the verdict by the class in files with these texts and its status, or the first broken rule.
fn verdict_given(
    alloc: Global,
    class: &Path,
    texts: &[Text],
    bytes: &[u8],
) -> Result<(Status, Text), Stop>
    requires few { length texts.now ≤ most_files }
    requires short { All (λ text. length text ≤ file_limit) texts.now }
    requires printed { length bytes.now ≤ printed_limit }
    ensures judged { IfOk result (λ w. JudgesTexts class.now.0 texts.now bytes.now w.0 w.1) }
    ensures refused { IfBroken result (λ b. Breaks (TextsGive class.now.0 texts.now) Emit.Report b) }
{
    match of_texts(alloc, class, texts) {
        Ok(m) => judged(alloc, &m, bytes),
        Err(stop) => Err(stop),
    }
}
