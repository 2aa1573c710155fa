//! The program over any shelf and sink.
ghost use Rattle.std.specs.Prelude.{◌≡◌, ◌≢◌, ◌≤◌, ◌⊎◌, length, IfOk, IfErr, IfSome, All};
ghost use Rattle.mo_ports.specs.Counts.{Rose};
ghost use Rattle.mo_front.specs.Ladder.{TellsLadder};
ghost use Rattle.mo_front.specs.Limits.{most_files, file_limit};
ghost use Rattle.mo_front.specs.steps.Loading.{TellsTexts};
ghost use Rattle.mo_front.specs.Run.{IsAnswer, IsNamedFault, IsSilent, NamesFault, NamesReport, TellsFiles, WritesTold, WritesFront, with_report, words_of, Answers, BeginsAnswer, Kept, IsAnswered, NamesNothing, WhereAsked, WhereLadder, WritesFrontOf, WritesOf};
ghost use Rattle.mo_front.specs.Told.{Breaks, Tells, TextsGive, WritesGiven, line_of_broken};
ghost use Rattle.mo_syntax.specs.Outcome.{IfBroken};

use crate::answer::of_texts;
use crate::emit::written_of;
use crate::ladder::ladder_answer;
use crate::load::{Unread, read_files};
use crate::printed::run_verdict;
use crate::refusal::refusal_text;
use crate::status::Status;
use crate::words::{Emit, Words, WordsFault, read_words};
use mo_ports::{Shelf, Sink, put_all};
use mo_syntax::{Broken, List, NoMemory, Path, Stop, Text};
use std::alloc::Global;

/// Runs the program with its words: the name of a class, what is to be written of it, and from 1 to 64 names of files; the number of rungs of
/// a ladder; or the name of a class, of a printed report, and of files. It writes that text of the class in these files, the line with the
/// counts of the ladder, or that with the verdict on the report; or the line that names the first broken rule.
///
/// All memory is taken before the first write.
pub fn run<S: Shelf, W: Sink>(alloc: Global, words: &[String], shelf: &mut S, out: &mut W) -> Status
    // What is written: exactly a text that is told of what the shelf holds, nothing, or the front of such a text.
    ensures told { Answers words.now (S.told shelf.old) (W.written out.old) (W.written out.new) result }
    ensures silent { IsSilent result → W.written out.new ≡ W.written out.old }
    ensures front { BeginsAnswer words.now (S.told shelf.old) (W.written out.old) (W.written out.new) result }

    // Where each answer comes from. Want of memory is the one free answer.
    ensures usage { result ≡ Status.Usage → NamesNothing (words_of words.now) }
    ensures only_usage { NamesNothing (words_of words.now) → (result ≡ Status.Usage) ⊎ (result ≡ Status.NoMemory) }
    ensures flat { WhereAsked Emit.Flat (words_of words.now) (result ≢ Status.Singular) }
    ensures alias { WhereAsked Emit.Alias (words_of words.now) (result ≢ Status.Singular) }
    ensures differs { result ≡ Status.Differs → NamesReport (words_of words.now) }
    ensures ladder { WhereLadder (words_of words.now) ((result ≢ Status.Singular) × (result ≢ Status.ReadFault)) }
    ensures read { result ≡ Status.ReadFault → Rose (S.faults shelf.old) (S.faults shelf.new) }
    ensures read_name { result ≡ Status.ReadFault → NamesFault (words_of words.now) (S.failed shelf.new) }
    ensures write { result ≡ Status.WriteFault → Rose (W.faults out.old) (W.faults out.new) }
    ensures complete { Kept S.faults shelf.old shelf.new → Kept W.faults out.old out.new → IsAnswered words.now result }
{
    match read_words(alloc, words) {
        Ok(
            Words::Job {
                class,
                emit,
                files,
                verify,
            },
        ) => run_files(alloc, &class, emit, files.as_slice(), &verify, shelf, out),
        Ok(Words::Make(n)) => run_ladder(alloc, n, out),
        Err(WordsFault::Usage) => Status::Usage,
        Err(WordsFault::NoMemory) => Status::NoMemory,
    }
}

/// Runs the program for a class and files, with a printed report or without one.
fn run_files<S: Shelf, W: Sink>(
    alloc: Global,
    class: &Path,
    emit: Emit,
    files: &[Text],
    verify: &Option<Text>,
    shelf: &mut S,
    out: &mut W,
) -> Status
    requires few { length files.now ≤ most_files }
    ensures told { IsAnswer result → WritesOf (TellsFiles class.now.0 emit files.now verify.now) (S.told shelf.old) (W.written out.old) (W.written out.new) result }
    ensures silent { IsSilent result → W.written out.new ≡ W.written out.old }
    ensures front { result ≡ Status.WriteFault → WritesFrontOf (TellsFiles class.now.0 emit files.now verify.now) (S.told shelf.old) (W.written out.old) (W.written out.new) }
    ensures usage { result ≢ Status.Usage }
    ensures flat { verify.now ≡ None → emit ≡ Emit.Flat → result ≢ Status.Singular }
    ensures alias { verify.now ≡ None → emit ≡ Emit.Alias → result ≢ Status.Singular }
    ensures differs { verify.now ≡ None → result ≢ Status.Differs }
    ensures read { result ≡ Status.ReadFault → Rose (S.faults shelf.old) (S.faults shelf.new) }
    ensures read_name { result ≡ Status.ReadFault → IsNamedFault (S.failed shelf.new) (with_report files.now verify.now) }
    ensures write { result ≡ Status.WriteFault → Rose (W.faults out.old) (W.faults out.new) }
{
    match verify {
        Some(report) => run_verdict(alloc, class, files, report.as_str(), shelf, out),
        None => run_job(alloc, class, emit, files, shelf, out),
    }
}

/// Runs the program for a ladder of so many rungs.
fn run_ladder<W: Sink>(alloc: Global, n: u32, out: &mut W) -> Status
    requires some { 1 ≤ n }
    requires few { n ≤ 1000 }
    ensures told { IsAnswer result → WritesTold (TellsLadder n) (W.written out.old) (W.written out.new) result }
    ensures silent { IsSilent result → W.written out.new ≡ W.written out.old }
    ensures front { result ≡ Status.WriteFault → WritesFront (TellsLadder n) (W.written out.old) (W.written out.new) }
    ensures usage { result ≢ Status.Usage }
    ensures singular { result ≢ Status.Singular }
    ensures differs { result ≢ Status.Differs }
    ensures read { result ≢ Status.ReadFault }
    ensures write { result ≡ Status.WriteFault → Rose (W.faults out.old) (W.faults out.new) }
{
    let (status, text) = match ladder_answer(alloc, n) {
        Ok(answer) => answer,
        Err(_) => return Status::NoMemory,
    };
    match put_all(out, text.as_slice()) {
        Ok(()) => status,
        Err(_) => Status::WriteFault,
    }
}

/// Runs the program for a class, what is to be written of it, and files.
fn run_job<S: Shelf, W: Sink>(
    alloc: Global,
    class: &Path,
    emit: Emit,
    files: &[Text],
    shelf: &mut S,
    out: &mut W,
) -> Status
    requires few { length files.now ≤ most_files }
    ensures told { IsAnswer result → WritesOf (Tells class.now.0 emit files.now) (S.told shelf.old) (W.written out.old) (W.written out.new) result }
    ensures silent { IsSilent result → W.written out.new ≡ W.written out.old }
    ensures front { result ≡ Status.WriteFault → WritesFrontOf (Tells class.now.0 emit files.now) (S.told shelf.old) (W.written out.old) (W.written out.new) }

    ensures usage { result ≢ Status.Usage }
    ensures flat { emit ≡ Emit.Flat → result ≢ Status.Singular }
    ensures alias { emit ≡ Emit.Alias → result ≢ Status.Singular }
    ensures differs { result ≢ Status.Differs }
    ensures read { result ≡ Status.ReadFault → Rose (S.faults shelf.old) (S.faults shelf.new) }
    ensures read_name { result ≡ Status.ReadFault → IsNamedFault (S.failed shelf.new) files.now }
    ensures write { result ≡ Status.WriteFault → Rose (W.faults out.old) (W.faults out.new) }
{
    let (status, text) = match read_answer(alloc, class, emit, files, shelf) {
        Ok(answer) => answer,
        Err(status) => return status,
    };
    match put_all(out, text.as_slice()) {
        Ok(()) => status,
        Err(_) => Status::WriteFault,
    }
}

/// Reads the files and finds the status and text that are told, or the status with which nothing is written.
fn read_answer<S: Shelf>(
    alloc: Global,
    class: &Path,
    emit: Emit,
    files: &[Text],
    shelf: &mut S,
) -> Result<(Status, List<u8>), Status>
    requires few { length files.now ≤ most_files }
    ensures told { IfOk result (λ a. IfSome (S.told shelf.old) (λ contents. Tells class.now.0 emit files.now contents a.0 a.1)) }
    ensures answers { IfOk result (λ a. IsAnswer a.0) }
    ensures flat { IfOk result (λ a. emit ≡ Emit.Flat → a.0 ≢ Status.Singular) }
    ensures alias { IfOk result (λ a. emit ≡ Emit.Alias → a.0 ≢ Status.Singular) }
    ensures differs { IfOk result (λ a. a.0 ≢ Status.Differs) }
    ensures stops { IfErr result (λ status. (status ≡ Status.ReadFault) ⊎ (status ≡ Status.NoMemory)) }
    ensures read { IfErr result (λ status. status ≡ Status.ReadFault → Rose (S.faults shelf.old) (S.faults shelf.new)) }
    ensures read_name { IfErr result (λ status. status ≡ Status.ReadFault → IsNamedFault (S.failed shelf.new) files.now) }
{
    match read_files(alloc, files, shelf) {
        Ok(texts) => match answer(alloc, class, emit, files, texts.as_slice()) {
            Ok(answer) => Ok(answer),
            Err(_) => Err(Status::NoMemory),
        },
        Err(Unread::Refused(line)) => Ok((Status::Refused, line)),
        Err(Unread::Fault) => Err(Status::ReadFault),
        Err(Unread::NoMemory) => Err(Status::NoMemory),
    }
}

/// The status and the text that are told of a class and files with these texts.
fn answer(
    alloc: Global,
    class: &Path,
    emit: Emit,
    files: &[Text],
    texts: &[Text],
) -> Result<(Status, List<u8>), NoMemory>
    requires few { length texts.now ≤ most_files }
    requires short { All (λ text. length text ≤ file_limit) texts.now }
    ensures tells { IfOk result (λ a. TellsTexts class.now.0 emit files.now texts.now a.0 a.1) }
{
    match written(alloc, class, emit, texts) {
        Ok((status, text)) => Ok((status, bytes_of(alloc, &text)?)),
        Err(Stop::Broken(broken)) => Ok((
            Status::Refused,
            List::from_vec(line_of(alloc, files, texts, broken)?),
        )),
        Err(Stop::NoMemory) => Err(NoMemory),
    }
}

/// What is written of the class in files with these texts and the status, or the first broken rule.
fn written(alloc: Global, class: &Path, emit: Emit, texts: &[Text]) -> Result<(Status, Text), Stop>
    requires few { length texts.now ≤ most_files }
    requires short { All (λ text. length text ≤ file_limit) texts.now }
    ensures written { IfOk result (λ w. WritesGiven (TextsGive class.now.0 texts.now) emit w.0 w.1) }
    ensures refused { IfBroken result (λ b. Breaks (TextsGive class.now.0 texts.now) emit b) }
{
    match of_texts(alloc, class, texts) {
        Ok(m) => written_of(alloc, emit, &m),
        Err(stop) => Err(stop),
    }
}

/// The bytes of a text.
pub(crate) fn bytes_of(alloc: Global, text: &Text) -> Result<List<u8>, NoMemory>
    ensures { IfOk result (λ bytes. bytes ≡ text.now) }
{
    Ok(List::from_vec(Vec::from_slice(alloc, text.as_str().as_bytes())?))
}

/// The line of a rule that is broken in files with these texts.
pub(crate) fn line_of(
    alloc: Global,
    files: &[Text],
    texts: &[Text],
    broken: Broken,
) -> Result<Vec<u8>, NoMemory>
    ensures { IfOk result (λ line. line.items ≡ line_of_broken files.now texts.now broken) }
{
    let at = (broken.place.file as usize).saturating_sub(1);
    let name = match files.get(at) {
        Some(name) => name.as_str(),
        None => "",
    };
    let text = match texts.get(at) {
        Some(text) => text.as_str().as_bytes(),
        None => &[],
    };
    refusal_text(alloc, name, text, broken)
}
