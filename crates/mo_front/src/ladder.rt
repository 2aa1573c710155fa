//! What is told of a ladder.
ghost use Rattle.std.specs.Prelude.{◌≡◌, ◌∷◌, [], ◌≤◌, length, IfOk, All};
ghost use Rattle.mo_front.specs.Ladder.{SumsUpGiven, TellsLadder, ladder_names, ladder_path, ladder_texts};
ghost use Rattle.mo_front.specs.Limits.{file_limit, most_files};
ghost use Rattle.mo_front.specs.Told.{Breaks, TextsGive, line_of_broken};
ghost use Rattle.mo_syntax.specs.Outcome.{IfBroken};

use crate::answer::of_texts;
use crate::program::{bytes_of, line_of};
use crate::status::Status;
use crate::summary::summary_of;
use crate::words::Emit;
use mo_gen::ladder;
use mo_syntax::{Broken, List, NoMemory, Path, Stop, Text};
use std::alloc::Global;

/// The most bytes of the text, which no ladder of up to 1000 rungs has.
const MOST_BYTES: usize = 4_194_304;

/// The status and the text that are told of a ladder of so many rungs, from 1 to 1000.
pub(crate) fn ladder_answer(alloc: Global, n: u32) -> Result<(Status, List<u8>), NoMemory>
    requires some { 1 ≤ n }
    requires few { n ≤ 1000 }
    ensures tells { IfOk result (λ a. TellsLadder n a.0 a.1) }
{
    let texts = ladder_files(alloc, n)?;
    match ladder_line(alloc, n, texts.as_slice()) {
        Ok(line) => Ok((Status::Done, bytes_of(alloc, &line)?)),
        Err(Stop::Broken(broken)) => Ok((
            Status::Refused,
            refusal_of(alloc, texts.as_slice(), broken)?,
        )),
        Err(Stop::NoMemory) => Err(NoMemory),
    }
}

/// The text of the ladder, which stands in place of a file.
fn ladder_files(alloc: Global, n: u32) -> Result<List<Text>, NoMemory>
    requires some { 1 ≤ n }
    requires few { n ≤ 1000 }
    ensures texts { IfOk result (λ texts. texts ≡ ladder_texts n) }
    ensures short { IfOk result (λ texts. All (λ text. length text ≤ file_limit) texts) }
{
    let text = ladder(alloc, n)?;
    if text.as_str().len() > MOST_BYTES {
        return Err(NoMemory);
    }
    one(alloc, text)
}

/// A list of one text.
fn one(alloc: Global, text: Text) -> Result<List<Text>, NoMemory>
    ensures { IfOk result (λ texts. texts ≡ text ∷ []) }
{
    let mut texts = List::new(alloc);
    texts.push(text)?;
    Ok(texts)
}

/// The class of a ladder.
fn ladder_class(alloc: Global) -> Result<Path, NoMemory>
    ensures { IfOk result (λ path. path.0 ≡ ladder_path) }
{
    let name = Text::from_str(alloc, "Ladder")?;
    Ok(Path(one(alloc, name)?))
}

/// The line that sums up a ladder with that text, or the first broken rule.
fn ladder_line(alloc: Global, n: u32, texts: &[Text]) -> Result<Text, Stop>
    requires few { length texts.now ≤ most_files }
    requires short { All (λ text. length text ≤ file_limit) texts.now }
    ensures sums { IfOk result (SumsUpGiven (TextsGive ladder_path texts.now) n) }
    ensures refused { IfBroken result (λ b. Breaks (TextsGive ladder_path texts.now) Emit.Report b) }
{
    let path = ladder_class(alloc)?;
    match of_texts(alloc, &path, texts) {
        Ok(m) => summary_of(alloc, n, &m),
        Err(stop) => Err(stop),
    }
}

/// The line of a rule that the text of a ladder breaks.
fn refusal_of(alloc: Global, texts: &[Text], broken: Broken) -> Result<List<u8>, NoMemory>
    ensures { IfOk result (λ line. line ≡ line_of_broken ladder_names texts.now broken) }
{
    let name = Text::from_str(alloc, "ladder")?;
    let names = one(alloc, name)?;
    let line = line_of(alloc, names.as_slice(), texts, broken)?;
    Ok(List::from_vec(line))
}
