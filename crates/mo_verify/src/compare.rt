//! Lines as texts, and the first line at which a report differs from a right one.
ghost use Rattle.std.specs.Prelude.{◌≡◌, ◌≤◌, IfOk, IfSome, IfNone, length};
ghost use Rattle.std.specs.List.{prefix_len};
ghost use Rattle.mo_lexer.specs.Bytes.{is_line_byte};
ghost use Rattle.mo_report_lines.specs.Lines.{without_feed};
ghost use Rattle.mo_verify.specs.Steps.{IsDifference, AgreeTo};

use crate::verdict::Verdict;
use mo_report_lines::{Difference, first_difference};
use mo_syntax::{NoMemory, Text};
use std::alloc::Global;

/// How many bytes stand before the first line feed.
fn feed_at(line: &[u8]) -> usize
    ensures value { result ≡ prefix_len is_line_byte line.now }
    ensures within { result ≤ length line.now }
{
    line.iter().take_while(|b| **b != b'\n').count()
}

/// A line without its line feed.
pub(crate) fn without_feed(line: &[u8]) -> &[u8]
    ensures { result.now ≡ without_feed line.now }
{
    let len = feed_at(line);
    &line[..len]
}

/// The bytes of a line as a text. Lines of reports have bytes below 128 alone, so `NoMemory` is the only other answer.
pub(crate) fn text_of(alloc: Global, bytes: &[u8]) -> Result<Text, NoMemory>
    ensures { IfOk result (λ text. text ≡ bytes.now) }
{
    match std::str::from_utf8(bytes) {
        Ok(text) => Text::from_str(alloc, text),
        Err(_) => Err(NoMemory),
    }
}

/// The verdict on a line at which a report differs from a right one.
pub(crate) fn told(alloc: Global, difference: &Difference) -> Result<Verdict, NoMemory>
    ensures { IfOk result (λ verdict. verdict ≡ Verdict.Line difference.now.line (without_feed difference.now.printed.now) (without_feed difference.now.wanted.now)) }
{
    let printed = text_of(alloc, without_feed(difference.printed))?;
    let found = text_of(alloc, without_feed(difference.wanted))?;
    Ok(Verdict::Line {
        line: difference.line,
        printed,
        found,
    })
}

/// The verdict on the first line, up to this one, at which a report differs from a right one; None where none does.
pub(crate) fn line_verdict(
    alloc: Global,
    report: &[u8],
    wanted: &str,
    last: u32,
) -> Result<Option<Verdict>, NoMemory>
    requires { length report.now ≤ 67108864 }
    ensures some { IfOk result (λ r. IfSome r (IsDifference report.now wanted.now last)) }
    ensures none { IfOk result (λ r. IfNone r (AgreeTo report.now wanted.now last)) }
{
    let Some(difference) = first_difference(report, wanted.as_bytes()) else {
        return Ok(None);
    };
    if difference.line > last {
        return Ok(None);
    }
    let verdict = told(alloc, &difference)?;
    Ok(Some(verdict))
}
