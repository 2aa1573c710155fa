//! The lines of a report.
ghost use Rattle.std.specs.Prelude.{◌≡◌, ◌<◌, ◌++◌, flat_map, length, string_bytes, IfOk, OnOk};
ghost use Rattle.mo_report.specs.Lines.{lines_below, head_lines, in_line, name_line, deficit_head, deficit_lines, equation_line, unknown_line, offset_lines, rest_lines, found_lines, part_lines, report_lines};

use crate::pushing::{name_of, number_at, push_named, push_numbered};
use crate::report::Report;
use crate::square::write_square;
use mo_incidence::{Deficit, Offsets};
use mo_syntax::{NoMemory, Text};
use std::alloc::Global;

fn write_head(out: &mut String, r: &Report) -> Result<(), NoMemory>
    ensures { OnOk result (string_bytes out.new ≡ string_bytes out.old ++ head_lines r.now) }
{
    push_named(out, "report ", r.name.as_str())?;
    push_numbered(out, "\nequations ", r.equations as usize)?;
    push_numbered(out, " unknowns ", r.unknowns.len())?;
    out.push_str("\n")?;
    Ok(())
}

fn write_in_lines(out: &mut String, equations: &[u32]) -> Result<(), NoMemory>
    ensures { OnOk result (string_bytes out.new ≡ string_bytes out.old ++ flat_map in_line equations.now) }
{
    for equation in equations {
        push_numbered(out, "in ", *equation as usize)?;
        out.push_str("\n")?;
    }
    Ok(())
}

/// A line for each of these unknowns: the word and its name.
fn write_names(
    out: &mut String,
    word: &str,
    names: &[Text],
    unknowns: &[u32],
) -> Result<(), NoMemory>
    ensures { OnOk result (string_bytes out.new ≡ string_bytes out.old ++ flat_map (name_line word.now names.now) unknowns.now) }
{
    for unknown in unknowns {
        push_named(out, word, name_of(names, *unknown as usize))?;
        out.push_str("\n")?;
    }
    Ok(())
}

fn write_deficit_head(out: &mut String, deficit: &Deficit) -> Result<(), NoMemory>
    ensures { OnOk result (string_bytes out.new ≡ string_bytes out.old ++ deficit_head deficit.now) }
{
    push_numbered(out, "deficit ", deficit.equations.len())?;
    push_numbered(out, " equations ", deficit.unknowns.len())?;
    out.push_str(" unknowns\n")?;
    Ok(())
}

fn write_deficit(out: &mut String, names: &[Text], deficit: &Deficit) -> Result<(), NoMemory>
    ensures { OnOk result (string_bytes out.new ≡ string_bytes out.old ++ deficit_lines names.now deficit.now) }
{
    write_deficit_head(out, deficit)?;
    write_in_lines(out, &deficit.equations)?;
    write_names(out, "mentions ", names, &deficit.unknowns)
}

fn write_equation(
    out: &mut String,
    names: &[Text],
    orders: &[u32],
    offsets: &Offsets,
    at: usize,
) -> Result<(), NoMemory>
    requires { at < 4294967295 }
    ensures { OnOk result (string_bytes out.new ≡ string_bytes out.old ++ equation_line names.now orders.now offsets.now at) }
{
    push_numbered(out, "equation ", at + 1)?;
    push_numbered(out, " c ", number_at(&offsets.c, at))?;
    push_named(
        out,
        " pairs ",
        name_of(names, number_at(&offsets.pairs, at)),
    )?;
    push_numbered(out, " order ", number_at(orders, at))?;
    out.push_str("\n")?;
    Ok(())
}

fn write_equations(
    out: &mut String,
    names: &[Text],
    orders: &[u32],
    offsets: &Offsets,
    equations: u32,
) -> Result<(), NoMemory>
    ensures { OnOk result (string_bytes out.new ≡ string_bytes out.old ++ lines_below (equation_line names.now orders.now offsets.now) equations) }
{
    for at in 0..equations {
        write_equation(out, names, orders, offsets, at as usize)?;
    }
    Ok(())
}

fn write_unknown(
    out: &mut String,
    names: &[Text],
    offsets: &Offsets,
    at: usize,
) -> Result<(), NoMemory>
    requires { at < length names.now }
    ensures { OnOk result (string_bytes out.new ≡ string_bytes out.old ++ unknown_line names.now offsets.now at) }
{
    push_named(out, "unknown ", names[at].as_str())?;
    push_numbered(out, " d ", number_at(&offsets.d, at))?;
    out.push_str("\n")?;
    Ok(())
}

fn write_unknowns(out: &mut String, names: &[Text], offsets: &Offsets) -> Result<(), NoMemory>
    ensures { OnOk result (string_bytes out.new ≡ string_bytes out.old ++ lines_below (unknown_line names.now offsets.now) (length names.now)) }
{
    for at in 0..names.len() {
        write_unknown(out, names, offsets, at)?;
    }
    Ok(())
}

fn write_offsets(out: &mut String, r: &Report, offsets: &Offsets) -> Result<(), NoMemory>
    ensures { OnOk result (string_bytes out.new ≡ string_bytes out.old ++ offset_lines r.now offsets.now) }
{
    let names = r.unknowns.as_slice();
    write_equations(out, names, &r.orders, offsets, r.equations)?;
    write_unknowns(out, names, offsets)
}

/// The text of a report, each line ended by a line feed. A number that is no unknown's has no name.
/// `NoMemory` is the only other answer.
pub fn report_text(alloc: Global, r: &Report) -> Result<Text, NoMemory>
    ensures { IfOk result (λ text. text ≡ report_lines r.now) }
{
    let mut out = String::new(alloc);
    write_head(&mut out, r)?;
    write_parts(&mut out, r)?;
    Ok(Text::from_string(out))
}

fn write_parts(out: &mut String, r: &Report) -> Result<(), NoMemory>
    ensures { OnOk result (string_bytes out.new ≡ string_bytes out.old ++ part_lines r.now r.now.deficit) }
{
    match &r.deficit {
        Some(deficit) => write_deficit(out, r.unknowns.as_slice(), deficit),
        None => write_found(out, r),
    }
}

fn write_found(out: &mut String, r: &Report) -> Result<(), NoMemory>
    ensures { OnOk result (string_bytes out.new ≡ string_bytes out.old ++ found_lines r.now r.now.offsets) }
{
    match &r.offsets {
        None => Ok(()),
        Some(offsets) => {
            write_offsets(out, r, offsets)?;
            write_rest(out, r)
        }
    }
}

/// What follows the offsets.
fn write_rest(out: &mut String, r: &Report) -> Result<(), NoMemory>
    ensures { OnOk result (string_bytes out.new ≡ string_bytes out.old ++ rest_lines r.now) }
{
    let names = r.unknowns.as_slice();
    if (r.equations as usize) < names.len() {
        write_names(out, "undetermined ", names, &r.loose)
    } else {
        write_square(out, r)
    }
}
