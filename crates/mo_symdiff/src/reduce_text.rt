//! The text of the reduced model.
ghost use Rattle.std.specs.Prelude.{◌≡◌, ◌++◌, flat_map, string_bytes, IfOk, OnOk};
ghost use Rattle.mo_flat.specs.Text.{equation_line};
ghost use Rattle.mo_symdiff.specs.Reduced.{reduced_text};

use crate::reduced_model::Reduced;
use mo_flat::{FlatEquation, FlatModel, FlatVar, write_equation_line};
use mo_syntax::{List, NoMemory, Text};
use std::alloc::Global;

/// The text of a reduced model: a line with its name, the lines of each equation and its derivatives, and a last line. The
/// names are those of the model's variables. `NoMemory` is the only other answer.
#[tactic(auto, unfolding(crate::specs::Reduced::reduced_text))]
pub fn reduced_text(alloc: Global, m: &FlatModel, r: &Reduced) -> Result<Text, NoMemory>
    ensures { IfOk result (λ text. text ≡ reduced_text m.now r.now.lines) }
{
    let mut out = String::new(alloc);
    write_name_line(&mut out, "reduced ", m.name.as_str(), "\n")?;
    write_all(&mut out, m.vars.as_slice(), r.lines.as_slice())?;
    write_name_line(&mut out, "end ", m.name.as_str(), ";\n")?;
    Ok(Text::from_string(out))
}

fn write_name_line(out: &mut String, word: &str, name: &str, end: &str) -> Result<(), NoMemory>
    ensures { OnOk result (string_bytes out.new ≡ string_bytes out.old ++ (word.now ++ name.now ++ end.now)) }
{
    out.push_str(word)?;
    out.push_str(name)?;
    out.push_str(end)?;
    Ok(())
}

fn write_all(
    out: &mut String,
    vars: &[FlatVar],
    lines: &[List<FlatEquation>],
) -> Result<(), NoMemory>
    ensures { OnOk result (string_bytes out.new ≡ string_bytes out.old ++ flat_map (flat_map (equation_line vars.now)) lines.now) }
{
    for of_equation in lines {
        write_lines(out, vars, of_equation.as_slice())?;
    }
    Ok(())
}

fn write_lines(out: &mut String, vars: &[FlatVar], lines: &[FlatEquation]) -> Result<(), NoMemory>
    ensures { OnOk result (string_bytes out.new ≡ string_bytes out.old ++ flat_map (equation_line vars.now) lines.now) }
{
    for line in lines {
        write_equation_line(out, vars, line)?;
    }
    Ok(())
}
