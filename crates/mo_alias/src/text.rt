//! The text of aliases.
ghost use Rattle.std.specs.Prelude.{◌≡◌, ◌∷◌, ◌++◌, codes, flat_map, string_bytes, IfOk, OnOk};
ghost use Rattle.mo_flat.specs.Roles.{unknown_numbers};
ghost use Rattle.mo_flat.specs.Text.{model_text};
ghost use Rattle.mo_alias.specs.Text.{aliases_text, gone_line, loop_line, number_text, unknown_name};
ghost use Rattle.mo_alias.specs.Without.{without};

use crate::found::{Aliases, Gone};
use crate::numbers::variables_of;
use crate::places::number_at;
use crate::without::without_aliases;
use itoa::Buffer;
use mo_flat::{FlatModel, FlatVar, flat_text};
use mo_syntax::{List, NoMemory, Text};
use std::alloc::Global;

/// The name of an unknown, where unknowns are these variables.
fn name_of<'a>(vars: &'a [FlatVar], variables: &[u32], unknown: u32) -> &'a str
    requires { variables.now ≡ 0 ∷ unknown_numbers vars.now }
    ensures { result.now ≡ unknown_name vars.now unknown }
{
    let variable = number_at(variables, unknown) as usize;
    if variable == 0 {
        return "";
    }
    match vars.get(variable - 1) {
        None => "",
        Some(v) => v.name.as_str(),
    }
}

fn write_gone(
    out: &mut String,
    vars: &[FlatVar],
    variables: &[u32],
    g: &Gone,
) -> Result<(), NoMemory>
    requires { variables.now ≡ 0 ∷ unknown_numbers vars.now }
    ensures { OnOk result (string_bytes out.new ≡ string_bytes out.old ++ gone_line vars.now g.now) }
{
    out.push_str(name_of(vars, variables, g.unknown))?;
    out.push_str(if g.minus { " = -" } else { " = " })?;
    out.push_str(name_of(vars, variables, g.of))?;
    out.push_str("\n")?;
    Ok(())
}

fn write_all_gone(
    out: &mut String,
    vars: &[FlatVar],
    variables: &[u32],
    gone: &[Gone],
) -> Result<(), NoMemory>
    requires { variables.now ≡ 0 ∷ unknown_numbers vars.now }
    ensures { OnOk result (string_bytes out.new ≡ string_bytes out.old ++ flat_map (gone_line vars.now) gone.now) }
{
    for g in gone {
        write_gone(out, vars, variables, g)?;
    }
    Ok(())
}

fn write_number(out: &mut String, number: u32) -> Result<(), NoMemory>
    ensures { OnOk result (string_bytes out.new ≡ string_bytes out.old ++ number_text number) }
{
    let mut buffer = Buffer::new();
    out.push_str(" ")?;
    out.push_str(buffer.format(number))?;
    Ok(())
}

fn write_numbers(out: &mut String, numbers: &[u32]) -> Result<(), NoMemory>
    ensures { OnOk result (string_bytes out.new ≡ string_bytes out.old ++ flat_map number_text numbers.now) }
{
    for number in numbers {
        write_number(out, *number)?;
    }
    Ok(())
}

fn write_loop(out: &mut String, equations: &[u32]) -> Result<(), NoMemory>
    ensures { OnOk result (string_bytes out.new ≡ string_bytes out.old ++ loop_line equations.now) }
{
    out.push_str("loop")?;
    write_numbers(out, equations)?;
    out.push_str("\n")?;
    Ok(())
}

fn write_loops(out: &mut String, loops: &[List<u32>]) -> Result<(), NoMemory>
    ensures { OnOk result (string_bytes out.new ≡ string_bytes out.old ++ flat_map loop_line loops.now) }
{
    for equations in loops {
        write_loop(out, equations.as_slice())?;
    }
    Ok(())
}

fn write_head(out: &mut String, name: &str) -> Result<(), NoMemory>
    ensures { OnOk result (string_bytes out.new ≡ string_bytes out.old ++ (codes "alias " ++ name.now ++ codes "\n")) }
{
    out.push_str("alias ")?;
    out.push_str(name)?;
    out.push_str("\n")?;
    Ok(())
}

/// Writes the unknowns that are others, and the loops of the equations that contradict.
fn write_found(
    alloc: Global,
    out: &mut String,
    vars: &[FlatVar],
    a: &Aliases,
) -> Result<(), NoMemory>
    ensures { OnOk result (string_bytes out.new ≡ string_bytes out.old ++ flat_map (gone_line vars.now) a.now.gone ++ flat_map loop_line a.now.loops) }
{
    let variables = variables_of(alloc, vars)?;
    write_all_gone(out, vars, &variables, a.gone.as_slice())?;
    write_loops(out, a.loops.as_slice())
}

/// Writes the model without aliases.
fn write_rest(alloc: Global, out: &mut String, m: &FlatModel, a: &Aliases) -> Result<(), NoMemory>
    ensures { OnOk result (string_bytes out.new ≡ string_bytes out.old ++ model_text (without m.now a.now)) }
{
    let made = without_aliases(alloc, m, a)?;
    let text = flat_text(alloc, &made)?;
    out.push_str(text.as_str())?;
    Ok(())
}

/// The text of a model's aliases, each line ended by a line feed: the unknowns that are others, the loops of the equations that
/// contradict, and the model without aliases. `NoMemory` is the only other answer.
pub fn aliases_text(alloc: Global, m: &FlatModel, a: &Aliases) -> Result<Text, NoMemory>
    ensures { IfOk result (λ text. text ≡ aliases_text m.now a.now) }
{
    let mut out = String::new(alloc);
    write_head(&mut out, m.name.as_str())?;
    write_found(alloc, &mut out, m.vars.as_slice(), a)?;
    write_rest(alloc, &mut out, m, a)?;
    Ok(Text::from_string(out))
}
