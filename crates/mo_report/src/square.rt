//! The lines of a square system: reasons, blocks, dummies, states, index and freedom.
ghost use Rattle.std.specs.Prelude.{◌≡◌, ◌++◌, flat_map, [], ◌∷◌, string_bytes, OnOk};
ghost use Rattle.mo_report.specs.Lines.{numbered, derivative, reason_line, block_line, dummy_line, state_line, number_lines, square_lines};

use crate::pushing::{name_of, push_numbered};
use crate::report::Report;
use mo_incidence::Reason;
use mo_syntax::{NoMemory, Text};

fn write_reasons(out: &mut String, reasons: &[Reason]) -> Result<(), NoMemory>
    ensures { OnOk result (string_bytes out.new ≡ string_bytes out.old ++ flat_map reason_line reasons.now) }
{
    for reason in reasons {
        push_numbered(out, "reason ", reason.equation as usize)?;
        push_numbered(out, " from ", reason.from as usize)?;
        out.push_str("\n")?;
    }
    Ok(())
}

/// Writes numbers, each behind a blank. `NoMemory` is the only other answer.
pub fn write_numbers(out: &mut String, numbers: &[u32]) -> Result<(), NoMemory>
    ensures { OnOk result (string_bytes out.new ≡ string_bytes out.old ++ flat_map (numbered (32 ∷ [])) numbers.now) }
{
    for number in numbers {
        push_numbered(out, " ", *number as usize)?;
    }
    Ok(())
}

fn write_blocks(out: &mut String, blocks: &[Vec<u32>]) -> Result<(), NoMemory>
    ensures { OnOk result (string_bytes out.new ≡ string_bytes out.old ++ flat_map (λ block. block_line block.items) blocks.now) }
{
    for block in blocks {
        out.push_str("block")?;
        write_numbers(out, block)?;
        out.push_str("\n")?;
    }
    Ok(())
}

#[tactic(auto, unfolding(crate::specs::Lines::derivative))]
/// Writes an unknown's name, by its number from 1, in as many derivatives as its order says. `NoMemory` is the only other answer.
pub fn write_derivative(
    out: &mut String,
    names: &[Text],
    unknown: u32,
    order: u32,
) -> Result<(), NoMemory>
    ensures { OnOk result (string_bytes out.new ≡ string_bytes out.old ++ derivative names.now unknown order) }
{
    for _opened in 0..order {
        out.push_str("der(")?;
    }
    out.push_str(name_of(names, unknown as usize))?;
    for _closed in 0..order {
        out.push_str(")")?;
    }
    Ok(())
}

fn write_dummy(
    out: &mut String,
    names: &[Text],
    dummy: (u32, u32, u32, u32),
) -> Result<(), NoMemory>
    ensures { OnOk result (string_bytes out.new ≡ string_bytes out.old ++ dummy_line names.now dummy) }
{
    let (unknown, order, stage, equation) = dummy;
    out.push_str("dummy ")?;
    write_derivative(out, names, unknown, order)?;
    push_numbered(out, " stage ", stage as usize)?;
    push_numbered(out, " equation ", equation as usize)?;
    out.push_str("\n")?;
    Ok(())
}

fn write_dummies(
    out: &mut String,
    names: &[Text],
    dummies: &[(u32, u32, u32, u32)],
) -> Result<(), NoMemory>
    ensures { OnOk result (string_bytes out.new ≡ string_bytes out.old ++ flat_map (dummy_line names.now) dummies.now) }
{
    for dummy in dummies {
        write_dummy(out, names, *dummy)?;
    }
    Ok(())
}

/// Writes a line for each state, which is an unknown by its number from 1 with the order of a derivative. `NoMemory` is the only other
/// answer.
pub fn write_states(out: &mut String, names: &[Text], states: &[(u32, u32)]) -> Result<(), NoMemory>
    ensures { OnOk result (string_bytes out.new ≡ string_bytes out.old ++ flat_map (state_line names.now) states.now) }
{
    for state in states {
        out.push_str("state ")?;
        write_derivative(out, names, state.0, state.1)?;
        out.push_str("\n")?;
    }
    Ok(())
}

/// The index and the freedom.
fn write_numbers_of(out: &mut String, r: &Report) -> Result<(), NoMemory>
    ensures { OnOk result (string_bytes out.new ≡ string_bytes out.old ++ number_lines r.now) }
{
    push_numbered(out, "index ", r.index as usize)?;
    push_numbered(out, "\nfreedom ", r.freedom as usize)?;
    out.push_str("\n")?;
    Ok(())
}

/// All that is found of a square system beside its offsets.
pub(crate) fn write_square(out: &mut String, r: &Report) -> Result<(), NoMemory>
    ensures { OnOk result (string_bytes out.new ≡ string_bytes out.old ++ square_lines r.now) }
{
    let names = r.unknowns.as_slice();
    write_reasons(out, &r.reasons)?;
    write_blocks(out, &r.blocks.0)?;
    write_dummies(out, names, &r.dummies.chosen)?;
    write_states(out, names, &r.dummies.states)?;
    write_numbers_of(out, r)
}
