//! The ladder, line by line.
ghost use Rattle.std.specs.Prelude.{◌≡◌, ◌≤◌, ◌+◌, ◌-◌, ◌++◌, string_bytes, IfOk, OnOk};
ghost use Rattle.mo_gen.specs.Ladder.{lines_to, numbered, part_classes, part_line, rung_line, rail_line, declarations, connections, ladder_text};

use itoa::Buffer;
use mo_syntax::{NoMemory, Text};
use std::alloc::Global;

/// The classes of the parts.
const PART_CLASSES: &str = "connector Pin Real v; flow Real i; end Pin;
partial model TwoPin Pin p; Pin n; Real v; Real i; equation v = p.v - n.v; 0 = p.i + n.i; i = p.i; end TwoPin;
model Resistor extends TwoPin; parameter Real R = 1.0; equation v = R*i; end Resistor;
model Capacitor extends TwoPin; parameter Real C = 1.0; equation i = C*der(v); end Capacitor;
model Source extends TwoPin; parameter Real V = 1.0; equation v = V; end Source;
model Ground Pin p; equation p.v = 0; end Ground;
";

#[tactic(auto, unfolding(crate::specs::Ladder::numbered))]
/// Puts a text and behind it a number at the end.
fn push_numbered(out: &mut String, text: &str, number: u32) -> Result<(), NoMemory>
    ensures { OnOk result (string_bytes out.new ≡ string_bytes out.old ++ numbered text.now number) }
{
    let mut buffer = Buffer::new();
    out.push_str(text)?;
    out.push_str(buffer.format(number))?;
    Ok(())
}

#[tactic(auto, unfolding(crate::specs::Ladder::part_classes))]
fn write_classes(out: &mut String) -> Result<(), NoMemory>
    ensures { OnOk result (string_bytes out.new ≡ string_bytes out.old ++ part_classes) }
{
    out.push_str(PART_CLASSES)?;
    Ok(())
}

/// The resistor and the capacitor of rung k.
fn write_part_line(out: &mut String, k: u32) -> Result<(), NoMemory>
    ensures { OnOk result (string_bytes out.new ≡ string_bytes out.old ++ part_line k) }
{
    push_numbered(out, "  Resistor r", k)?;
    push_numbered(out, "; Capacitor c", k)?;
    out.push_str(";\n")?;
    Ok(())
}

/// The connects of rung k, from the resistor over the capacitor to the ground.
fn write_rung_line(out: &mut String, k: u32) -> Result<(), NoMemory>
    ensures { OnOk result (string_bytes out.new ≡ string_bytes out.old ++ rung_line k) }
{
    push_numbered(out, "  connect(r", k)?;
    push_numbered(out, ".n, c", k)?;
    push_numbered(out, ".p); connect(c", k)?;
    out.push_str(".n, g.p);\n")?;
    Ok(())
}

/// The connect of rung k with the next one.
fn write_rail_line(out: &mut String, k: u32) -> Result<(), NoMemory>
    requires { k ≤ 1000 }
    ensures { OnOk result (string_bytes out.new ≡ string_bytes out.old ++ rail_line k) }
{
    push_numbered(out, "  connect(r", k)?;
    push_numbered(out, ".n, r", k + 1)?;
    out.push_str(".p);\n")?;
    Ok(())
}

fn write_parts(out: &mut String, n: u32) -> Result<(), NoMemory>
    ensures { OnOk result (string_bytes out.new ≡ string_bytes out.old ++ lines_to part_line n) }
{
    for k in 0..n {
        write_part_line(out, k + 1)?;
    }
    Ok(())
}

fn write_rungs(out: &mut String, n: u32) -> Result<(), NoMemory>
    ensures { OnOk result (string_bytes out.new ≡ string_bytes out.old ++ lines_to rung_line n) }
{
    for k in 0..n {
        write_rung_line(out, k + 1)?;
    }
    Ok(())
}

fn write_rails(out: &mut String, n: u32) -> Result<(), NoMemory>
    requires { n ≤ 1000 }
    ensures { OnOk result (string_bytes out.new ≡ string_bytes out.old ++ lines_to rail_line n) }
{
    for k in 0..n {
        write_rail_line(out, k + 1)?;
    }
    Ok(())
}

fn write_declarations(out: &mut String, n: u32) -> Result<(), NoMemory>
    ensures { OnOk result (string_bytes out.new ≡ string_bytes out.old ++ declarations n) }
{
    out.push_str("model Ladder\n  Source s;\n  Ground g;\n")?;
    write_parts(out, n)
}

fn write_connections(out: &mut String, n: u32) -> Result<(), NoMemory>
    requires { (1 ≤ n) × (n ≤ 1000) }
    ensures { OnOk result (string_bytes out.new ≡ string_bytes out.old ++ connections n) }
{
    out.push_str("equation\n  connect(s.n, g.p);\n  connect(s.p, r1.p);\n")?;
    write_rungs(out, n)?;
    write_rails(out, n - 1)
}

fn write_ladder(out: &mut String, n: u32) -> Result<(), NoMemory>
    requires { (1 ≤ n) × (n ≤ 1000) }
    ensures { OnOk result (string_bytes out.new ≡ string_bytes out.old ++ ladder_text n) }
{
    write_classes(out)?;
    write_declarations(out, n)?;
    write_connections(out, n)?;
    out.push_str("end Ladder;\n")?;
    Ok(())
}

/// The text of the ladder of n rungs, n from 1 to 1000: a source, a ground, and for each rung a resistor that leads to
/// the next one and to a capacitor. Its class is `Ladder`. `NoMemory` is the only other answer.
pub fn ladder(alloc: Global, n: u32) -> Result<Text, NoMemory>
    requires { (1 ≤ n) × (n ≤ 1000) }
    ensures { IfOk result (λ text. text ≡ ladder_text n) }
{
    let mut out = String::new(alloc);
    write_ladder(&mut out, n)?;
    Ok(Text::from_string(out))
}
