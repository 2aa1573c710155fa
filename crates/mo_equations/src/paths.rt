//! The printed texts of paths of instances.
ghost use Rattle.std.specs.Prelude.{◌≡◌, ◌++◌, codes, flat_map, string_bytes, IfOk, OnOk};
ghost use Rattle.std.specs.Fmt.{decimal};
ghost use Rattle.mo_equations.specs.Leaves.{index_text, path_text};

use itoa::Buffer;
use mo_syntax::{List, NoMemory, Text};
use std::alloc::Global;

/// A name on a path, with its indices.
pub(crate) type Step = (Text, List<u32>);

fn write_number(out: &mut String, n: u32) -> Result<(), NoMemory>
    ensures { OnOk result (string_bytes out.new ≡ string_bytes out.old ++ decimal n) }
{
    let mut buffer = Buffer::new();
    out.push_str(buffer.format(n))?;
    Ok(())
}

/// Writes indices behind the first one.
fn write_more(out: &mut String, index: &[u32]) -> Result<(), NoMemory>
    ensures { OnOk result (string_bytes out.new ≡ string_bytes out.old ++ flat_map (λ n. codes "," ++ decimal n) index.now) }
{
    for n in index {
        out.push_str(",")?;
        write_number(out, *n)?;
    }
    Ok(())
}

/// Writes indices in brackets, nothing where there are none.
fn write_index(out: &mut String, index: &[u32]) -> Result<(), NoMemory>
    ensures { OnOk result (string_bytes out.new ≡ string_bytes out.old ++ index_text index.now) }
{
    match index {
        [] => Ok(()),
        [first, more @ ..] => {
            out.push_str("[")?;
            write_number(out, *first)?;
            write_more(out, more)?;
            out.push_str("]")?;
            Ok(())
        }
    }
}

/// Writes a name with its indices.
fn write_step(out: &mut String, step: &Step) -> Result<(), NoMemory>
    ensures { OnOk result (string_bytes out.new ≡ string_bytes out.old ++ (step.now.0 ++ index_text step.now.1)) }
{
    out.push_str(step.0.as_str())?;
    write_index(out, step.1.as_slice())
}

/// Writes a path with dots between its names.
fn write_path(out: &mut String, path: &[Step]) -> Result<(), NoMemory>
    ensures { OnOk result (string_bytes out.new ≡ string_bytes out.old ++ path_text path.now) }
{
    match path {
        [] => Ok(()),
        [step] => write_step(out, step),
        [step, next @ ..] => {
            write_step(out, step)?;
            out.push_str(".")?;
            write_path(out, next)
        }
    }
}

/// The text of a path. `NoMemory` is the only other answer.
pub(crate) fn text_of_path(alloc: Global, path: &[Step]) -> Result<String, NoMemory>
    ensures { IfOk result (λ text. string_bytes text ≡ path_text path.now) }
{
    let mut out = String::new(alloc);
    write_path(&mut out, path)?;
    Ok(out)
}
