//! The subscripts of references (Modelica Language Specification 3.5, section 10.5).
ghost use Rattle.std.specs.Prelude.{◌≡◌, ◌<◌, Ok, drop, get_or, length, map};
ghost use Rattle.mo_flat.specs.declared.array.Subscript.TheVariants.{One};
ghost use Rattle.std.specs.Option.{option_map};
ghost use Rattle.mo_scope.specs.Worlds.{Grows, IsFrame};
ghost use Rattle.mo_syntax.specs.Outcome.{and_then};
ghost use Rattle.mo_typing.specs.Outcome.{Gives};
ghost use Rattle.mo_eval.specs.Keeping.{IsKept};
ghost use Rattle.mo_values.specs.Asked.{must_be_whole};
ghost use Rattle.mo_eval.specs.References.{numbers_of, read_subscript, read_subscripts};
ghost use Rattle.mo_eval.specs.Virtuals.{known_at};
ghost use Rattle.mo_eval.specs.Seen.{AreThere, resolved_at};
ghost use Rattle.mo_eval.specs.steps.Sites.{part_in, elements_in};
ghost use Rattle.mo_eval.specs.steps.Subscripting.{subscript_at, subscript_in};

use crate::alone::alone;
use crate::reader::Reader;
use crate::reading::unread;
use crate::resolve::Site;
use crate::variables::{known_in, known_with};
use crate::virtuals::Resolved;
use mo_flat::Subscript;
use mo_scope::Scopes;
use mo_syntax::{Broken, Expr, List, Place, Stop};
use mo_values::layers::{answer, must_be_whole, whole_vector};
use mo_values::{Context, Scalar};

/// The numbers of a vector of that size.
#[cycle(resolving)]
fn numbers_of<'t>(
    reader: &mut Reader<'t>,
    s: &mut Scopes<'t>,
    left: u64,
    place: Place,
    size: u32,
    resolved: &Resolved<'t>,
) -> Result<List<i64>, Stop>
    requires there { AreThere s.old resolved.now.virtuals }
    requires kept { IsKept s.old reader.old }
    ensures grows { Grows s.old s.new }
    ensures kept { IsKept s.new reader.new }
    ensures exact { Gives result (numbers_of (known_at (elements_in s.old left) (resolved_at s.old resolved.now)) place size) }
{
    let mut reads = unread(reader.alloc, resolved.virtuals.len())?;
    let mut made = List::new(reader.alloc);
    for k in 0..size {
        let known = known_with(
            reader,
            s,
            left,
            &resolved.expression,
            &[k + 1],
            resolved.virtuals.as_slice(),
            &mut reads,
        )?;
        let n = answer(must_be_whole(place, known))?;
        made.push(n)?;
    }
    Ok(made)
}

/// A scalar subscript, which has to have a value.
fn scalar(place: Place, known: Option<Scalar>) -> Result<Subscript, Broken>
    ensures { result ≡ and_then (must_be_whole place known) (λ n. Ok (One place n)) }
{
    let n = must_be_whole(place, known)?;
    Ok(Subscript::One(place, n))
}

/// What a resolved subscript selects.
#[cycle(resolving)]
fn subscript_in<'t>(
    reader: &mut Reader<'t>,
    s: &mut Scopes<'t>,
    left: u64,
    place: Place,
    resolved: &Resolved<'t>,
) -> Result<Subscript, Stop>
    requires there { AreThere s.old resolved.now.virtuals }
    requires kept { IsKept s.old reader.old }
    ensures grows { Grows s.old s.new }
    ensures kept { IsKept s.new reader.new }
    ensures exact { Gives result (subscript_in (elements_in s.old left) place (resolved_at s.old resolved.now)) }
{
    let dims = whole_vector(reader.alloc, place, &resolved.expression)?;
    let Some(size) = dims.get(0) else {
        let known = known_in(
            reader,
            s,
            left,
            &resolved.expression,
            &[],
            resolved.virtuals.as_slice(),
        )?;
        return answer(scalar(place, known));
    };
    let numbers = numbers_of(reader, s, left, place, *size, resolved)?;
    Ok(Subscript::Many(place, numbers))
}

/// A subscript in a dimension of that size.
#[cycle(resolving)]
fn read_subscript<'t>(
    reader: &mut Reader<'t>,
    s: &mut Scopes<'t>,
    site: &Site,
    size: u32,
    sub: &Option<Expr>,
) -> Result<Subscript, Stop>
    requires frame { IsFrame s.old site.now.at.now.frame.0 }
    requires kept { IsKept s.old reader.old }
    ensures grows { Grows s.old s.new }
    ensures kept { IsKept s.new reader.new }
    ensures exact { Gives result (read_subscript (elements_in s.old site.now.left) size (option_map (part_in s.old site.now) sub.now)) }
{
    let Some(e) = sub else {
        return Ok(Subscript::All);
    };
    let inner = Site {
        at: site.at,
        left: site.left,
        room: site.room,
        context: Context::subscript_of(size),
    };
    let resolved = alone(reader, s, &inner, e)?;
    subscript_in(reader, s, site.left, e.place, &resolved)
}

/// The subscript of the dimension with so many before it; `:` where none is written.
#[cycle(resolving)]
fn subscript_at<'t>(
    reader: &mut Reader<'t>,
    s: &mut Scopes<'t>,
    site: &Site,
    size: u32,
    subs: &[Option<Expr>],
    k: usize,
) -> Result<Subscript, Stop>
    requires frame { IsFrame s.old site.now.at.now.frame.0 }
    requires kept { IsKept s.old reader.old }
    ensures grows { Grows s.old s.new }
    ensures kept { IsKept s.new reader.new }
    ensures exact { Gives result (subscript_at (elements_in s.old site.now.left) size (drop k (map (option_map (part_in s.old site.now)) subs.now))) }
{
    match subs.get(k) {
        None => Ok(Subscript::All),
        Some(sub) => read_subscript(reader, s, site, size, sub),
    }
}

/// The subscript of the dimension with so many before it.
#[cycle(resolving)]
fn subscript_of<'t>(
    reader: &mut Reader<'t>,
    s: &mut Scopes<'t>,
    site: &Site,
    dims: &[u32],
    subs: &[Option<Expr>],
    k: usize,
) -> Result<Subscript, Stop>
    requires frame { IsFrame s.old site.now.at.now.frame.0 }
    requires dimension { k < length dims.now }
    requires kept { IsKept s.old reader.old }
    ensures grows { Grows s.old s.new }
    ensures kept { IsKept s.new reader.new }
    ensures exact { Gives result (subscript_at (elements_in s.old site.now.left) (get_or dims.now k 0) (drop k (map (option_map (part_in s.old site.now)) subs.now))) }
{
    let size = dims[k];
    subscript_at(reader, s, site, size, subs, k)
}

/// The subscripts of an identifier, one for each dimension of its component.
#[cycle(resolving)]
pub(crate) fn read_subscripts<'t>(
    reader: &mut Reader<'t>,
    s: &mut Scopes<'t>,
    site: &Site,
    dims: &[u32],
    subs: &[Option<Expr>],
) -> Result<List<Subscript>, Stop>
    requires frame { IsFrame s.old site.now.at.now.frame.0 }
    requires kept { IsKept s.old reader.old }
    ensures grows { Grows s.old s.new }
    ensures kept { IsKept s.new reader.new }
    ensures exact { Gives result (read_subscripts (elements_in s.old site.now.left) dims.now (map (option_map (part_in s.old site.now)) subs.now)) }
{
    let mut made = List::new(reader.alloc);
    for k in 0..dims.len() {
        let sub = subscript_of(reader, s, site, dims, subs, k)?;
        made.push(sub)?;
    }
    Ok(made)
}
