//! Calls (Modelica Language Specification 3.5, sections 3.7 and 10.3).
ghost use Rattle.std.specs.Prelude.{◌≡◌, ◌∷◌, [], false, IfOk, MatchOption, Ok, Some, List as Seq};
ghost use Rattle.mo_scope.specs.Frames.{Scope};
ghost use Rattle.mo_scope.specs.Rows.{Table};
ghost use Rattle.mo_flat.specs.declared.array.ArrayExpr.{ArrayExpr as ArrayTree};
ghost use Rattle.mo_flat.specs.declared.array.ArrayNode.TheVariants.{Call};
ghost use Rattle.mo_syntax.specs.Outcome.{Outcome, and_then};
ghost use Rattle.mo_tables.specs.declared.functions.TheConstants.{DIV, IDENTITY, MOD, NDIMS, ONES, REM, ZEROS};
ghost use Rattle.mo_scope.specs.Worlds.{World, Grows, IsFrame, table_in};
ghost use Rattle.mo_typing.specs.Kinds.{is_among};
ghost use Rattle.mo_typing.specs.Outcome.{Gives};
ghost use Rattle.mo_eval.specs.Keeping.{IsKept};
ghost use Rattle.mo_eval.specs.declared.virtuals.Virtual.{Virtual as VirtualAt};
ghost use Rattle.mo_eval.specs.Virtuals.{Ask, Virtual as VirtualSeen};
ghost use Rattle.mo_eval.specs.Contexts.{Part as PartOf};
ghost use Rattle.mo_values.specs.Asked.{argument_of_size};
ghost use Rattle.mo_eval.specs.Calls.{make_arguments, read_sizes, made_size, made_ndims, made_fill, made_sized, made_function, made_call};
ghost use Rattle.mo_eval.specs.Seen.{AreThere, virtuals_at};
ghost use Rattle.mo_eval.specs.steps.Sites.{part_in, plain_in, elements_in, ask_of, scope_of, IsMade};
ghost use Rattle.mo_eval.specs.steps.Parts.{as_callee, as_part, made_arguments};
ghost use Rattle.mo_eval.specs.steps.Calling.{IsFirst, is_lone, filled_with, number_of_size, made_derivative, plain};

use crate::alone::read_size;
use crate::callee::{are_plain, function_named};
use crate::division::{Called, division};
use crate::reader::Reader;
use crate::resolve::{Site, operand, resolve};
use crate::virtuals::Virtual;
use mo_flat::{ArrayExpr, ArrayNode};
use mo_scope::Scopes;
use mo_syntax::{Arg, Args, Broken, Callee, Expr, List, NoMemory, Place, Stop, broken, rules};
use mo_tables::functions;
use mo_values::layers::answer;
use mo_values::making::{derivative_of, takes};
use std::alloc::Global;

/// All arguments, which are expressions.
#[cycle(resolving)]
pub(crate) fn arguments<'t>(
    reader: &mut Reader<'t>,
    s: &mut Scopes<'t>,
    site: &Site,
    args: &[Arg],
    virtuals: &mut List<Virtual<'t>>,
) -> Result<List<ArrayExpr>, Stop>
    requires frame { IsFrame s.old site.now.at.now.frame.0 }
    requires there { AreThere s.old virtuals.old }
    requires kept { IsKept s.old reader.old }
    ensures grows { Grows s.old s.new }
    ensures kept { IsKept s.new reader.new }
    ensures there { AreThere s.new virtuals.new }
    ensures exact { (parts : Seq PartOf) → plain_in s.old site.now args.now ≡ Some parts → IsMade s.new result virtuals.new (make_arguments site.now.context parts (virtuals_at s.old virtuals.old)) }
{
    let mut made = List::new(reader.alloc);
    for arg in args {
        let Arg::Value(e) = arg else {
            return Err(Stop::NoMemory);
        };
        let one = operand(reader, s, site, e, virtuals)?;
        made.push(one)?;
    }
    Ok(made)
}

/// The sizes that `fill`, `zeros`, `ones` and `identity` are given.
#[cycle(resolving)]
fn sizes<'t>(
    reader: &mut Reader<'t>,
    s: &mut Scopes<'t>,
    site: &Site,
    args: &[Arg],
) -> Result<List<(Place, i64)>, Stop>
    requires frame { IsFrame s.old site.now.at.now.frame.0 }
    requires kept { IsKept s.old reader.old }
    ensures grows { Grows s.old s.new }
    ensures kept { IsKept s.new reader.new }
    ensures exact { (parts : Seq PartOf) → plain_in s.old site.now args.now ≡ Some parts → Gives result (read_sizes (elements_in s.old site.now.left) site.now.context parts) }
{
    let mut made = List::new(reader.alloc);
    for arg in args {
        let Arg::Value(e) = arg else {
            return Err(Stop::NoMemory);
        };
        let one = read_size(reader, s, site, e)?;
        made.push(one)?;
    }
    Ok(made)
}

/// The first argument and those behind it; none where there is none, or where the first one is a function.
fn split(args: &[Arg]) -> Option<(&Expr, &[Arg])>
    ensures { (table : Table) (ask : Ask) (scope : Scope) (parts : Seq PartOf) → plain table ask scope args.now ≡ Some parts → MatchOption result (parts ≡ []) (λ it. IsFirst table ask scope it.0.now it.1.now parts) }
{
    match args {
        [] => None,
        [first, others @ ..] => match first {
            Arg::Value(e) => Some((e, others)),
            Arg::Partial(_, _) => None,
        },
    }
}

/// The one argument, None where there are none or more.
fn lone(args: &[Arg]) -> Option<&Expr>
    ensures { (table : Table) (ask : Ask) (scope : Scope) (parts : Seq PartOf) → plain table ask scope args.now ≡ Some parts → MatchOption result (is_lone parts ≡ false) (λ e. parts ≡ as_part table ask scope e.now ∷ []) }
{
    match split(args) {
        None => None,
        Some((e, others)) => match split(others) {
            None => Some(e),
            Some(_) => None,
        },
    }
}

/// The argument of `size` or `ndims`.
#[cycle(resolving)]
fn array<'t>(
    reader: &mut Reader<'t>,
    s: &mut Scopes<'t>,
    site: &Site,
    e: &Expr,
    virtuals: &mut List<Virtual<'t>>,
) -> Result<ArrayExpr, Stop>
    requires frame { IsFrame s.old site.now.at.now.frame.0 }
    requires there { AreThere s.old virtuals.old }
    requires kept { IsKept s.old reader.old }
    ensures grows { Grows s.old s.new }
    ensures kept { IsKept s.new reader.new }
    ensures there { AreThere s.new virtuals.new }
    ensures exact { IsMade s.new result virtuals.new ((part_in s.old site.now e.now).1 (argument_of_size site.now.context) (virtuals_at s.old virtuals.old)) }
{
    let inner = Site {
        at: site.at,
        left: site.left,
        room: site.room,
        context: site.context.argument_of_size(),
    };
    resolve(reader, s, &inner, e, virtuals)
}

/// What stands behind the array that `size` is given: nothing, or the number of a dimension. More break rule 33 once they are read.
#[cycle(resolving)]
fn number<'t>(
    reader: &mut Reader<'t>,
    s: &mut Scopes<'t>,
    site: &Site,
    place: Place,
    args: &[Arg],
    virtuals: &mut List<Virtual<'t>>,
) -> Result<Option<(Place, i64)>, Stop>
    requires frame { IsFrame s.old site.now.at.now.frame.0 }
    requires there { AreThere s.old virtuals.old }
    requires kept { IsKept s.old reader.old }
    ensures grows { Grows s.old s.new }
    ensures kept { IsKept s.new reader.new }
    ensures there { AreThere s.new virtuals.new }
    ensures exact { (parts : Seq PartOf) → plain_in s.old site.now args.now ≡ Some parts → IsMade s.new result virtuals.new (number_of_size (elements_in s.old site.now.left) site.now.context place parts (virtuals_at s.old virtuals.old)) }
{
    let Some((e, others)) = split(args) else {
        return Ok(None);
    };
    let n = read_size(reader, s, site, e)?;
    match split(others) {
        None => Ok(Some(n)),
        Some(_) => {
            arguments(reader, s, site, others, virtuals)?;
            Err(Stop::Broken(broken(rules::WRONG_TYPE, place)))
        }
    }
}

/// `size(A)` and `size(A, i)`.
#[cycle(resolving)]
fn size<'t>(
    reader: &mut Reader<'t>,
    s: &mut Scopes<'t>,
    site: &Site,
    place: Place,
    args: &[Arg],
    virtuals: &mut List<Virtual<'t>>,
) -> Result<ArrayNode, Stop>
    requires frame { IsFrame s.old site.now.at.now.frame.0 }
    requires there { AreThere s.old virtuals.old }
    requires kept { IsKept s.old reader.old }
    ensures grows { Grows s.old s.new }
    ensures kept { IsKept s.new reader.new }
    ensures there { AreThere s.new virtuals.new }
    ensures exact { (parts : Seq PartOf) → plain_in s.old site.now args.now ≡ Some parts → IsMade s.new result virtuals.new (made_size (elements_in s.old site.now.left) site.now.context place parts (virtuals_at s.old virtuals.old)) }
{
    let Some((e, others)) = split(args) else {
        return Err(Stop::Broken(broken(rules::WRONG_TYPE, place)));
    };
    let inner = array(reader, s, site, e, virtuals)?;
    let at = number(reader, s, site, place, others, virtuals)?;
    Ok(ArrayNode::Size(inner, at))
}

/// A list of one. `NoMemory` is the only other answer.
fn only(alloc: Global, e: ArrayExpr) -> Result<List<ArrayExpr>, NoMemory>
    ensures { IfOk result (λ made. made ≡ e ∷ []) }
{
    let mut made = List::new(alloc);
    made.push(e)?;
    Ok(made)
}

/// `ndims`, whose argument is resolved.
fn ndims_of(alloc: Global, inner: Result<ArrayExpr, Stop>) -> Result<ArrayNode, Stop>
    ensures { (world : World) (virtuals : Seq VirtualAt) (told : Outcome (ArrayTree × Seq VirtualSeen)) → IsMade world inner virtuals told → IsMade world result virtuals (and_then told (λ made. Ok (Call NDIMS (made.0 ∷ []), made.1))) }
{
    let inner = inner?;
    Ok(ArrayNode::Call(functions::NDIMS, only(alloc, inner)?))
}

/// `ndims`.
#[cycle(resolving)]
fn ndims<'t>(
    reader: &mut Reader<'t>,
    s: &mut Scopes<'t>,
    site: &Site,
    place: Place,
    args: &[Arg],
    virtuals: &mut List<Virtual<'t>>,
) -> Result<ArrayNode, Stop>
    requires frame { IsFrame s.old site.now.at.now.frame.0 }
    requires there { AreThere s.old virtuals.old }
    requires kept { IsKept s.old reader.old }
    ensures grows { Grows s.old s.new }
    ensures kept { IsKept s.new reader.new }
    ensures there { AreThere s.new virtuals.new }
    ensures exact { (parts : Seq PartOf) → plain_in s.old site.now args.now ≡ Some parts → IsMade s.new result virtuals.new (made_ndims site.now.context place parts (virtuals_at s.old virtuals.old)) }
{
    let Some(e) = lone(args) else {
        arguments(reader, s, site, args, virtuals)?;
        return Err(Stop::Broken(broken(rules::WRONG_TYPE, place)));
    };
    ndims_of(reader.alloc, array(reader, s, site, e, virtuals))
}

/// `fill`, whose arguments are resolved and read.
fn filled_with(
    place: Place,
    filling: ArrayExpr,
    sizes: List<(Place, i64)>,
) -> Result<ArrayNode, Broken>
    ensures { result ≡ filled_with place filling sizes }
{
    if sizes.is_empty() {
        return Err(broken(rules::WRONG_TYPE, place));
    }
    Ok(ArrayNode::Sized(functions::FILL, Some(filling), sizes))
}

/// `fill`.
#[cycle(resolving)]
fn fill<'t>(
    reader: &mut Reader<'t>,
    s: &mut Scopes<'t>,
    site: &Site,
    place: Place,
    args: &[Arg],
    virtuals: &mut List<Virtual<'t>>,
) -> Result<ArrayNode, Stop>
    requires frame { IsFrame s.old site.now.at.now.frame.0 }
    requires there { AreThere s.old virtuals.old }
    requires kept { IsKept s.old reader.old }
    ensures grows { Grows s.old s.new }
    ensures kept { IsKept s.new reader.new }
    ensures there { AreThere s.new virtuals.new }
    ensures exact { (parts : Seq PartOf) → plain_in s.old site.now args.now ≡ Some parts → IsMade s.new result virtuals.new (made_fill (elements_in s.old site.now.left) site.now.context place parts (virtuals_at s.old virtuals.old)) }
{
    let Some((e, others)) = split(args) else {
        return Err(Stop::Broken(broken(rules::WRONG_TYPE, place)));
    };
    let filling = operand(reader, s, site, e, virtuals)?;
    let numbers = sizes(reader, s, site, others)?;
    answer(filled_with(place, filling, numbers))
}

/// `identity`, `ones` and `zeros`.
#[cycle(resolving)]
fn sized<'t>(
    reader: &mut Reader<'t>,
    s: &mut Scopes<'t>,
    site: &Site,
    called: Called,
    args: &[Arg],
    virtuals: &[Virtual<'t>],
) -> Result<ArrayNode, Stop>
    requires frame { IsFrame s.old site.now.at.now.frame.0 }
    requires there { AreThere s.old virtuals.now }
    requires kept { IsKept s.old reader.old }
    ensures grows { Grows s.old s.new }
    ensures kept { IsKept s.new reader.new }
    ensures there { AreThere s.new virtuals.now }
    ensures exact { (parts : Seq PartOf) → plain_in s.old site.now args.now ≡ Some parts → IsMade s.new result virtuals.now (made_sized (elements_in s.old site.now.left) site.now.context called.place called.function parts (virtuals_at s.old virtuals.now)) }
{
    let numbers = sizes(reader, s, site, args)?;
    if !takes(called.function, numbers.len()) {
        return Err(Stop::Broken(broken(rules::WRONG_TYPE, called.place)));
    }
    Ok(ArrayNode::Sized(called.function, None, numbers))
}

/// The derivative of the one argument.
#[cycle(resolving)]
fn derivative<'t>(
    reader: &mut Reader<'t>,
    s: &mut Scopes<'t>,
    site: &Site,
    place: Place,
    args: &[Arg],
    virtuals: &mut List<Virtual<'t>>,
) -> Result<ArrayNode, Stop>
    requires frame { IsFrame s.old site.now.at.now.frame.0 }
    requires there { AreThere s.old virtuals.old }
    requires kept { IsKept s.old reader.old }
    ensures grows { Grows s.old s.new }
    ensures kept { IsKept s.new reader.new }
    ensures there { AreThere s.new virtuals.new }
    ensures exact { (parts : Seq PartOf) → plain_in s.old site.now args.now ≡ Some parts → IsMade s.new result virtuals.new (made_derivative site.now.context place parts (virtuals_at s.old virtuals.old)) }
{
    let operands = arguments(reader, s, site, args, virtuals)?;
    answer(derivative_of(place, operands))
}

/// A function whose arguments are operands.
fn applied(function: u16, operands: Result<List<ArrayExpr>, Stop>) -> Result<ArrayNode, Stop>
    ensures { (world : World) (virtuals : Seq VirtualAt) (told : Outcome (Seq ArrayTree × Seq VirtualSeen)) → IsMade world operands virtuals told → IsMade world result virtuals (and_then told (λ made. Ok (Call function made.0, made.1))) }
{
    let operands = operands?;
    Ok(ArrayNode::Call(function, operands))
}

fn is_sized(function: u16) -> bool
    ensures { result ≡ is_among (IDENTITY ∷ ONES ∷ ZEROS ∷ []) function }
{
    if function == functions::IDENTITY {
        return true;
    }
    if function == functions::ONES {
        return true;
    }
    function == functions::ZEROS
}

fn divides(function: u16) -> bool
    ensures { result ≡ is_among (DIV ∷ MOD ∷ REM ∷ []) function }
{
    if function == functions::DIV {
        return true;
    }
    if function == functions::MOD {
        return true;
    }
    function == functions::REM
}

/// A call of a predefined function.
#[cycle(resolving)]
fn function<'t>(
    reader: &mut Reader<'t>,
    s: &mut Scopes<'t>,
    site: &Site,
    called: Called,
    args: &[Arg],
    virtuals: &mut List<Virtual<'t>>,
) -> Result<ArrayNode, Stop>
    requires frame { IsFrame s.old site.now.at.now.frame.0 }
    requires there { AreThere s.old virtuals.old }
    requires kept { IsKept s.old reader.old }
    ensures grows { Grows s.old s.new }
    ensures kept { IsKept s.new reader.new }
    ensures there { AreThere s.new virtuals.new }
    ensures exact { (parts : Seq PartOf) → plain_in s.old site.now args.now ≡ Some parts → IsMade s.new result virtuals.new (made_function (elements_in s.old site.now.left) site.now.context called.place called.function parts (virtuals_at s.old virtuals.old)) }
{
    if called.function == functions::SIZE {
        return size(reader, s, site, called.place, args, virtuals);
    }
    if called.function == functions::NDIMS {
        return ndims(reader, s, site, called.place, args, virtuals);
    }
    if called.function == functions::FILL {
        return fill(reader, s, site, called.place, args, virtuals);
    }
    if is_sized(called.function) {
        return sized(reader, s, site, called, args, virtuals.as_slice());
    }
    if divides(called.function) {
        return division(reader, s, site, called, args, virtuals);
    }
    applied(called.function, arguments(reader, s, site, args, virtuals))
}

/// A call.
#[cycle(resolving)]
pub(crate) fn call<'t>(
    reader: &mut Reader<'t>,
    s: &mut Scopes<'t>,
    site: &Site,
    place: Place,
    callee: &Callee,
    args: &Args,
    virtuals: &mut List<Virtual<'t>>,
) -> Result<ArrayNode, Stop>
    requires frame { IsFrame s.old site.now.at.now.frame.0 }
    requires there { AreThere s.old virtuals.old }
    requires kept { IsKept s.old reader.old }
    ensures grows { Grows s.old s.new }
    ensures kept { IsKept s.new reader.new }
    ensures there { AreThere s.new virtuals.new }
    ensures exact { IsMade s.new result virtuals.new (made_call (table_in s.old) (scope_of s.old site.now) (elements_in s.old site.now.left) site.now.context place (as_callee (part_in s.old site.now) callee.now) (made_arguments (table_in s.old) (ask_of s.old site.now) (scope_of s.old site.now) args.now) (virtuals_at s.old virtuals.old)) }
{
    match callee {
        Callee::Named(reference) => {
            let function_code = function_named(reader.alloc, s, site, place, reference)?;
            if !are_plain(args) {
                return Err(Stop::Broken(broken(rules::OUTSIDE_PROFILE, place)));
            }
            let called = Called {
                place,
                function: function_code,
            };
            function(reader, s, site, called, args.plain.as_slice(), virtuals)
        }
        Callee::Der => {
            if !are_plain(args) {
                return Err(Stop::Broken(broken(rules::OUTSIDE_PROFILE, place)));
            }
            derivative(reader, s, site, place, args.plain.as_slice(), virtuals)
        }
        Callee::Initial => Err(Stop::Broken(broken(rules::OUTSIDE_PROFILE, place))),
        Callee::Pure => Err(Stop::Broken(broken(rules::OUTSIDE_PROFILE, place))),
    }
}
