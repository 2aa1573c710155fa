//! What single calls give over the frame of a class.
ghost use Rattle.mo_scope.specs.Worlds.{Grows, IsFrame};
ghost use Rattle.mo_names.specs.Sights.{IsFound, IsMember};
ghost use Rattle.mo_grammar.specs.Lexeme.{lexemes};
ghost use Rattle.mo_parse_class.specs.WholeFiles.{EndsAtEnd};
ghost use Rattle.mo_syntax.specs.SoundTree.{IsSoundTree};
ghost use Rattle.std.specs.Prelude.{IfOk};

use crate::telling::{put, put_number};
use itoa::Buffer;
use mo_eval::{Reader, Value};
use mo_lookup::{child, elements, enter_component, find};
use mo_mods::{MergedEnv, merge};
use mo_names::Found;
use mo_parse_class::stored_definition;
use mo_scope::{Member, ScopeAt, Scopes};
use mo_syntax::{ClassTree, Expr, FrameId, List, NoMemory, Place, Stop, Text, Token, single};
use mo_unparse::expr_text;
use std::alloc::Global;

/// Where a name is asked that stands in no file.
const NOWHERE: Place = Place { file: 0, byte: 0 };

/// A word, the class at the top that it is about, an element of it and an element of this, each empty where there is none.
#[derive(Drop)]
pub(crate) struct Question<'w> {
    pub word: &'w str,
    pub class: Text,
    pub element: Text,
    pub part: Text,
}

/// Whether the word asks for what a call gives over the frame of a class.
pub(crate) fn is_of_class(word: &str) -> bool {
    matches!(
        word,
        "elements" | "find" | "child" | "value" | "sizes" | "sources" | "modifier"
    )
}

/// Writes a text and a line feed.
fn put_line(out: &mut Vec<u8>, text: &str) -> Result<(), NoMemory> {
    put(out, text)?;
    put(out, "\n")
}

/// Writes the names of the elements of a frame.
fn put_elements(
    alloc: Global,
    out: &mut Vec<u8>,
    s: &mut Scopes,
    frame: FrameId,
) -> Result<(), Stop>
    requires { IsFrame s.old frame.0 }
{
    let members = elements(alloc, s, frame)?;
    for member in members.as_slice() {
        put_line(out, member.name.as_str())?;
    }
    Ok(())
}

/// What a name finds in a frame.
fn found<'t>(
    alloc: Global,
    s: &mut Scopes<'t>,
    frame: FrameId,
    name: &Text,
) -> Result<Found<'t>, Stop>
    requires { IsFrame s.old frame.0 }
    ensures grows { Grows s.old s.new }
    ensures stand { IfOk result (IsFound s.new) }
{
    let at = ScopeAt {
        frame,
        iters: List::new(alloc),
    };
    find(alloc, s, &at, name, NOWHERE)
}

/// What sort of thing was found.
fn sort_of(found: &Found) -> &'static str {
    match found {
        Found::Component(_, _) => "component",
        Found::Class(_, _) => "class",
        Found::Literal(_, _) => "literal",
        Found::Iteration(_) => "iteration variable",
        Found::Function(_) => "function",
        Found::Time => "time",
    }
}

/// Writes the name of the class of a frame.
fn put_class(out: &mut Vec<u8>, s: &Scopes, frame: FrameId) -> Result<(), NoMemory>
    requires { IsFrame s.now frame.0 }
{
    match s.row(s.class_of(frame)) {
        Some(row) => put_line(out, row.class.name.as_str()),
        None => put_line(out, "predefined"),
    }
}

/// The frame of the class of an element.
fn class_of_child(
    alloc: Global,
    s: &mut Scopes,
    frame: FrameId,
    name: &Text,
) -> Result<FrameId, Stop>
    requires { IsFrame s.old frame.0 }
    ensures { IfOk result (λ class. IsFrame s.new class.0) }
{
    match child(alloc, s, frame, name, &[]) {
        Ok(entered) => Ok(entered.class),
        Err(stop) => Err(stop),
    }
}

/// Writes the name of the class of an element.
fn put_child(
    alloc: Global,
    out: &mut Vec<u8>,
    s: &mut Scopes,
    frame: FrameId,
    name: &Text,
) -> Result<(), Stop>
    requires { IsFrame s.old frame.0 }
{
    let class = class_of_child(alloc, s, frame, name)?;
    Ok(put_class(out, s, class)?)
}

/// Writes what is known of an expression.
fn put_known(out: &mut Vec<u8>, value: Value) -> Result<(), NoMemory> {
    match value {
        Value::Whole(number) => put(out, Buffer::new().format(number)),
        Value::Truth(true) => put(out, "true"),
        Value::Truth(false) => put(out, "false"),
        Value::Literal(_, place) => put_number(out, place as usize),
        Value::Undecided(_) => put(out, "undecided"),
    }
}

/// Writes the value of an expression of a frame's class.
fn put_value(
    alloc: Global,
    out: &mut Vec<u8>,
    s: &mut Scopes,
    frame: FrameId,
    e: &Expr,
) -> Result<(), Stop>
    requires { IsFrame s.old frame.0 }
{
    let at = ScopeAt {
        frame,
        iters: List::new(alloc),
    };
    match Reader::new(alloc).value(s, &at, e, &[]) {
        Ok(value) => Ok(put_known(out, value)?),
        Err(stop) => Err(stop),
    }
}

/// Writes the dimensions of an expression of a frame's class, a line each.
fn put_sizes(
    alloc: Global,
    out: &mut Vec<u8>,
    s: &mut Scopes,
    frame: FrameId,
    e: &Expr,
) -> Result<(), Stop>
    requires { IsFrame s.old frame.0 }
{
    let at = ScopeAt {
        frame,
        iters: List::new(alloc),
    };
    let sizes = Reader::new(alloc).sizes(s, &at, e)?;
    for size in sizes.as_slice() {
        put_line(out, Buffer::new().format(*size))?;
    }
    Ok(())
}

/// Writes how many lists of modifiers speak of an element of a component.
fn put_sources(
    alloc: Global,
    out: &mut Vec<u8>,
    s: &Scopes,
    frame: FrameId,
    part: &Text,
) -> Result<(), NoMemory>
    requires { IsFrame s.now frame.0 }
{
    let sources = s.child_sources(alloc, frame, part, &[])?;
    put_number(out, sources.len())
}

/// Writes the value of a table, if it has one.
fn put_merged(alloc: Global, out: &mut Vec<u8>, env: &MergedEnv) -> Result<(), NoMemory> {
    match env.binding(&[]) {
        Some(picked) => put_line(out, expr_text(alloc, picked.value)?.as_str()),
        None => Ok(()),
    }
}

/// Writes the value that a table gives an element.
fn put_below(
    alloc: Global,
    out: &mut Vec<u8>,
    env: &MergedEnv,
    part: &Text,
) -> Result<(), NoMemory> {
    match env.step_in(alloc, part, &[]) {
        Ok(below) => put_merged(alloc, out, &below),
        Err(error) => Err(error),
    }
}

/// Writes the value that modifiers give an element of a component.
fn put_modifier(
    alloc: Global,
    out: &mut Vec<u8>,
    s: &Scopes,
    frame: FrameId,
    part: &Text,
) -> Result<(), Stop>
    requires { IsFrame s.now frame.0 }
{
    match merge(s, alloc, frame) {
        Ok(env) => Ok(put_below(alloc, out, &env, part)?),
        Err(stop) => Err(stop),
    }
}

/// Writes what is asked of a component, which is entered.
fn put_entered<'t>(
    alloc: Global,
    out: &mut Vec<u8>,
    s: &mut Scopes<'t>,
    member: &Member<'t>,
    question: &Question,
) -> Result<(), Stop>
    requires { IsMember s.old member.now }
{
    let frame = enter_component(alloc, s, member, &[])?;
    match question.word {
        "sources" => Ok(put_sources(alloc, out, s, frame, &question.part)?),
        _ => put_modifier(alloc, out, s, frame, &question.part),
    }
}

/// Writes what is asked of a component of a frame: the value or the sizes of the expression that stands behind its name, or what speaks of an
/// element of it.
fn put_component<'t>(
    alloc: Global,
    out: &mut Vec<u8>,
    s: &mut Scopes<'t>,
    frame: FrameId,
    member: &Member<'t>,
    question: &Question,
) -> Result<(), Stop>
    requires frame { IsFrame s.old frame.0 }
    requires member { IsMember s.old member.now }
{
    match (question.word, member.declares.own.value) {
        ("value", Some(e)) => put_value(alloc, out, s, frame, e),
        ("sizes", Some(e)) => put_sizes(alloc, out, s, frame, e),
        _ => put_entered(alloc, out, s, member, question),
    }
}

/// Writes what is asked of what the name of an element has found.
fn put_told<'t>(
    alloc: Global,
    out: &mut Vec<u8>,
    s: &mut Scopes<'t>,
    frame: FrameId,
    found: &Found<'t>,
    question: &Question,
) -> Result<(), Stop>
    requires frame { IsFrame s.old frame.0 }
    requires found { IsFound s.old found.now }
{
    if question.word == "find" {
        return Ok(put_line(out, sort_of(found))?);
    }
    match found {
        Found::Component(_, member) => put_component(alloc, out, s, frame, member, question),
        _ => Err(Stop::NoMemory),
    }
}

/// Writes what is asked of what the name of an element finds.
fn put_found(
    alloc: Global,
    out: &mut Vec<u8>,
    s: &mut Scopes,
    frame: FrameId,
    question: &Question,
) -> Result<(), Stop>
    requires { IsFrame s.old frame.0 }
{
    match found(alloc, s, frame, &question.element) {
        Ok(found) => put_told(alloc, out, s, frame, &found, question),
        Err(stop) => Err(stop),
    }
}

/// Writes what is asked of a frame.
fn put_frame(
    alloc: Global,
    out: &mut Vec<u8>,
    s: &mut Scopes,
    frame: FrameId,
    question: &Question,
) -> Result<(), Stop>
    requires { IsFrame s.old frame.0 }
{
    match question.word {
        "elements" => put_elements(alloc, out, s, frame),
        "child" => put_child(alloc, out, s, frame, &question.element),
        _ => put_found(alloc, out, s, frame, question),
    }
}

/// Writes what is asked of a class at the top.
fn put_top(
    alloc: Global,
    out: &mut Vec<u8>,
    s: &mut Scopes,
    question: &Question,
) -> Result<(), Stop> {
    match s.top_class(&question.class) {
        Some(class) => {
            let frame = s.enter(alloc, class, List::new(alloc), None, None, None)?;
            put_frame(alloc, out, s, frame, question)
        }
        None => Err(Stop::NoMemory),
    }
}

/// Writes what is asked of a class of these files.
fn put_tree(
    alloc: Global,
    out: &mut Vec<u8>,
    tree: &ClassTree,
    question: &Question,
) -> Result<(), Stop>
    requires { IsSoundTree tree.now.files }
{
    let mut s = Scopes::new(alloc, tree)?;
    put_top(alloc, out, &mut s, question)
}

/// The class tree of the file whose tokens these are.
#[tactic(auto, using(crate::proofs::OneFile::one_sound))]
fn tree_of(alloc: Global, tokens: &[Token]) -> Result<ClassTree, Stop>
    requires { EndsAtEnd (lexemes tokens.now) }
    ensures { IfOk result (λ tree. IsSoundTree tree.files) }
{
    let file = stored_definition(alloc, tokens)?;
    let files = single(alloc, file)?;
    Ok(ClassTree { files })
}

/// Writes what is asked of a class of the file whose tokens these are.
pub(crate) fn put_of_class(
    alloc: Global,
    out: &mut Vec<u8>,
    tokens: &[Token],
    question: &Question,
) -> Result<(), Stop>
    requires { EndsAtEnd (lexemes tokens.now) }
{
    let tree = tree_of(alloc, tokens)?;
    put_tree(alloc, out, &tree, question)
}
