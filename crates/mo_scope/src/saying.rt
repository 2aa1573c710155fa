//! What the sources of a frame say of a name: each argument that begins with it modifies the element or redeclares it.
ghost use Rattle.std.specs.Option.{option_to_list};
ghost use Rattle.std.specs.Prelude.{◌≡◌, ◌+◌, ◌<◌, ◌++◌, [], false, List as Seq, drop, flat_map, is_some, length, map, option_copied, IfOk, IfSome, IsSome, OnOk};
ghost use Rattle.std.specs.Str.{bytes_eq};
ghost use Rattle.mo_scope.specs.Frames.{Frame, Argued};
ghost use Rattle.mo_scope.specs.Mentions.{mention_seen, mentioned_seen, said_at, said_by};
ghost use Rattle.mo_scope.specs.Parts.{Redeclares, begins_with, behind_name, declared_in, held, pending_behind, said_behind, said_by_all, said_by_argument, said_by_element, said_further};
ghost use Rattle.mo_scope.specs.Rows.{replacing_in};
ghost use Rattle.mo_scope.specs.Sights.{given_seen, saying_in, source_seen, source_at};
ghost use Rattle.mo_scope.specs.Worlds.{frames_of, source_in, sources_in, table_in};

use crate::copies::{copied, copied_scope, copied_with, extend};
use crate::frame_sources::FrameSources;
use crate::mentions::{Mention, MentionedBy};
use crate::row::Declares;
use crate::scopes::Scopes;
use crate::source::{Given, Listing, Origin, Source};
use mo_syntax::{Argument, Element, Give, Item, List, NoMemory, Place, Text, both, pushed};
use std::alloc::Global;

/// A redeclaration of an element.
#[derive(Drop)]
pub struct Redeclaration<'t> {
    /// What declares the element anew.
    pub declares: Declares<'t>,
    /// Where it stands.
    pub place: Place,
    /// Whether the element stays replaceable.
    pub keeps: bool,
    /// The source that its modifiers are.
    pub source: Source<'t>,
}

/// What a source says of a name.
#[derive(Drop)]
pub(crate) enum Saying<'t> {
    Modifies(Source<'t>),
    Redeclares(Redeclaration<'t>),
}

/// An element that is asked for: its name, and the index at which it is entered.
#[derive(Clone, Copy)]
pub(crate) struct Asked<'a> {
    pub name: &'a Text,
    pub index: &'a [u32],
}

/// Whether two names are the same.
fn is_named(name: &Text, other: &Text) -> bool
    ensures { result ≡ bytes_eq name.now other.now }
{
    name.as_str() == other.as_str()
}

/// The first of the names behind so many, if it is that name.
pub(crate) fn named<'t>(names: &'t [Text], passed: usize, name: &Text) -> Option<&'t Text>
    ensures is { is_some result ≡ begins_with name.now (drop passed names.now) }
    ensures same { IfSome result (λ first. first.now ≡ name.now) }
    ensures below { IsSome result → passed < length names.now }
{
    match names.get(passed) {
        Some(first) => {
            if is_named(first, name) {
                Some(first)
            } else {
                None
            }
        }
        None => None,
    }
}

/// The list that stands behind the names of an argument of which so many were passed, empty where names are left or it redeclares.
pub fn nested_list(argument: &Argument, passed: usize) -> &[Argument]
    ensures { result.now ≡ (held (Argued argument.now passed)).list }
{
    if passed < argument.name.0.len() {
        return &[];
    }
    match &argument.give {
        Give::Modify(mods, _) => mods.0.as_slice(),
        Give::Redeclare(_) => &[],
        Give::Replaceable(_) => &[],
    }
}

/// The element of an item of a class that replaces an inherited one, None where it is none.
pub fn replacing(item: &Item) -> Option<&Element>
    ensures { option_to_list (option_copied result) ≡ replacing_in item.now }
{
    match item {
        Item::Member(element) => {
            if element.flags.redeclare {
                Some(element)
            } else {
                None
            }
        }
        Item::Import(_) => None,
        Item::Extends(_) => None,
        Item::Equations(_, _) => None,
        Item::Algorithm(_, _) => None,
    }
}

/// The indices at which values behind a name are still to be taken: `each` drops those that were pending.
pub fn pending_at(
    alloc: Global,
    each: bool,
    pending: &[u32],
    index: &[u32],
) -> Result<List<u32>, NoMemory>
    ensures { IfOk result (λ made. made ≡ pending_behind each pending.now index.now) }
{
    if each {
        return copied(alloc, index);
    }
    let mut made = copied(alloc, pending)?;
    extend(&mut made, index)?;
    Ok(made)
}

/// What is written before a name: `each`, `final`, and the index of the element that is entered by it.
#[derive(Clone, Copy)]
struct Entering<'a> {
    each: bool,
    last: bool,
    index: &'a [u32],
}

/// The source behind one more name.
fn source_behind<'t>(
    alloc: Global,
    source: &Source<'t>,
    name: &'t Text,
    entering: Entering<'_>,
    given: Given<'t>,
) -> Result<Source<'t>, NoMemory>
    ensures { IfOk result (λ made. (frames : Seq Frame) → source_in frames (source_seen made) ≡ behind_name (source_in frames (source_seen source.now)) name.now (pending_behind entering.entry.each source.now.pending entering.entry.index.now) entering.entry.last (given_seen given.entry)) }
{
    let (pending, passed) = both(
        pending_at(
            alloc,
            entering.each,
            source.pending.as_slice(),
            entering.index,
        ),
        copied_with(alloc, source.listing.passed.as_slice(), name),
    )?;
    let scope = copied_scope(alloc, &source.scope)?;
    Ok(Source {
        given,
        scope,
        pending,
        listing: Listing {
            place: source.listing.place,
            passed,
        },
        last: source.last || entering.last,
        outside: source.outside,
        origin: Origin::Elsewhere,
    })
}

impl<'t> Scopes<'t> {
    /// A redeclaration by an element of an argument.
    fn redeclaration_by(
        &self,
        argument: &'t Argument,
        element: &'t Element,
        keeps: bool,
        source: Source<'t>,
    ) -> Saying<'t>
        ensures { saying_in (frames_of self.now) result ≡ Redeclares (record { declares = declared_in (table_in self.now) element.now; place = argument.now.place; keeps = keeps; source = source_at self.now source.entry }) }
    {
        Saying::Redeclares(Redeclaration {
            declares: self.declared(element),
            place: argument.place,
            keeps,
            source,
        })
    }

    /// What an argument says where so many of its names are passed: it redeclares, or its source is what is left of it.
    fn said_behind(&self, argument: &'t Argument, passed: usize, source: Source<'t>) -> Saying<'t>
        ensures { saying_in (frames_of self.now) result ≡ said_behind (table_in self.now) argument.now passed (source_at self.now source.entry) }
    {
        if passed < argument.name.0.len() {
            return Saying::Modifies(source);
        }
        match &argument.give {
            Give::Modify(_, _) => Saying::Modifies(source),
            Give::Redeclare(element) => {
                self.redeclaration_by(argument, element, element.flags.replaceable, source)
            }
            Give::Replaceable(element) => self.redeclaration_by(argument, element, true, source),
        }
    }

    /// What an argument says that has passed one more name, with what is written before it.
    fn said_with(
        &self,
        alloc: Global,
        source: &Source<'t>,
        argument: &'t Argument,
        passed: usize,
        name: &'t Text,
        entering: Entering<'_>,
    ) -> Result<Saying<'t>, NoMemory>
        ensures { IfOk result (λ saying. saying_in (frames_of self.now) saying ≡ said_behind (table_in self.now) argument.now passed (behind_name (source_at self.now source.now) name.now (pending_behind entering.entry.each source.now.pending entering.entry.index.now) entering.entry.last (Argued argument.now passed))) }
    {
        let given = Given::Argued { argument, passed };
        let behind = source_behind(alloc, source, name, entering, given)?;
        Ok(self.said_behind(argument, passed, behind))
    }

    /// Adds what an argument of a modifier list says.
    fn said_by_argument(
        &self,
        alloc: Global,
        source: &Source<'t>,
        argument: &'t Argument,
        asked: &Asked<'_>,
        made: &mut List<Saying<'t>>,
    ) -> Result<(), NoMemory>
        ensures { OnOk result (map (saying_in (frames_of self.now)) made.new ≡ map (saying_in (frames_of self.now)) made.old ++ said_by_argument (table_in self.now) (source_at self.now source.now) asked.now.name.now asked.now.index.now argument.now) }
    {
        match named(argument.name.0.as_slice(), 0, asked.name) {
            Some(first) => {
                let entering = Entering {
                    each: argument.each,
                    last: argument.last,
                    index: asked.index,
                };
                let said = self.said_with(alloc, source, argument, 1, first, entering);
                pushed(made, said)
            }
            None => Ok(()),
        }
    }

    /// Adds what an argument says of which so many names were passed.
    fn said_further(
        &self,
        alloc: Global,
        source: &Source<'t>,
        argument: &'t Argument,
        passed: usize,
        asked: &Asked<'_>,
        made: &mut List<Saying<'t>>,
    ) -> Result<(), NoMemory>
        ensures { OnOk result (map (saying_in (frames_of self.now)) made.new ≡ map (saying_in (frames_of self.now)) made.old ++ said_further (table_in self.now) (source_at self.now source.now) asked.now.name.now asked.now.index.now argument.now passed) }
    {
        match named(argument.name.0.as_slice(), passed, asked.name) {
            Some(first) => {
                let entering = Entering {
                    each: false,
                    last: false,
                    index: asked.index,
                };
                let said = self.said_with(alloc, source, argument, passed + 1, first, entering);
                pushed(made, said)
            }
            None => Ok(()),
        }
    }

    /// Adds what an element with `redeclare` says.
    fn said_by_element(
        &self,
        alloc: Global,
        source: &Source<'t>,
        element: &'t Element,
        asked: &Asked<'_>,
        made: &mut List<Saying<'t>>,
    ) -> Result<(), NoMemory>
        ensures { OnOk result (map (saying_in (frames_of self.now)) made.new ≡ map (saying_in (frames_of self.now)) made.old ++ said_by_element (table_in self.now) (source_at self.now source.now) asked.now.name.now asked.now.index.now (declared_in (table_in self.now) element.now)) }
    {
        let declares = self.declared(element);
        if !is_named(declares.name, asked.name) {
            return Ok(());
        }
        let entering = Entering {
            each: false,
            last: declares.flags.last,
            index: asked.index,
        };
        let given = Given::Listed(declares.own);
        let behind = source_behind(alloc, source, declares.name, entering, given)?;
        made.push(Saying::Redeclares(Redeclaration {
            declares,
            place: declares.place,
            keeps: declares.flags.replaceable,
            source: behind,
        }))
    }

    /// Adds what a source says by what it mentions an element by.
    fn said_by(
        &self,
        alloc: Global,
        source: &Source<'t>,
        by: MentionedBy<'t>,
        asked: &Asked<'_>,
        made: &mut List<Saying<'t>>,
    ) -> Result<(), NoMemory>
        ensures { OnOk result (map (saying_in (frames_of self.now)) made.new ≡ map (saying_in (frames_of self.now)) made.old ++ said_by (table_in self.now) asked.now.name.now asked.now.index.now (source_at self.now source.now) (mentioned_seen by.entry)) }
    {
        match by {
            MentionedBy::Argument(argument) => {
                self.said_by_argument(alloc, source, argument, asked, made)
            }
            MentionedBy::Rest { argument, passed } => {
                self.said_further(alloc, source, argument, passed, asked, made)
            }
            MentionedBy::Replacing(element) => {
                self.said_by_element(alloc, source, element, asked, made)
            }
        }
    }

    /// Adds what is said at a mention by one of some sources.
    fn said_at(
        &self,
        alloc: Global,
        sources: &FrameSources<'t>,
        mention: &Mention<'t>,
        asked: &Asked<'_>,
        made: &mut List<Saying<'t>>,
    ) -> Result<(), NoMemory>
        ensures { OnOk result (map (saying_in (frames_of self.now)) made.new ≡ map (saying_in (frames_of self.now)) made.old ++ said_at (table_in self.now) asked.now.name.now asked.now.index.now (sources_in (frames_of self.now) sources.now) (mention_seen mention.now)) }
    {
        match sources.get(mention.source) {
            Some(source) => self.said_by(alloc, source, mention.by, asked, made),
            None => Ok(()),
        }
    }

    /// What is said of an element at these mentions of it.
    fn sayings_at(
        &self,
        alloc: Global,
        sources: &FrameSources<'t>,
        mentions: &[Mention<'t>],
        asked: &Asked<'_>,
    ) -> Result<List<Saying<'t>>, NoMemory>
        ensures { IfOk result (λ made. map (saying_in (frames_of self.now)) made ≡ flat_map (said_at (table_in self.now) asked.now.name.now asked.now.index.now (sources_in (frames_of self.now) sources.now)) (map mention_seen mentions.now)) }
    {
        let mut made = List::new(alloc);
        for mention in mentions {
            self.said_at(alloc, sources, mention, asked, &mut made)?;
        }
        Ok(made)
    }

    /// All that sources say of an element, in their order. Only what speaks of it is read.
    pub(crate) fn sayings(
        &self,
        alloc: Global,
        sources: &FrameSources<'t>,
        asked: &Asked<'_>,
    ) -> Result<List<Saying<'t>>, NoMemory>
        ensures { IfOk result (λ made. map (saying_in (frames_of self.now)) made ≡ said_by_all (table_in self.now) asked.now.name.now asked.now.index.now (sources_in (frames_of self.now) sources.now)) }
    {
        match sources.mentions(asked.name) {
            Some(mentions) => self.sayings_at(alloc, sources, mentions.as_slice(), asked),
            None => Ok(List::new(alloc)),
        }
    }
}
