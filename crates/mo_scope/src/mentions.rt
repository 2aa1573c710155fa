//! Where the sources of a frame speak of its elements, by the names of these.
ghost use Rattle.std.specs.Prelude.{◌≡◌, ◌++◌, ◌∷◌, [], List as Seq, ℕ, flat_map, if◌then◌else◌, map, option_copied, IfOk, OnOk};
ghost use Rattle.std.specs.Str.{bytes_eq};
ghost use Rattle.mo_scope.specs.Frames.{Argued};
ghost use Rattle.mo_scope.specs.Mentions.{AreMentions, By_argument, By_element, By_rest, if_of, mention_by, mention_seen, mentioned_by, mentions_held, mentions_or_none};
ghost use Rattle.mo_scope.specs.Parts.{begins_with, held, names_left};
ghost use Rattle.mo_scope.specs.Rows.{declared_by as element_declared, replacing_in};
ghost use Rattle.mo_scope.specs.Sights.{given_seen, source_seen};

use crate::declaring::declared_by;
use crate::saying::{nested_list, replacing};
use crate::source::{Given, Source};
use mo_syntax::{Argument, Element, Item, List, NoMemory, Text};
use std::alloc::Global;
use std::collections::HashMap;

/// By what an element is mentioned.
#[derive(Clone, Copy)]
pub(crate) enum MentionedBy<'t> {
    /// An argument of a modifier list.
    Argument(&'t Argument),
    /// An argument of which so many names were passed.
    Rest {
        argument: &'t Argument,
        passed: usize,
    },
    /// An element with `redeclare`.
    Replacing(&'t Element),
}

/// An element is mentioned by a source, before which so many stand.
#[derive(Clone, Copy)]
pub(crate) struct Mention<'t> {
    pub source: usize,
    pub by: MentionedBy<'t>,
}

/// The mentions of each name, in their order.
#[derive(Drop)]
pub(crate) struct Mentions<'t> {
    by_name: HashMap<&'t str, List<Mention<'t>>>,
}

/// The mentions that were under a name, none where there were none.
fn or_none<'t>(alloc: Global, mentions: Option<List<Mention<'t>>>) -> List<Mention<'t>>
    ensures { map mention_seen result ≡ mentions_or_none mentions.entry }
{
    match mentions {
        Some(mentions) => mentions,
        None => List::new(alloc),
    }
}

/// The name of an element.
fn name_of(element: &Element) -> &Text
    ensures { result.now ≡ (element_declared element.now 0).name }
{
    declared_by(element, 0).name
}

impl<'t> Mentions<'t> {
    /// No name is mentioned.
    fn new(alloc: Global) -> Mentions<'t>
        ensures { (name : Seq ℕ) → mentions_held result name ≡ [] }
    {
        Mentions {
            by_name: HashMap::new(alloc),
        }
    }

    /// Puts a mention behind those of a name.
    fn put(&mut self, alloc: Global, name: &'t str, mention: Mention<'t>) -> Result<(), NoMemory>
        ensures { OnOk result ((other : Seq ℕ) → mentions_held self.new other ≡ mentions_held self.old other ++ (if bytes_eq name.now other then mention_seen mention.entry ∷ [] else [])) }
    {
        let mut mentions = or_none(alloc, self.by_name.remove(name));
        mentions.push(mention)?;
        self.by_name.insert(name, mentions)?;
        Ok(())
    }

    /// Puts a mention by an argument behind those of the first name that is left, if one is.
    fn put_argument(
        &mut self,
        alloc: Global,
        argument: &'t Argument,
        passed: usize,
        mention: Mention<'t>,
    ) -> Result<(), NoMemory>
        ensures { OnOk result ((other : Seq ℕ) → mentions_held self.new other ≡ mentions_held self.old other ++ (if begins_with other (names_left argument.now passed) then mention_seen mention.entry ∷ [] else [])) }
    {
        match argument.name.0.get(passed) {
            Some(name) => self.put(alloc, name.as_str(), mention),
            None => Ok(()),
        }
    }

    /// Puts a mention behind those of the name that it is of.
    fn add(&mut self, alloc: Global, mention: Mention<'t>) -> Result<(), NoMemory>
        ensures { OnOk result ((other : Seq ℕ) → mentions_held self.new other ≡ mentions_held self.old other ++ if_of other (mention_seen mention.entry)) }
    {
        match mention.by {
            MentionedBy::Argument(argument) => self.put_argument(alloc, argument, 0, mention),
            MentionedBy::Rest { argument, passed } => {
                self.put_argument(alloc, argument, passed, mention)
            }
            MentionedBy::Replacing(element) => {
                self.put(alloc, name_of(element).as_str(), mention)
            }
        }
    }

    /// Adds the arguments of a modifier list.
    fn add_list(
        &mut self,
        alloc: Global,
        source: usize,
        list: &'t [Argument],
    ) -> Result<(), NoMemory>
        ensures { OnOk result ((other : Seq ℕ) → mentions_held self.new other ≡ mentions_held self.old other ++ flat_map (λ argument. if_of other (mention_by source (By_argument argument))) list.now) }
    {
        for argument in list {
            let by = MentionedBy::Argument(argument);
            self.add(alloc, Mention { source, by })?;
        }
        Ok(())
    }

    /// Adds an argument of which so many names were passed, or the arguments of the list behind them.
    fn add_rest(
        &mut self,
        alloc: Global,
        source: usize,
        argument: &'t Argument,
        passed: usize,
    ) -> Result<(), NoMemory>
        ensures { OnOk result ((other : Seq ℕ) → mentions_held self.new other ≡ mentions_held self.old other ++ (if_of other (mention_by source (By_rest argument.now passed)) ++ flat_map (λ argument. if_of other (mention_by source (By_argument argument))) (held (Argued argument.now passed)).list)) }
    {
        let by = MentionedBy::Rest { argument, passed };
        self.add(alloc, Mention { source, by })?;
        self.add_list(alloc, source, nested_list(argument, passed))
    }

    /// Adds an item of a class, if it is an element with `redeclare`.
    fn add_item(&mut self, alloc: Global, source: usize, item: &'t Item) -> Result<(), NoMemory>
        ensures { OnOk result ((other : Seq ℕ) → mentions_held self.new other ≡ mentions_held self.old other ++ flat_map (λ element. if_of other (mention_by source (By_element element))) (replacing_in item.now)) }
    {
        match replacing(item) {
            Some(element) => {
                let by = MentionedBy::Replacing(element);
                self.add(alloc, Mention { source, by })
            }
            None => Ok(()),
        }
    }

    /// Adds the elements with `redeclare` among the items of a class.
    fn add_items(&mut self, alloc: Global, source: usize, items: &'t [Item]) -> Result<(), NoMemory>
        ensures { OnOk result ((other : Seq ℕ) → mentions_held self.new other ≡ mentions_held self.old other ++ flat_map (λ element. if_of other (mention_by source (By_element element))) (flat_map replacing_in items.now)) }
    {
        for item in items {
            self.add_item(alloc, source, item)?;
        }
        Ok(())
    }

    /// Adds what a source speaks of, before which so many stand.
    fn add_source(
        &mut self,
        alloc: Global,
        number: usize,
        source: &Source<'t>,
    ) -> Result<(), NoMemory>
        ensures { OnOk result ((other : Seq ℕ) → mentions_held self.new other ≡ mentions_held self.old other ++ flat_map (if_of other) (map (mention_by number) (mentioned_by (given_seen source.now.given)))) }
    {
        match source.given {
            Given::Listed(modifiers) => self.add_list(alloc, number, modifiers.list),
            Given::Argued { argument, passed } => self.add_rest(alloc, number, argument, passed),
            Given::Replacing(items) => self.add_items(alloc, number, items),
        }
    }

    /// The mentions of a name, None where there are none.
    pub fn under(&self, name: &Text) -> Option<&List<Mention<'t>>>
        ensures { mentions_or_none (option_copied result) ≡ mentions_held self.now name.now }
    {
        self.by_name.get(name.as_str())
    }
}

/// What sources speak of: one pass over all of their arguments.
pub(crate) fn mentions_among<'t>(
    alloc: Global,
    sources: &[Source<'t>],
) -> Result<Mentions<'t>, NoMemory>
    ensures { IfOk result (λ made. AreMentions (map source_seen sources.now) made) }
{
    let mut made = Mentions::new(alloc);
    for number in 0..sources.len() {
        made.add_source(alloc, number, &sources[number])?;
    }
    Ok(made)
}
