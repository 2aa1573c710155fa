//! Frames by number, and the tables of their elements.
ghost use Rattle.std.specs.Prelude.{◌≡◌, List as Seq, ◌+◌, ◌<◌, [], ◌∷◌, ◌++◌, length, map, Some, None, option_map, slice_get, IfOk, IfSome, IsSome, ℕ, OnErr, IsTrue, IsNone, ◌↔◌, set, option_copied, Ok};
ghost use Rattle.mo_syntax.specs.SoundTree.{IsSoundTree};
ghost use Rattle.mo_scope.specs.Frames.{class_of, sources_of, outer_of, at_of, owner_of, is_top, In, gathered};
ghost use Rattle.mo_scope.specs.Rows.{number_of_classes, row_at, number_at, number_of_element, class_number, top_number};
ghost use Rattle.mo_scope.specs.Extending.{is_extending};
ghost use Rattle.mo_scope.specs.KeptBases.{EntersBase};
ghost use Rattle.mo_scope.specs.KeptClasses.{FindsClass};
ghost use Rattle.mo_scope.specs.Lookup.{named, own_members};
ghost use Rattle.mo_scope.specs.Names.{component_entered as entered_as};
ghost use Rattle.mo_scope.specs.Own.{IsOwnElement};
ghost use Rattle.mo_scope.specs.Parts.{declared_in};
ghost use Rattle.mo_scope.specs.Sights.{source_seen, row_seen, declares_seen, frame_at_or_top, member_at, sources_at};
ghost use Rattle.mo_scope.specs.Entries.{entry_seen, table_seen, number_of};
ghost use Rattle.mo_scope.specs.Worlds.{MemberEntry, IsTable, AreFrames, AreHomes, kept_table, IsFrameOrNone, IsFrame, IsEntry, Grows, frame_at, frame_of_entry, frames_of, sources_in, table_in, AreElements};
ghost use Rattle.mo_scope.specs.Calls.{RowExists, bare_frame, IsBareEntry, IsEnteredFrame, IsOldOrNext};

use crate::classes::Classes;
use crate::declaring::declared_by;
use crate::entered::{Entered, standing_of};
use crate::entered_bases::EnteredBases;
use crate::entered_components::EnteredComponents;
use crate::found_classes::{AskedName, FoundClasses};
use crate::frame::FrameData;
use crate::frame_sources::FrameSources;
use crate::row::{Declares, Member, Row};
use crate::source::Source;
use crate::table::MemberTable;
use mo_syntax::{
    ClassId, ClassTree, Element, FrameId, InstancePath, List, NoMemory, Place, Text, What,
};
use std::alloc::Global;
use std::marker::Model;

/// Frames by number, and the tables of their elements.
#[derive(Drop)]
pub struct Scopes<'t> {
    tree: &'t ClassTree,
    classes: Classes<'t>,
    frames: Vec<FrameData<'t>>,
    entered: Entered,
    found: FoundClasses,
    components: EnteredComponents,
    bases: EnteredBases,
    depth: u32,
}

/// How deep calls stand one within the other at most, in units of a class whose bases are being found: more is want of memory.
pub const DEPTH_LIMIT: u32 = 5_200;

impl<'t> Model for Scopes<'t> {
    ghost use Rattle.mo_scope.specs.Worlds.{World};
    ghost use Rattle.mo_syntax.specs.contracts.class.Body as body;
    ghost use Rattle.mo_syntax.specs.contracts.class.Give as give;
    ghost use Rattle.mo_syntax.specs.contracts.class.What as what;
    ghost use Rattle.mo_syntax.specs.contracts.expr.Expr as expr;
    ghost use Rattle.std.specs.Coded.{codes};

    ghost Value = { World };

    ghost coded = { Prim.hlevel (codes, body.the_row.coded, give.the_row.coded, what.the_row.coded, expr.the_row.coded) };

    ghost use Rattle.mo_scope.specs.Insides.{world_of, IsSoundInside};

    ghost view = { world_of };

    ghost invariant = { IsSoundInside };
}

impl<'t> Scopes<'t> {
    /// No frames, of that class tree, which is sound.
    pub fn new(alloc: Global, tree: &'t ClassTree) -> Result<Scopes<'t>, NoMemory>
        requires sound { IsSoundTree tree.now.files }
        ensures files { IfOk result (λ scopes. scopes.files ≡ tree.now.files) }
        ensures entries { IfOk result (λ scopes. scopes.entries ≡ []) }
    {
        Ok(Scopes {
            tree,
            classes: Classes::new(alloc, tree.files.as_slice())?,
            frames: Vec::new(alloc),
            entered: Entered::new(alloc),
            found: FoundClasses::new(alloc),
            components: EnteredComponents::new(alloc),
            bases: EnteredBases::new(alloc),
            depth: 0,
        })
    }

    /// How deep calls stand one within the other, in units of a class whose bases are being found. No clause speaks of it: it
    /// keeps calls within the stack.
    pub fn depth(&self) -> u32 {
        self.depth
    }

    /// Goes so many units deeper. Past `DEPTH_LIMIT` is want of memory, and leaves the depth as it was.
    pub fn descend(&mut self, units: u32) -> Result<(), NoMemory>
        ensures { self.new ≡ self.old }
    {
        let depth = self.depth.saturating_add(units);
        if depth > DEPTH_LIMIT {
            return Err(NoMemory);
        }
        self.depth = depth;
        Ok(())
    }

    /// Comes back by so many units.
    pub fn ascend(&mut self, units: u32)
        ensures { self.new ≡ self.old }
    {
        self.depth = self.depth.saturating_sub(units);
    }

    /// The class tree that the frames are of.
    pub fn tree(&self) -> &'t ClassTree
        ensures is { result.now.files ≡ self.now.files }
        ensures sound { IsSoundTree result.now.files }
    {
        self.tree
    }

    /// The row of a class, None of a predefined type.
    pub fn row(&self, class: ClassId) -> Option<&Row<'t>>
        ensures is { option_map row_seen (option_copied result) ≡ row_at (table_in self.now) class.0 }
        ensures exist { IfSome result (λ row. RowExists self.now row.now) }
    {
        if class.0 < 6 {
            return None;
        }
        self.classes.rows.get((class.0 - 6) as usize)
    }

    /// The first element of that name that the class of a frame declares itself, None where it declares none.
    pub fn own_member(&self, frame: FrameId, name: &Text) -> Option<Member<'t>>
        requires { IsFrame self.now frame.0 }
        ensures is { option_map (member_at self.now) result ≡ named name.now (own_members (table_in self.now) (frame_at self.now frame.0)) }
        ensures home { IfSome result (λ member. member.home.0 ≡ frame.0) }
        ensures class { IfSome result (λ member. class_number (declares_seen member.declares) < number_of_classes (table_in self.now)) }
    {
        let class = self.class_of(frame);
        if class.0 < 6 {
            return None;
        }
        match self.classes.first_own((class.0 - 6) as usize, name) {
            Some(first) => Some(Member {
                name: first.1.name,
                home: frame,
                item: first.0,
                hidden: first.1.flags.hidden,
                declares: first.1,
            }),
            None => None,
        }
    }

    /// Whether the class of a frame has an extends clause.
    pub fn has_base(&self, frame: FrameId) -> bool
        requires { IsFrame self.now frame.0 }
        ensures { result ≡ is_extending (row_at (table_in self.now) (class_of (frame_at self.now frame.0))) }
    {
        let class = self.class_of(frame);
        if class.0 < 6 {
            return false;
        }
        match self.classes.extending.get((class.0 - 6) as usize) {
            Some(extending) => *extending,
            None => false,
        }
    }

    /// How many classes there are besides the predefined types.
    pub fn class_count(&self) -> usize
        ensures { number_of_classes (table_in self.now) ≡ 6 + result }
    {
        self.classes.rows.len()
    }

    /// The class at the top with that name, None where no class there has it.
    pub fn top_class(&self, name: &Text) -> Option<ClassId>
        ensures is { option_map (λ class. class.0) result ≡ top_number (table_in self.now) name.now }
        ensures exists { IfSome result (λ class. class.0 < number_of_classes (table_in self.now)) }
    {
        self.classes.tops.class(name)
    }

    /// The number of the class whose name stands there, 0 where none does.
    pub fn number_at(&self, place: Place) -> u32
        ensures is { result ≡ number_at (table_in self.now) place }
        ensures exists { result < number_of_classes (table_in self.now) }
    {
        self.classes.places.number_at(place)
    }

    /// The number of the class that an element declares, 0 where it declares a component.
    fn number_of_element(&self, element: &Element) -> u32
        ensures { result ≡ number_of_element (table_in self.now) element.now }
    {
        match &element.what {
            What::Class(class) => self.number_at(class.place),
            What::Component(_) => 0,
        }
    }

    /// What declares an element of a modifier list, or an element with `redeclare`.
    pub fn declared(&self, element: &'t Element) -> Declares<'t>
        ensures is { declares_seen result ≡ declared_in (table_in self.now) element.now }
        ensures exists { class_number (declares_seen result) < number_of_classes (table_in self.now) }
    {
        declared_by(element, self.number_of_element(element))
    }

    /// The frame of a class that was entered with no sources, no path and no owner in that enclosing frame, None where
    /// there is none.
    pub fn entered(&self, class: ClassId, outer: Option<FrameId>) -> Option<FrameId>
        ensures is { IfSome result (λ frame. frame_at self.now frame.0 ≡ bare_frame self.now class.0 outer) }
        ensures exists { IfSome result (λ frame. IsFrame self.now frame.0) }
        ensures whole { (n : ℕ) → IsBareEntry self.now n class.0 outer → IsSome result }
    {
        self.entered.frame(class, outer)
    }

    /// The frame with that number, if it is the one with no sources and these other parts.
    fn compared(
        &self,
        frame: FrameId,
        class: ClassId,
        outer: Option<FrameId>,
        at: Option<&InstancePath>,
        owner: Option<FrameId>,
    ) -> Option<FrameId>
        ensures exists { IfSome result (λ frame. IsFrame self.now frame.0) }
        ensures is { IfSome result (λ frame. frame_at self.now frame.0 ≡ In class.0 (gathered []) (frame_at_or_top self.now outer) (option_map (λ path. path.now.0) at.entry) (frame_at_or_top self.now owner)) }
    {
        if frame.0 as usize >= self.frames.len() {
            return None;
        }
        if self.entry(frame).is_that(class, outer, at, owner) {
            Some(frame)
        } else {
            None
        }
    }

    /// The frame that was entered before with no sources and these other parts, None where it is not at hand.
    fn entered_before(
        &self,
        sources: &List<Source<'t>>,
        class: ClassId,
        outer: Option<FrameId>,
        at: Option<&InstancePath>,
        owner: Option<FrameId>,
    ) -> Option<FrameId>
        ensures none { IfSome result (λ _. sources.now ≡ []) }
        ensures exists { IfSome result (λ frame. IsFrame self.now frame.0) }
        ensures is { IfSome result (λ frame. frame_at self.now frame.0 ≡ In class.0 (gathered []) (frame_at_or_top self.now outer) (option_map (λ path. path.now.0) at.entry) (frame_at_or_top self.now owner)) }
    {
        if !sources.is_empty() {
            return None;
        }
        let standing = standing_of(class, outer, at, owner);
        match self.entered.noted(&standing) {
            Some(frame) => self.compared(frame, class, outer, at, owner),
            None => None,
        }
    }

    /// Enters a class: a number for that frame, an old one where it was entered before with no sources, else a new one. The
    /// numbers before keep their frames, after a refusal too.
    pub fn enter(
        &mut self,
        alloc: Global,
        class: ClassId,
        sources: List<Source<'t>>,
        outer: Option<FrameId>,
        at: Option<InstancePath>,
        owner: Option<FrameId>,
    ) -> Result<FrameId, NoMemory>
        requires class { class.0 < number_of_classes (table_in self.old) }
        requires sources { AreFrames self.old (map source_seen sources) }
        requires outer { IsFrameOrNone self.old (option_map number_of outer) }
        requires owner { IsFrameOrNone self.old (option_map number_of owner) }
        ensures grows { Grows self.old self.new }
        ensures number { IfOk result (IsOldOrNext self.old self.new) }
        ensures exists { IfOk result (λ frame. IsFrame self.new frame.0) }
        ensures is { IfOk result (IsEnteredFrame self.old self.new class.0 sources.entry outer at owner) }
        ensures err { OnErr result (self.new ≡ self.old) }
    {
        match self.entered_before(&sources, class, outer, at.as_ref(), owner) {
            Some(frame) => Ok(frame),
            None => self.enter_anew(alloc, class, sources, outer, at, owner),
        }
    }

    /// Enters a class: a new number for that frame. The numbers before keep their frames, after a refusal too.
    fn enter_anew(
        &mut self,
        alloc: Global,
        class: ClassId,
        sources: List<Source<'t>>,
        outer: Option<FrameId>,
        at: Option<InstancePath>,
        owner: Option<FrameId>,
    ) -> Result<FrameId, NoMemory>
        requires class { class.0 < number_of_classes (table_in self.old) }
        requires sources { AreFrames self.old (map source_seen sources) }
        requires outer { IsFrameOrNone self.old (option_map number_of outer) }
        requires owner { IsFrameOrNone self.old (option_map number_of owner) }
        ensures grows { Grows self.old self.new }
        ensures tables { IfOk result (λ _. self.new.tables ≡ self.old.tables ++ None ∷ []) }
        ensures number { IfOk result (λ frame. frame.0 ≡ length self.old.entries) }
        ensures exists { IfOk result (λ frame. IsFrame self.new frame.0) }
        ensures is { IfOk result (IsEnteredFrame self.old self.new class.0 sources.entry outer at owner) }
        ensures err { OnErr result (self.new ≡ self.old) }
    {
        let number = self.frames.len();
        if number >= 4294967295 {
            return Err(NoMemory);
        }
        let sources = FrameSources::new(alloc, sources)?;
        let frame = FrameData {
            class,
            sources,
            outer,
            at,
            owner,
            table: None,
        };
        let bare = frame.is_bare();
        let standing = frame.standing();
        self.frames.push(frame)?;
        match self
            .entered
            .put(bare, standing, class, outer, number as u32)
        {
            Ok(()) => Ok(FrameId(number as u32)),
            Err(refused) => {
                self.frames.truncate(number);
                Err(refused)
            }
        }
    }

    /// What is held of a frame.
    fn entry(&self, frame: FrameId) -> &FrameData<'t>
        requires { IsFrame self.now frame.0 }
        ensures at { slice_get self.now.entries frame.0 ≡ Some (entry_seen result.now) }
        ensures sound { IsEntry (number_of_classes (table_in self.now)) frame.0 (entry_seen result.now) }
        ensures is { frame_at self.now frame.0 ≡ frame_of_entry (frames_of self.now) (entry_seen result.now) }
        ensures kept { kept_table self.now frame.0 ≡ table_seen result.now }
        ensures table { (members : Seq MemberEntry) → table_seen result.now ≡ Some members → IsTable self.now frame.0 members }
    {
        &self.frames[frame.0 as usize]
    }

    /// The class of a frame.
    pub fn class_of(&self, frame: FrameId) -> ClassId
        requires { IsFrame self.now frame.0 }
        ensures is { result.0 ≡ class_of (frame_at self.now frame.0) }
        ensures exists { result.0 < number_of_classes (table_in self.now) }
    {
        self.entry(frame).class
    }

    /// The sources of a frame, outermost first.
    pub fn sources(&self, frame: FrameId) -> &List<Source<'t>>
        requires { IsFrame self.now frame.0 }
        ensures is { sources_at self.now result.now ≡ sources_of (frame_at self.now frame.0) }
        ensures exist { AreFrames self.now (map source_seen result.now) }
    {
        self.sources_by_name(frame).list()
    }

    /// The sources of a frame, with what they speak of.
    pub(crate) fn sources_by_name(&self, frame: FrameId) -> &FrameSources<'t>
        requires { IsFrame self.now frame.0 }
        ensures is { sources_in (frames_of self.now) result.now ≡ sources_of (frame_at self.now frame.0) }
        ensures exist { AreFrames self.now result.now }
    {
        &self.entry(frame).sources
    }

    /// The frame around a frame, None where this is the top.
    pub fn outer(&self, frame: FrameId) -> Option<FrameId>
        requires { IsFrame self.now frame.0 }
        ensures is { frame_at_or_top self.now result ≡ outer_of (frame_at self.now frame.0) }
        ensures exists { IfSome result (λ outer. IsFrame self.now outer.0) }
        ensures top { IsNone result ↔ IsTrue (is_top (outer_of (frame_at self.now frame.0))) }
    {
        self.entry(frame).outer
    }

    /// The instance path of a frame, None where it has none.
    pub fn path(&self, frame: FrameId) -> Option<&InstancePath>
        requires { IsFrame self.now frame.0 }
        ensures { option_map (λ path. path.now.0) result ≡ at_of (frame_at self.now frame.0) }
    {
        self.entry(frame).at.as_ref()
    }

    /// The owner of a frame, None where it has none.
    pub fn owner(&self, frame: FrameId) -> Option<FrameId>
        requires { IsFrame self.now frame.0 }
        ensures is { frame_at_or_top self.now result ≡ owner_of (frame_at self.now frame.0) }
        ensures exists { IfSome result (λ owner. IsFrame self.now owner.0) }
        ensures top { IsNone result ↔ IsTrue (is_top (owner_of (frame_at self.now frame.0))) }
    {
        self.entry(frame).owner
    }

    /// The table of a frame's elements, None where none was kept.
    pub fn table(&self, frame: FrameId) -> Option<&MemberTable<'t>>
        requires { IsFrame self.now frame.0 }
        ensures is { option_copied result ≡ kept_table self.now frame.0 }
        ensures elements { IfSome result (λ table. AreElements self.now frame.0 table.now) }
        ensures homes { IfSome result (λ table. AreHomes self.now table.now) }
    {
        self.entry(frame).table.as_ref()
    }

    /// Keeps the table of a frame's elements. Frames and other tables stay.
    pub fn keep(
        &mut self,
        _alloc: Global,
        frame: FrameId,
        table: MemberTable<'t>,
    ) -> Result<(), NoMemory>
        requires frame { IsFrame self.old frame.0 }
        requires elements { AreElements self.old frame.0 table }
        requires homes { AreHomes self.old table }
        ensures { self.new ≡ record self.old { tables = set self.old.tables frame.0 (Some table.entry) } }
    {
        self.frames[frame.0 as usize].table = Some(table);
        Ok(())
    }

    /// The class that a name finds, and whether its element is replaceable; None where it was not kept.
    pub fn found_class(&self, asked: &AskedName) -> Option<(FrameId, bool)>
        ensures is { IfSome result (λ class. FindsClass self.now asked.now.behind asked.now.left asked.now.busy.now asked.now.frame.0 asked.now.place asked.now.name.now class.0.0 class.1) }
        ensures exists { IfSome result (λ class. IsFrame self.now class.0.0) }
    {
        match self.found.found(asked) {
            Some(found) => Some((found.class, found.replaceable)),
            None => None,
        }
    }

    /// Keeps the class that a name finds.
    pub fn keep_class(
        &mut self,
        alloc: Global,
        asked: &AskedName,
        class: FrameId,
        replaceable: bool,
    ) -> Result<(), NoMemory>
        requires frame { IsFrame self.old asked.now.frame.0 }
        requires class { IsFrame self.old class.0 }
        requires finds { FindsClass self.old asked.now.behind asked.now.left asked.now.busy.now asked.now.frame.0 asked.now.place asked.now.name.now class.0 replaceable }
        ensures { self.new ≡ self.old }
    {
        self.found.put(alloc, asked, class, replaceable)
    }

    /// The frame of a component that was entered at an index, None where it was not kept.
    pub fn entered_component(&self, member: &Member<'t>, index: &[u32]) -> Option<FrameId>
        requires { IsOwnElement (table_in self.now) (member_at self.now member.now) }
        ensures is { IfSome result (λ frame. entered_as (table_in self.now) (member_at self.now member.now) index.now ≡ Ok (frame_at self.now frame.0)) }
        ensures exists { IfSome result (λ frame. IsFrame self.now frame.0) }
    {
        match self.components.found(member, index) {
            Some(component) => Some(component.frame),
            None => None,
        }
    }

    /// Keeps the frame of a component that was entered at an index.
    pub fn keep_component(
        &mut self,
        alloc: Global,
        member: &Member<'t>,
        index: &[u32],
        frame: FrameId,
    ) -> Result<(), NoMemory>
        requires home { IsFrame self.old member.now.home.0 }
        requires own { IsOwnElement (table_in self.old) (member_at self.old member.now) }
        requires frame { IsFrame self.old frame.0 }
        requires enters { entered_as (table_in self.old) (member_at self.old member.now) index.now ≡ Ok (frame_at self.old frame.0) }
        ensures { self.new ≡ self.old }
    {
        self.components.put(alloc, member, index, frame)
    }
    /// The frame that a base was entered as: that of the extends clause that stands there among the parts of a frame's class, whose
    /// class was found as that frame. None where it was not kept.
    pub fn entered_base(&self, frame: FrameId, at: usize, class: FrameId) -> Option<FrameId>
        ensures is { IfSome result (λ base. EntersBase self.now frame.0 at class.0 base.0) }
        ensures exists { IfSome result (λ base. IsFrame self.now base.0) }
    {
        self.bases.base(frame, at, class)
    }

    /// Keeps the frame that a base was entered as.
    pub fn keep_base(
        &mut self,
        frame: FrameId,
        at: usize,
        class: FrameId,
        base: FrameId,
    ) -> Result<(), NoMemory>
        requires frame { IsFrame self.old frame.0 }
        requires class { IsFrame self.old class.0 }
        requires base { IsFrame self.old base.0 }
        requires enters { EntersBase self.old frame.0 at class.0 base.0 }
        ensures { self.new ≡ self.old }
    {
        self.bases.put(frame, at, class, base)
    }
}
