//! The instances of a class.
#![tactic(auto, using(crate::proofs::Later::later))]

ghost use Rattle.std.specs.Prelude.{◌≡◌, ◌<◌, Some, option_map, IfOk};
ghost use Rattle.mo_syntax.specs.SoundTree.{IsSoundTree};
ghost use Rattle.mo_scope.specs.Outcome.{Gives};
ghost use Rattle.mo_scope.specs.Places.{Every};
ghost use Rattle.mo_scope.specs.Rows.{number_of_classes, row_at, table_of};
ghost use Rattle.mo_scope.specs.Worlds.{Grows, IsFrame, frame_at, table_in};
ghost use Rattle.mo_eval.specs.FrameBindings.{IsBoundByFrame};
ghost use Rattle.mo_instance.specs.Instances.{AreTreeOf, instances_of as instances_of_class};
ghost use Rattle.mo_instance.specs.steps.Instances.{instances_made, root_alone};
ghost use Rattle.mo_scope.specs.Trees.{IsInstance, instances_in as instances_seen, tree_seen};
ghost use Rattle.mo_instance.specs.steps.Sights.{IsEntered};

use crate::checks::frame_checked;
use crate::prefixes::Around;
use crate::root::root_frame;
use crate::walk::{Level, Work, members_entered};
use mo_eval::Reader;
use mo_scope::{Instance, InstanceTree, Scopes};
use mo_syntax::{
    ClassId, ClassTree, FrameId, InstancePath, List, NoMemory, Place, Stop, Vary, single,
};
use std::alloc::Global;

/// How many names the path of an instance may have: one more breaks rule 27.
const MOST_NAMES: u32 = 32;

/// The asked class as the first instance.
fn first_instance<'t>(
    alloc: Global,
    s: &Scopes<'t>,
    frame: FrameId,
    place: Place,
) -> Result<List<Instance<'t>>, NoMemory>
    requires { IsFrame s.now frame.0 }
    ensures is { IfOk result (λ made. instances_seen s.now made ≡ root_alone (frame_at s.now frame.0) place) }
    ensures exist { IfOk result (Every (IsEntered s.now)) }
{
    // The class exists.
    let _class = s.class_of(frame);
    let root = Instance {
        frame,
        path: InstancePath(List::new(alloc)),
        place,
        dims: List::new(alloc),
        leaf: None,
    };
    single(alloc, root)
}

/// The instances of the class of a frame, whose name stands there.
fn instances_from<'t>(
    alloc: Global,
    s: &mut Scopes<'t>,
    frame: FrameId,
    place: Place,
) -> Result<List<Instance<'t>>, Stop>
    requires { IsFrame s.old frame.0 }
    ensures grows { Grows s.old s.new }
    ensures value { Gives (instances_seen s.new) result (instances_made (table_in s.old) place (frame_at s.old frame.0)) }
    ensures stand { IfOk result (Every (IsEntered s.new)) }
{
    let walk = frame_checked(alloc, s, place, frame)?;
    let instances = first_instance(alloc, s, frame, place)?;
    let reader = Reader::new(alloc);
    let mut work = Work { reader, instances };
    let around = Around {
        asked: place,
        outermost: true,
        vary: Vary::Free,
        given: false,
    };
    let level = Level {
        around,
        left: MOST_NAMES,
    };
    members_entered(alloc, s, &mut work, &level, walk.members.as_slice())?;
    Ok(work.instances)
}

/// Where the name of a class stands, None of a predefined type.
fn place_of_class(s: &Scopes, class: ClassId) -> Option<Place>
    ensures { result ≡ option_map (λ row. row.class.place) (row_at (table_in s.now) class.0) }
{
    match s.row(class) {
        Some(row) => Some(row.class.place),
        None => None,
    }
}

/// The instances of a class, none of a predefined type.
fn instances_of<'t>(
    alloc: Global,
    s: &mut Scopes<'t>,
    class: ClassId,
) -> Result<List<Instance<'t>>, Stop>
    requires { class.0 < number_of_classes (table_in s.old) }
    ensures grows { Grows s.old s.new }
    ensures value { Gives (instances_seen s.new) result (instances_of_class (table_in s.old) class.0) }
    ensures stand { IfOk result (Every (IsEntered s.new)) }
{
    match place_of_class(s, class) {
        Some(place) => {
            let frame = root_frame(alloc, s, class)?;
            instances_from(alloc, s, frame, place)
        }
        None => Ok(List::new(alloc)),
    }
}

/// The asked class and all its components, each before its parts, with the frames that they are entered as; or the first rule that
/// is broken: 12 to 34, 39, 40, 45 and 46 where names, arguments, types and values break them, 41 at the name of the asked class
/// where it has more than 400,000 components. `NoMemory` is the only other answer.
pub fn instantiate<'t>(
    alloc: Global,
    tree: &'t ClassTree,
    class: ClassId,
) -> Result<InstanceTree<'t>, Stop>
    requires sound { IsSoundTree tree.now.files }
    requires class { class.0 < number_of_classes (table_of tree.now.files) }
    ensures exact { Gives tree_seen result (instances_of_class (table_of tree.now.files) class.0) }
    ensures files { IfOk result (λ made. made.scopes.files ≡ tree.now.files) }
    ensures exist { IfOk result (λ made. Every (IsInstance made.scopes) made.instances) }
    ensures bound { IfOk result (λ made. Every (IsBoundByFrame made.scopes) made.instances) }
    ensures sound { IfOk result (λ made. AreTreeOf tree.now.files class.0 (tree_seen made)) }
{
    let mut scopes = Scopes::new(alloc, tree)?;
    let instances = instances_of(alloc, &mut scopes, class)?;
    Ok(InstanceTree { scopes, instances })
}
