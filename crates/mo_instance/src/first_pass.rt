//! The first pass over the arguments of a frame, by their first names (Modelica Language Specification 3.5, sections 7.2, 7.2.3,
//! 7.2.6 and 7.3.2).
ghost use Rattle.std.specs.Prelude.{◌≡◌, ◌&&◌, drop, map, option_copied, IfOk};
ghost use Rattle.std.specs.List.{list_any};
ghost use Rattle.mo_syntax.specs.ClassTable.{path_eq};
ghost use Rattle.mo_scope.specs.Frames.{sources_of};
ghost use Rattle.mo_scope.specs.Outcome.{Gives};
ghost use Rattle.mo_scope.specs.Sights.{source_at, sources_at};
ghost use Rattle.mo_scope.specs.Worlds.{IsFrame, frame_at, frames_of, table_in};
ghost use Rattle.mo_names.specs.Sights.{IsWalk, walk_at};
ghost use Rattle.mo_mods.specs.PathSights.{claim_seen};
ghost use Rattle.mo_instance.specs.steps.FirstPass.{broken_source as source_breaks, broken_speech as speech_breaks, first_repeated as repeated_first, is_in as is_among, is_known_speech, is_replaced_by, least_of_member, least_of_none};
ghost use Rattle.mo_instance.specs.Passes.{first_of_all, first_pass as pass_first, inherits as walk_inherits};
ghost use Rattle.mo_instance.specs.steps.Speeches.{speech_seen};
ghost use Rattle.mo_instance.specs.steps.Walks.{IsWalkOrNone, inherits_name, members_held, walk_or_none};

use crate::attributes::is_attribute;
use crate::own::claims_against;
use crate::spoken::{Spoken, spoken_of};
use mo_mods::{Claim, is_path};
use mo_names::{Inherited, Walk};
use mo_scope::{Member, MemberTable, Scopes, Source};
use mo_syntax::{Broken, FrameId, NoMemory, Place, Stop, Text, broken, rules};
use std::alloc::Global;

/// Whether two paths are one.
fn is_same(other: &Claim, claim: &Claim) -> bool
    ensures { result ≡ path_eq (claim_seen other.now).path (claim_seen claim.now).path }
{
    is_path(other.path.as_slice(), claim.path.as_slice())
}

/// Whether a path is among these.
fn is_in(own: &[Claim], claim: &Claim) -> bool
    ensures { result ≡ is_among (map claim_seen own.now) (claim_seen claim.now) }
{
    for other in own {
        if is_same(other, claim) {
            return true;
        }
    }
    false
}

/// The place of the first path that is among these.
fn first_repeated(own: &[Claim], claims: &[Claim]) -> Option<Place>
    ensures { result ≡ repeated_first (map claim_seen own.now) (map claim_seen claims.now) }
{
    for claim in claims {
        if is_in(own, claim) {
            return Some(claim.place);
        }
    }
    None
}

/// Whether an element that is inherited has the name.
fn is_inherited_as(inherited: &Inherited, name: &Text) -> bool
    ensures { result ≡ inherits_name name.now inherited.now }
{
    if inherited.through.is_empty() {
        return false;
    }
    inherited.member.name.as_str() == name.as_str()
}

/// Whether an element that is inherited from one of the bases has the name.
fn is_inherited(members: &[Inherited], name: &Text) -> bool
    ensures { result ≡ list_any (inherits_name name.now) members.now }
{
    for inherited in members {
        if is_inherited_as(inherited, name) {
            return true;
        }
    }
    false
}

/// Whether an element that is inherited from one of the bases, or an attribute, has the name.
fn inherits(s: &Scopes, walk: &Walk, name: &Text) -> bool
    requires { IsWalk s.now walk.now }
    ensures { result ≡ walk_inherits (walk_at s.now walk.now) name.now }
{
    if is_inherited(walk.members.as_slice(), name) {
        return true;
    }
    is_attribute(s, walk.leaf, name)
}

/// Whether an element with `redeclare` may replace that name.
fn is_replaced(s: &Scopes, replaced: Option<&Walk>, name: &Text) -> bool
    requires { IsWalkOrNone s.now (option_copied replaced) }
    ensures { result ≡ is_replaced_by (walk_or_none (frames_of s.now) (option_copied replaced.entry)) name.now }
{
    match replaced {
        Some(walk) => inherits(s, walk, name),
        None => false,
    }
}

/// Whether the first name of an argument is known that is no element.
fn is_known(s: &Scopes, replaced: Option<&Walk>, walk: &Walk, spoken: &Spoken) -> bool
    requires replaced { IsWalkOrNone s.now (option_copied replaced) }
    requires walk { IsWalk s.now walk.now }
    ensures { result ≡ is_known_speech (is_replaced_by (walk_or_none (frames_of s.now) (option_copied replaced.entry))) (walk_at s.now walk.now) (speech_seen spoken.now) }
{
    if spoken.replacing {
        is_replaced(s, replaced, spoken.name)
    } else {
        is_attribute(s, walk.leaf, spoken.name)
    }
}

/// The least rule of an element that is modified.
fn broken_member(hidden: bool, last: bool, place: Place, repeated: Option<Place>) -> Option<Broken>
    ensures { result ≡ least_of_member hidden last place repeated }
{
    if hidden {
        return Some(broken(rules::PROTECTED_ELEMENT, place));
    }
    match repeated {
        Some(at) => Some(broken(rules::MODIFIED_TWICE, at)),
        None => {
            if last {
                Some(broken(rules::FINAL_MODIFIED, place))
            } else {
                None
            }
        }
    }
}

/// The least rule of an element that an argument modifies.
fn broken_element(spoken: &Spoken, member: &Member, repeated: Option<Place>) -> Option<Broken>
    ensures { result ≡ least_of_member (spoken.now.outside && member.now.hidden) member.now.declares.flags.last spoken.now.place repeated }
{
    broken_member(
        spoken.outside && member.hidden,
        member.declares.flags.last,
        spoken.place,
        repeated,
    )
}

/// The least rule where no element is modified.
fn broken_none(known: bool, place: Place, repeated: Option<Place>) -> Option<Broken>
    ensures { result ≡ least_of_none known place repeated }
{
    if !known {
        return Some(broken(rules::MODIFIED_ELEMENT_NOT_FOUND, place));
    }
    match repeated {
        Some(at) => Some(broken(rules::MODIFIED_TWICE, at)),
        None => None,
    }
}

/// The least rule that an argument breaks, where the elements are those of the table.
fn broken_spoken<'t>(
    s: &Scopes<'t>,
    replaced: Option<&Walk<'t>>,
    walk: &Walk<'t>,
    table: &MemberTable<'t>,
    own: &[Claim],
    spoken: &Spoken<'t>,
) -> Option<Broken>
    requires replaced { IsWalkOrNone s.now (option_copied replaced) }
    requires walk { IsWalk s.now walk.now }
    requires table { table.now ≡ members_held walk.now.members }
    ensures { result ≡ speech_breaks (is_replaced_by (walk_or_none (frames_of s.now) (option_copied replaced.entry))) (walk_at s.now walk.now) (map claim_seen own.now) (speech_seen spoken.now) }
{
    let repeated = first_repeated(own, spoken.claims.as_slice());
    match table.find(spoken.name) {
        Some(member) => broken_element(spoken, member, repeated),
        None => broken_none(is_known(s, replaced, walk, spoken), spoken.place, repeated),
    }
}

/// The first rule that arguments break.
fn first_broken<'t>(
    s: &Scopes<'t>,
    replaced: Option<&Walk<'t>>,
    walk: &Walk<'t>,
    table: &MemberTable<'t>,
    own: &[Claim],
    spoken: &[Spoken<'t>],
) -> Option<Broken>
    requires replaced { IsWalkOrNone s.now (option_copied replaced) }
    requires walk { IsWalk s.now walk.now }
    requires table { table.now ≡ members_held walk.now.members }
    ensures { result ≡ first_of_all (speech_breaks (is_replaced_by (walk_or_none (frames_of s.now) (option_copied replaced.entry))) (walk_at s.now walk.now) (map claim_seen own.now)) (map speech_seen spoken.now) }
{
    for one in spoken {
        match broken_spoken(s, replaced, walk, table, own, one) {
            Some(broken) => return Some(broken),
            None => {}
        }
    }
    None
}

/// The first rule that the arguments of a source of a frame break.
fn broken_source<'t>(
    alloc: Global,
    s: &Scopes<'t>,
    frame: FrameId,
    replaced: Option<&Walk<'t>>,
    walk: &Walk<'t>,
    table: &MemberTable<'t>,
    source: &Source<'t>,
) -> Result<Option<Broken>, NoMemory>
    requires frame { IsFrame s.now frame.0 }
    requires replaced { IsWalkOrNone s.now (option_copied replaced) }
    requires walk { IsWalk s.now walk.now }
    requires table { table.now ≡ members_held walk.now.members }
    ensures { IfOk result (λ found. found ≡ source_breaks (table_in s.now) (frame_at s.now frame.0) (is_replaced_by (walk_or_none (frames_of s.now) (option_copied replaced.entry))) (walk_at s.now walk.now) (source_at s.now source.now)) }
{
    let own = claims_against(alloc, s, frame, source.origin)?;
    let spoken = spoken_of(alloc, s, source)?;
    Ok(first_broken(s, replaced, walk, table, own.as_slice(), spoken.as_slice()))
}

/// The elements of a frame by name.
fn elements_by_name<'t>(alloc: Global, walk: &Walk<'t>) -> Result<MemberTable<'t>, NoMemory>
    ensures { IfOk result (λ made. made ≡ members_held walk.now.members) }
{
    let mut made = MemberTable::new(alloc);
    let members = walk.members.as_slice();
    for inherited in members {
        made.push(inherited.member)?;
    }
    Ok(made)
}

/// The first rule that the arguments of some sources of a frame break.
fn broken_sources<'t>(
    alloc: Global,
    s: &Scopes<'t>,
    frame: FrameId,
    replaced: Option<&Walk<'t>>,
    walk: &Walk<'t>,
    sources: &[Source<'t>],
) -> Result<Option<Broken>, NoMemory>
    requires frame { IsFrame s.now frame.0 }
    requires replaced { IsWalkOrNone s.now (option_copied replaced) }
    requires walk { IsWalk s.now walk.now }
    ensures { IfOk result (λ found. found ≡ first_of_all (source_breaks (table_in s.now) (frame_at s.now frame.0) (is_replaced_by (walk_or_none (frames_of s.now) (option_copied replaced.entry))) (walk_at s.now walk.now)) (sources_at s.now sources.now)) }
{
    let table = elements_by_name(alloc, walk)?;
    for source in sources {
        let found = broken_source(alloc, s, frame, replaced, walk, &table, source)?;
        match found {
            Some(broken) => return Ok(Some(broken)),
            None => {}
        }
    }
    Ok(None)
}

/// Asks what the arguments of the sources of a frame behind so many break: 17, 20, 21 and 22.
pub(crate) fn first_pass<'t>(
    alloc: Global,
    s: &Scopes<'t>,
    frame: FrameId,
    replaced: Option<&Walk<'t>>,
    walk: &Walk<'t>,
    passed: usize,
) -> Result<(), Stop>
    requires frame { IsFrame s.now frame.0 }
    requires replaced { IsWalkOrNone s.now (option_copied replaced) }
    requires walk { IsWalk s.now walk.now }
    ensures { Gives (λ _. tt) result (pass_first (table_in s.now) (frame_at s.now frame.0) (is_replaced_by (walk_or_none (frames_of s.now) (option_copied replaced.entry))) (walk_at s.now walk.now) (drop passed (sources_of (frame_at s.now frame.0)))) }
{
    let sources = s.sources(frame).as_slice();
    if passed >= sources.len() {
        return Ok(());
    }
    let found = broken_sources(alloc, s, frame, replaced, walk, &sources[passed..])?;
    match found {
        Some(broken) => Err(Stop::Broken(broken)),
        None => Ok(()),
    }
}
