//! The connection sets of a class.
ghost use Rattle.std.specs.Prelude.{◌≡◌, List, All, IfOk, IfErr};
ghost use Rattle.mo_flat.specs.declared.connect.FaceSet.{FaceSet as Set};
ghost use Rattle.mo_flat.specs.SoundConnects.{IsSoundConnects};
ghost use Rattle.mo_connect.specs.Alike.{IsConnectable};
ghost use Rattle.mo_connect.specs.steps.Gathering.{AreGathered};
ghost use Rattle.mo_connect.specs.Joins.{HasDistinctLeaves};
ghost use Rattle.mo_connect.specs.Sets.{AreConnectionSets, HasLeaves, IsFirstStop};

use crate::declared::table;
use crate::gather::gather;
use crate::joins::{Join, push_connects};
use crate::labels::{bound, labels};
use crate::refusals::check;
use mo_flat::{Connects, FaceSet};
use mo_syntax::{List, NoMemory, Place, Stop};
use std::alloc::Global;

/// The connection sets of connects and flow leaves, in the order of their first members. A set is a class of two or more
/// faces that chains of connects link, or the inside face of a listed flow leaf alone. That is told where the leaves of each
/// right connector have different names below it; then each member is the face of a leaf. Sound connects have no other list
/// of sets. Else the first rule that the connects break, 31, 37 or 38, or `NoMemory`.
pub fn sets(alloc: Global, c: &Connects) -> Result<List<FaceSet>, Stop>
    ensures connectable { IfOk result (λ _. All IsConnectable c.now.list) }
    ensures sets { IfOk result (λ sets. All HasDistinctLeaves c.now.list → AreConnectionSets c.now sets) }
    ensures only { IsSoundConnects c.now → (s : List Set) → AreConnectionSets c.now s → IfOk result (λ sets. sets ≡ s) }
    ensures members { IfOk result (λ sets. All HasDistinctLeaves c.now.list → All (HasLeaves c.now) sets) }
    ensures broken { IfErr result (λ stop. IsFirstStop c.now.list stop) }
{
    match check(c.list.as_slice()) {
        Err(broken) => Err(Stop::Broken(broken)),
        Ok(_) => match joined_sets(alloc, c) {
            Ok(sets) => Ok(sets),
            Err(_) => Err(Stop::NoMemory),
        },
    }
}

fn joined_sets(alloc: Global, c: &Connects) -> Result<List<FaceSet>, NoMemory>
    requires { All IsConnectable c.now.list }
    ensures sets { IfOk result (λ sets. All HasDistinctLeaves c.now.list → AreConnectionSets c.now sets) }
    ensures only { IsSoundConnects c.now → (s : List Set) → AreConnectionSets c.now s → IfOk result (λ sets. sets ≡ s) }
    ensures members { IfOk result (λ sets. All HasDistinctLeaves c.now.list → All (HasLeaves c.now) sets) }
{
    let mut made = List::new(alloc);
    push_connects(&mut made, c.list.as_slice())?;
    let sets = sets_of_joins(alloc, made.as_slice(), c.flows.as_slice())?;
    Ok(sets)
}

fn sets_of_joins(
    alloc: Global,
    joins: &[Join],
    flows: &[(u32, Place)],
) -> Result<List<FaceSet>, NoMemory>
    ensures { IfOk result (λ sets. AreGathered joins.now flows.now sets) }
{
    let size = bound(joins, flows);
    let numbered = labels(alloc, joins, size)?;
    let told = table(alloc, joins, flows, size)?;
    let sets = gather(alloc, &numbered, &told)?;
    Ok(sets)
}
