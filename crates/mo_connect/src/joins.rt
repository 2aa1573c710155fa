//! The pairs of faces that connects join.
ghost use Rattle.std.specs.Prelude.{◌≡◌, ◌<◌, List, length, slice_index_or, Any, All, OnOk};
ghost use Rattle.mo_connect.specs.Alike.{Corresponds, HavePartners, IsConnectable};
ghost use Rattle.mo_connect.specs.Joins.{is_outside, face_of, Gains, AreDistinct, HasDistinctLeaves, IsBefore, JoinsLeaf, JoinsLeafAt, JoinsElementAt, JoinsConnectAt};

use crate::alike::partner;
use mo_flat::{Connect, EndLeaf, Side};
use mo_syntax::{List, NoMemory, Place};

/// A leaf of a connector as a connect sees it.
#[derive(Clone, Copy)]
pub struct Face {
    /// The number of its variable, from 1.
    pub variable: u32,
    /// Whether the connector is outside of the class that holds the connect.
    pub outside: bool,
    pub flow: bool,
    /// Where the leaf is declared.
    pub place: Place,
}

/// Two faces that a connect joins.
#[derive(Clone, Copy)]
pub struct Join {
    pub left: Face,
    pub right: Face,
}

fn has_outside(side: Side) -> bool
    ensures { result ≡ is_outside side }
{
    match side {
        Side::Outside => true,
        Side::Inside | Side::Neither => false,
    }
}

fn seen(side: Side, leaf: &EndLeaf) -> Face
    ensures { result ≡ face_of side leaf.now }
{
    Face {
        variable: leaf.variable,
        outside: has_outside(side),
        flow: leaf.flow,
        place: leaf.place,
    }
}

/// Joins a leaf to the one of the same name, which is looked for at the guessed place first.
fn push_leaf(
    made: &mut List<Join>,
    left_side: Side,
    leaf: &EndLeaf,
    right_side: Side,
    rights: &[EndLeaf],
    guess: usize,
) -> Result<(), NoMemory>
    requires { Any (Corresponds leaf.now) rights.now }
    ensures { OnOk result (AreDistinct rights.now → Gains made.old made.new (JoinsLeaf left_side leaf.now right_side rights.now)) }
{
    match partner(leaf, rights, guess) {
        None => Ok(()),
        Some(k) => {
            let right = seen(right_side, &rights[k]);
            let left = seen(left_side, leaf);
            made.push(Join { left, right })?;
            Ok(())
        }
    }
}

fn push_leaves(
    made: &mut List<Join>,
    left_side: Side,
    lefts: &[EndLeaf],
    right_side: Side,
    rights: &[EndLeaf],
) -> Result<(), NoMemory>
    requires { HavePartners lefts.now rights.now }
    ensures { OnOk result (AreDistinct rights.now → Gains made.old made.new (IsBefore (JoinsLeafAt left_side lefts.now right_side rights.now) (length lefts.now))) }
{
    for (i, leaf) in lefts.iter().enumerate() {
        push_leaf(made, left_side, leaf, right_side, rights, i)?;
    }
    Ok(())
}

/// Joins the connectors at the same place of two arrays.
fn push_element(
    made: &mut List<Join>,
    connect: &Connect,
    left: &[EndLeaf],
    k: usize,
) -> Result<(), NoMemory>
    requires connectable { IsConnectable connect.now }
    requires within { k < length connect.now.left.elements }
    requires is { left.now ≡ slice_index_or connect.now.left.elements k left.now }
    ensures { OnOk result (HasDistinctLeaves connect.now → Gains made.old made.new (JoinsElementAt connect.now k)) }
{
    let rights = connect.right.elements.as_slice();
    if k >= rights.len() {
        return Ok(());
    }
    push_leaves(
        made,
        connect.left.side,
        left,
        connect.right.side,
        rights[k].as_slice(),
    )?;
    Ok(())
}

fn push_connect(made: &mut List<Join>, connect: &Connect) -> Result<(), NoMemory>
    requires { IsConnectable connect.now }
    ensures { OnOk result (HasDistinctLeaves connect.now → Gains made.old made.new (IsBefore (JoinsElementAt connect.now) (length connect.now.left.elements))) }
{
    let lefts = connect.left.elements.as_slice();
    for (k, left) in lefts.iter().enumerate() {
        push_element(made, connect, left.as_slice(), k)?;
    }
    Ok(())
}

/// The pairs of faces that the connects join. `NoMemory` is the only other answer.
pub(crate) fn push_connects(made: &mut List<Join>, connects: &[Connect]) -> Result<(), NoMemory>
    requires { All IsConnectable connects.now }
    ensures { OnOk result (All HasDistinctLeaves connects.now → Gains made.old made.new (IsBefore (JoinsConnectAt connects.now) (length connects.now))) }
{
    for connect in connects {
        push_connect(made, connect)?;
    }
    Ok(())
}
