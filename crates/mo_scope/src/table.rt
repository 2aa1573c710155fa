//! Tables of the elements of frames, in their order.
ghost use Rattle.std.specs.Prelude.{◌≡◌, [], ◌∷◌, ◌++◌, map, option_map, option_copied, OnOk, OnErr};
ghost use Rattle.mo_scope.specs.ByName.{member_named};
ghost use Rattle.mo_scope.specs.Open.{are_open};
ghost use Rattle.mo_scope.specs.Sights.{member_seen};

use crate::names::Names;
use crate::row::Member;
use crate::sort::is_open;
use mo_syntax::{List, NoMemory, Text};
use std::alloc::Global;
use std::marker::Model;

/// The elements of a frame in their order, found by name, which contracts see as their list.
#[derive(Drop)]
pub struct MemberTable<'t> {
    members: List<Member<'t>>,
    names: Names<'t>,
    /// Whether all of them may stand in a package.
    all_open: bool,
}

impl<'t> Model for MemberTable<'t> {
    ghost use Rattle.std.specs.Prelude.{List, map};
    ghost use Rattle.mo_scope.specs.Worlds.{MemberEntry};
    ghost use Rattle.mo_scope.specs.Sights.{member_seen};
    ghost use Rattle.mo_scope.specs.ByName.{IsTableInside};
    ghost use Rattle.mo_syntax.specs.contracts.class.Give as give;
    ghost use Rattle.mo_syntax.specs.contracts.class.What as what;
    ghost use Rattle.mo_syntax.specs.contracts.expr.Expr as expr;
    ghost use Rattle.std.specs.Coded.{codes};

    ghost Value = { List MemberEntry };

    ghost coded = { Prim.hlevel (codes, give.the_row.coded, what.the_row.coded, expr.the_row.coded) };

    ghost view = { λ t. map member_seen t.members };

    ghost invariant = { λ t. IsTableInside (map member_seen t.members) t.names t.all_open };
}

impl<'t> MemberTable<'t> {
    /// The empty table, which takes no memory until it is added to.
    pub fn new(alloc: Global) -> MemberTable<'t>
        ensures { result ≡ [] }
    {
        MemberTable {
            members: List::new(alloc),
            names: Names::new(alloc),
            all_open: true,
        }
    }

    /// Adds an element at the end.
    pub fn push(&mut self, member: Member<'t>) -> Result<(), NoMemory>
        ensures ok { OnOk result (self.new ≡ self.old ++ member_seen member.entry ∷ []) }
        ensures err { OnErr result (self.new ≡ self.old) }
    {
        let name = member.name;
        let at = self.members.len();
        let all_open = self.all_open && is_open(&member.declares);
        self.members.push(member)?;
        match self.names.put(name, at) {
            Ok(()) => {
                self.all_open = all_open;
                Ok(())
            }
            Err(refused) => {
                self.members.pop();
                Err(refused)
            }
        }
    }

    /// The first element with that name, found by its key.
    pub fn find(&self, name: &Text) -> Option<&Member<'t>>
        ensures { option_map member_seen (option_copied result) ≡ member_named name.now self.now }
    {
        match self.names.place(name) {
            Some(at) => self.members.get(at),
            None => None,
        }
    }

    /// The elements in their order.
    pub fn members(&self) -> &[Member<'t>]
        ensures { map member_seen result.now ≡ self.now }
    {
        self.members.as_slice()
    }

    /// Whether all elements may stand in a package: each is a class or a constant.
    pub fn is_open(&self) -> bool
        ensures { result ≡ are_open self.now }
    {
        self.all_open
    }
}
