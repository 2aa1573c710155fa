//! The sources of a frame, with what they speak of.
ghost use Rattle.std.specs.Prelude.{◌≡◌, [], ◌↔◌, IsTrue, map, option_copied, option_map, slice_get, IfOk};
ghost use Rattle.mo_scope.specs.Mentions.{mentions_of, mentions_or_none};
ghost use Rattle.mo_scope.specs.Sights.{source_seen};

use crate::mentions::{Mention, Mentions, mentions_among};
use crate::source::Source;
use mo_syntax::{List, NoMemory, Text};
use std::alloc::Global;
use std::marker::Model;

/// Sources, whose arguments are found by the names that they begin with, which contracts see as their list.
#[derive(Drop)]
pub(crate) struct FrameSources<'t> {
    list: List<Source<'t>>,
    mentions: Mentions<'t>,
}

impl<'t> Model for FrameSources<'t> {
    ghost use Rattle.std.specs.Prelude.{List, map};
    ghost use Rattle.mo_scope.specs.Mentions.{AreMentions};
    ghost use Rattle.mo_scope.specs.Sights.{source_seen};
    ghost use Rattle.mo_scope.specs.Worlds.{SourceEntry};
    ghost use Rattle.mo_syntax.specs.contracts.class.Body as body;
    ghost use Rattle.mo_syntax.specs.contracts.class.Give as give;
    ghost use Rattle.mo_syntax.specs.contracts.class.What as what;
    ghost use Rattle.mo_syntax.specs.contracts.expr.Expr as expr;
    ghost use Rattle.std.specs.Coded.{codes};

    ghost Value = { List SourceEntry };

    ghost coded = { Prim.hlevel (codes, body.the_row.coded, give.the_row.coded, what.the_row.coded, expr.the_row.coded) };

    ghost view = { λ s. map source_seen s.list };

    ghost invariant = { λ s. AreMentions (map source_seen s.list) s.mentions };
}

impl<'t> FrameSources<'t> {
    /// These sources.
    pub fn new(alloc: Global, list: List<Source<'t>>) -> Result<FrameSources<'t>, NoMemory>
        ensures { IfOk result (λ made. made ≡ map source_seen list.entry) }
    {
        let mentions = mentions_among(alloc, list.as_slice())?;
        Ok(FrameSources { list, mentions })
    }

    /// The sources in their order.
    pub fn list(&self) -> &List<Source<'t>>
        ensures { map source_seen result.now ≡ self.now }
    {
        &self.list
    }

    /// Whether there is none.
    pub fn is_empty(&self) -> bool
        ensures { IsTrue result ↔ self.now ≡ [] }
    {
        self.list.is_empty()
    }

    /// The source before which so many stand, None past the last.
    pub fn get(&self, at: usize) -> Option<&Source<'t>>
        ensures { option_map source_seen (option_copied result) ≡ slice_get self.now at }
    {
        self.list.get(at)
    }

    /// Where they speak of an element, None where they do not.
    pub fn mentions(&self, name: &Text) -> Option<&List<Mention<'t>>>
        ensures { mentions_or_none (option_copied result) ≡ mentions_of name.now self.now }
    {
        self.mentions.under(name)
    }
}
