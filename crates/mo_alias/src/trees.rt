//! Unknowns in trees, each with its sign to the one above it (R. E. Tarjan, Efficiency of a good but not linear set union algorithm,
//! J. ACM 22, 1975): two are joined where they have one root. A tree is put under another by a link and stays there, so that the
//! trees of any moment are seen by climbing only past links that came before.
ghost use Rattle.std.specs.Prelude.{◌≡◌, ◌≢◌, ℕ, ◌+◌, ◌<◌, ◌⊎◌, length, get_or, IfOk};
ghost use Rattle.mo_alias.specs.steps.Forests.{AreOnce, AreTrees, HaveRoot, IsLatest, IsPut, Reaches, since_in};

use crate::alias::{Alias, sign_product};
use mo_syntax::{NoMemory, both};
use std::alloc::Global;

/// What stands at the place of the link of a root.
const NEVER: usize = usize::MAX;

/// The trees of some unknowns. All tables go by their numbers.
#[derive(Drop)]
pub(crate) struct Trees {
    /// What it stands under; a root under itself.
    parent: Vec<u32>,
    /// Its sign to what it stands under.
    minus: Vec<bool>,
    /// The place of the link by which it was put there, `NEVER` for a root.
    since: Vec<usize>,
    /// The unknowns of that link: the one below it and the one that was not.
    ends: Vec<(u32, u32)>,
    /// At least how far it is to the leaves.
    height: Vec<u32>,
}

/// A step of the chain between two unknowns: its latest link, by its place, with the unknowns on the sides of the first and the
/// second.
#[derive(Clone, Copy)]
pub(crate) struct Latest {
    pub at: usize,
    pub near: u32,
    pub far: u32,
}

/// Each of so many unknowns and 0 under itself.
fn alone(alloc: Global, count: u32) -> Result<Vec<u32>, NoMemory>
    ensures size { IfOk result (λ parent. length parent.items ≡ count + 1) }
    ensures alone { IfOk result (λ parent. (u : ℕ) → get_or parent.items u u ≡ u) }
{
    let mut parent = Vec::new(alloc);
    for unknown in 0..count as usize + 1 {
        parent.push(unknown as u32)?;
    }
    Ok(parent)
}

impl Trees {
    /// Each of so many unknowns alone.
    pub(crate) fn new(alloc: Global, count: u32) -> Result<Trees, NoMemory>
        ensures trees { IfOk result AreTrees }
        ensures size { IfOk result (λ trees. length trees.parent.items ≡ count + 1) }
        ensures roots { IfOk result (λ trees. (u : ℕ) → since_in trees u ≡ 18446744073709551615) }
    {
        let parent = alone(alloc, count)?;
        let size = count as usize + 1;
        let signs = both(vec![in alloc; false; size], vec![in alloc; NEVER; size]);
        let others = both(
            vec![in alloc; (0u32, 0u32); size],
            vec![in alloc; 0u32; size],
        );
        let ((minus, since), (ends, height)) = both(signs, others)?;
        Ok(Trees {
            parent,
            minus,
            since,
            ends,
            height,
        })
    }

    /// The root above an unknown, with the product of the signs on the way.
    pub(crate) fn root(&self, unknown: u32) -> (u32, bool)
        requires trees { AreTrees self.now }
        requires inside { unknown < length self.now.parent.items }
        ensures above { Reaches self.now 18446744073709551615 unknown result.0 result.1 }
        ensures inside { result.0 < length self.now.parent.items }
    {
        let mut root = unknown;
        let mut minus = false;
        while self.since[root as usize] != NEVER {
            minus = sign_product(minus, self.minus[root as usize]);
            root = self.parent[root as usize];
        }
        (root, minus)
    }

    /// Puts the first of two roots under the second by the link at a place, with these unknowns below the roots and the sign between
    /// the roots.
    fn put(&mut self, low: u32, high: u32, minus: bool, at: usize, ends: (u32, u32))
        requires trees { AreTrees self.old }
        requires low { low < length self.old.parent.items }
        ensures { IsPut self.old self.new low high minus at ends.0 ends.1 }
    {
        self.parent[low as usize] = high;
        self.minus[low as usize] = minus;
        self.since[low as usize] = at;
        self.ends[low as usize] = ends;
    }

    /// Joins two trees by their roots: the lower one is put under the other.
    pub(crate) fn join(&mut self, one: u32, other: u32, minus: bool, at: usize, alias: Alias)
        requires trees { AreTrees self.old }
        requires one { one < length self.old.parent.items }
        requires other { other < length self.old.parent.items }
        ensures { IsPut self.old self.new one other minus at alias.left alias.right ⊎ IsPut self.old self.new other one minus at alias.right alias.left }
    {
        if self.height[one as usize] < self.height[other as usize] {
            self.put(one, other, minus, at, (alias.left, alias.right));
            return;
        }
        if self.height[one as usize] == self.height[other as usize] {
            self.height[one as usize] = self.height[one as usize].saturating_add(1);
        }
        self.put(other, one, minus, at, (alias.right, alias.left));
    }

    /// The latest link of the chain between two unknowns that are joined and differ. Links on the way up only get later.
    pub(crate) fn latest(&self, one: u32, other: u32) -> Latest
        requires trees { AreTrees self.now }
        requires once { AreOnce self.now }
        requires one { one < length self.now.parent.items }
        requires other { other < length self.now.parent.items }
        requires joined { HaveRoot self.now 18446744073709551615 one other }
        requires apart { one ≢ other }
        ensures { IsLatest self.now one other result }
    {
        let (mut a, mut b) = (one, other);
        let mut last = Latest {
            at: 0,
            near: one,
            far: other,
        };
        while a != b {
            if self.since[a as usize] < self.since[b as usize] {
                let (near, far) = self.ends[a as usize];
                last = Latest {
                    at: self.since[a as usize],
                    near,
                    far,
                };
                a = self.parent[a as usize];
            } else {
                let (far, near) = self.ends[b as usize];
                last = Latest {
                    at: self.since[b as usize],
                    near,
                    far,
                };
                b = self.parent[b as usize];
            }
        }
        last
    }
}
