//! What is one.
ghost use Rattle.std.specs.Prelude.{◌≡◌, List as Seq, map, nat_eq};
ghost use Rattle.mo_scope.specs.Lookup.{is_same_found};
ghost use Rattle.mo_scope.specs.Frames.{Frame, class_of, is_same_base, listing_eq, same_listings};
ghost use Rattle.mo_scope.specs.Sights.{listing_seen, source_seen};
ghost use Rattle.mo_scope.specs.Worlds.{IsFrame, frame_at, sources_in};
ghost use Rattle.mo_syntax.specs.ClassTable.{path_eq};
ghost use Rattle.mo_names.specs.Sights.{IsFound, found_at};

use crate::found::Found;
use mo_scope::{Listing, Scopes, Source};
use mo_syntax::{FrameId, Text};

/// Whether two frames are of one class.
pub(crate) fn is_same_class(s: &Scopes, a: FrameId, b: FrameId) -> bool
    requires a { IsFrame s.now a.0 }
    requires b { IsFrame s.now b.0 }
    ensures { result ≡ nat_eq (class_of (frame_at s.now a.0)) (class_of (frame_at s.now b.0)) }
{
    s.class_of(a).0 == s.class_of(b).0
}

/// Whether two names find one declaration, whatever the frames are.
pub(crate) fn is_same(s: &Scopes, a: &Found, b: &Found) -> bool
    requires a { IsFound s.now a.now }
    requires b { IsFound s.now b.now }
    ensures { result ≡ is_same_found (found_at s.now a.now) (found_at s.now b.now) }
{
    match (a, b) {
        (Found::Component(_, a), Found::Component(_, b)) => {
            is_same_class(s, a.home, b.home) && a.item == b.item
        }
        (Found::Class(a, _), Found::Class(b, _)) => is_same_class(s, *a, *b),
        (Found::Literal(a, at), Found::Literal(b, other)) => a.0 == b.0 && at == other,
        (Found::Function(a), Found::Function(b)) => a == b,
        (Found::Time, Found::Time) => true,
        _ => false,
    }
}

/// Whether two paths have the same names.
fn is_same_path(a: &[&Text], b: &[&Text]) -> bool
    ensures { result ≡ path_eq (map (λ name. name.now) a.now) (map (λ name. name.now) b.now) }
{
    if a.len() != b.len() {
        return false;
    }
    for i in 0..a.len() {
        if !a[i].equals(b[i]) {
            return false;
        }
    }
    true
}

fn is_same_listing(a: &Listing, b: &Listing) -> bool
    ensures { result ≡ listing_eq (listing_seen a.now) (listing_seen b.now) }
{
    if a.place.file != b.place.file {
        return false;
    }
    if a.place.byte != b.place.byte {
        return false;
    }
    is_same_path(a.passed.as_slice(), b.passed.as_slice())
}

/// Whether two lists of sources are lists at the same places.
fn are_same_listings(a: &[Source], b: &[Source]) -> bool
    ensures { (frames : Seq Frame) → result ≡ same_listings (sources_in frames (map source_seen a.now)) (sources_in frames (map source_seen b.now)) }
{
    if a.len() != b.len() {
        return false;
    }
    for i in 0..a.len() {
        if !is_same_listing(&a[i].listing, &b[i].listing) {
            return false;
        }
    }
    true
}

/// Whether two base frames are one base.
pub(crate) fn are_one_base(s: &Scopes, a: FrameId, b: FrameId) -> bool
    requires a { IsFrame s.now a.0 }
    requires b { IsFrame s.now b.0 }
    ensures { result ≡ is_same_base (frame_at s.now a.0) (frame_at s.now b.0) }
{
    if !is_same_class(s, a, b) {
        return false;
    }
    are_same_listings(s.sources(a).as_slice(), s.sources(b).as_slice())
}
