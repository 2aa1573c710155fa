//! Instance paths that are one.
ghost use Rattle.std.specs.Prelude.{◌≡◌, ◌&&◌, option_map};
ghost use Rattle.std.specs.Str.{bytes_eq};
ghost use Rattle.mo_scope.specs.Frames.{at_eq, indexed_eq, numbers_eq};

use mo_syntax::{InstancePath, List, Text};

/// Whether two names of instance paths are one, with one index.
fn is_same_name(a: &(Text, List<u32>), b: &(Text, List<u32>)) -> bool
    ensures { result ≡ (bytes_eq a.now.0 b.now.0 && numbers_eq a.now.1 b.now.1) }
{
    if !a.0.equals(&b.0) {
        return false;
    }
    a.1.as_slice() == b.1.as_slice()
}

/// Whether two instance paths have the same names with the same indices.
fn are_same_names(a: &[(Text, List<u32>)], b: &[(Text, List<u32>)]) -> bool
    ensures { result ≡ indexed_eq a.now b.now }
{
    if a.len() != b.len() {
        return false;
    }
    for i in 0..a.len() {
        if !is_same_name(&a[i], &b[i]) {
            return false;
        }
    }
    true
}

/// Whether two instance paths are one, or both are missing.
pub fn is_same_path(a: Option<&InstancePath>, b: Option<&InstancePath>) -> bool
    ensures { result ≡ at_eq (option_map (λ path. path.now.0) a.entry) (option_map (λ path. path.now.0) b.entry) }
{
    match (a, b) {
        (None, None) => true,
        (Some(a), Some(b)) => are_same_names(a.0.as_slice(), b.0.as_slice()),
        _ => false,
    }
}
