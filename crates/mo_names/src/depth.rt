//! How deep the calls stand that find the bases of classes: each class whose bases are being found takes some of the stack.
use mo_scope::DEPTH_LIMIT;
use mo_syntax::NoMemory;

/// How much deeper they stand where the name of a base is looked up, in units of a class whose bases are found without that.
const LOOKUP_DEPTH: u32 = 5;

/// The depth inside one more class whose bases are being found.
pub(crate) fn depth_inside(depth: u32) -> Result<u32, NoMemory> {
    if depth >= DEPTH_LIMIT {
        return Err(NoMemory);
    }
    Ok(depth + 1)
}

/// The depth where the name of a base is looked up.
pub(crate) fn depth_of_lookup(depth: u32) -> u32 {
    depth.saturating_add(LOOKUP_DEPTH)
}
