ghost use Rattle.std.specs.Prelude.{◌≡◌, IfOk, take};
ghost use Rattle.dm_base.specs.Outside.{front_of};

use std::alloc::{AllocError, Global};

/// The first `count` bytes, or all where there are fewer.
pub(crate) fn first_bytes(bytes: &[u8], count: u64) -> &[u8]
    ensures { result.now ≡ take count bytes.now }
{
    bytes.get(..count as usize).unwrap_or(bytes)
}

/// A copy of the first `most + 1` bytes, or of all where there are fewer.
pub(crate) fn front(alloc: Global, bytes: &[u8], most: u32) -> Result<Vec<u8>, AllocError>
    ensures { IfOk result (λ copy. copy.items ≡ front_of most bytes.now) }
{
    Vec::from_slice(alloc, first_bytes(bytes, u64::from(most) + 1))
}
