//! Compaction of the heap: the C library gives memory back to the system from the end of the heap alone.
ghost use Rattle.std.specs.Prelude.{◌≡◌, IfOk};

use std::alloc::{AllocError, Global};

/// With fewer virtual links, the tree of a description takes less than 15 MiB, and its pieces do not matter.
const MANY_VLS: usize = 2000;

/// The C library keeps a few dropped pieces of each size up to this one, in bytes, for later requests.
const GREATEST_KEPT: usize = 1032;

/// Moves the values into memory that is taken now. What they took before is free, and can be given back with what is free beside it.
pub fn moved<T: Drop>(alloc: Global, values: Vec<T>) -> Result<Vec<T>, AllocError>
    ensures { IfOk result (λ moved. moved.items ≡ values.items) }
{
    let mut old = values;
    let mut moved = Vec::with_capacity(alloc, old.len())?;
    moved.append(&mut old)?;
    Ok(moved)
}

/// Takes a piece of memory of each small size, and drops them, the last first, if a description has many virtual links.
///
/// The C library does not join the pieces that it keeps with the free memory beside them. Those that it kept while it gave out the tree of
/// a description lie all over the heap. Here these are taken, and the pieces that it keeps in their place lie together.
pub fn join_free_pieces(alloc: Global, vls: usize) -> Result<(), AllocError> {
    if vls < MANY_VLS {
        return Ok(());
    }
    let mut pieces = Vec::with_capacity(alloc, GREATEST_KEPT)?;
    for less in 0..GREATEST_KEPT {
        let piece: Vec<u8> = Vec::with_capacity(alloc, GREATEST_KEPT - less)?;
        pieces.push(piece)?;
    }
    pieces.reverse();
    Ok(())
}
