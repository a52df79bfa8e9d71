//! The hops of paths, and the nodes at which paths end.
ghost use Rattle.std.specs.Prelude.{◌≡◌, ◌++◌, map, OnOk};
ghost use Rattle.network.specs.Trees.{hops_of, hops_after, all_hops, end_of, ends_of};
ghost use Rattle.network.specs.Code.Views.{items_of};

use network::Hop;
use std::alloc::AllocError;

/// Appends the hops of the path that begins with `from`.
fn push_after(hops: &mut Vec<Hop>, from: usize, others: &[usize]) -> Result<(), AllocError>
    ensures { OnOk result (hops.new.items ≡ hops.old.items ++ hops_after from others.now) }
{
    let mut from = from;
    for to in others {
        hops.push(Hop { from, to: *to })?;
        from = *to;
    }
    Ok(())
}

/// Appends the hops of a path.
fn push_hops(hops: &mut Vec<Hop>, path: &[usize]) -> Result<(), AllocError>
    ensures { OnOk result (hops.new.items ≡ hops.old.items ++ hops_of path.now) }
{
    match path.split_first() {
        Some((first, others)) => push_after(hops, *first, others),
        None => Ok(()),
    }
}

/// Appends the hops of these paths, path by path.
pub fn push_all(hops: &mut Vec<Hop>, paths: &[Vec<usize>]) -> Result<(), AllocError>
    ensures { OnOk result (hops.new.items ≡ hops.old.items ++ all_hops (map items_of paths.now)) }
{
    for path in paths {
        push_hops(hops, path.as_slice())?;
    }
    Ok(())
}

/// Appends the last node of a path.
fn push_end(ends: &mut Vec<usize>, path: &[usize]) -> Result<(), AllocError>
    ensures { OnOk result (ends.new.items ≡ ends.old.items ++ end_of path.now) }
{
    match path.last() {
        Some(end) => Ok(ends.push(*end)?),
        None => Ok(()),
    }
}

/// Appends the last nodes of these paths, path by path.
pub fn push_ends(ends: &mut Vec<usize>, paths: &[Vec<usize>]) -> Result<(), AllocError>
    ensures { OnOk result (ends.new.items ≡ ends.old.items ++ ends_of (map items_of paths.now)) }
{
    for path in paths {
        push_end(ends, path.as_slice())?;
    }
    Ok(())
}
