//! The pairs of the tree over the blocks of a file that is written.

use crate::block_roots::BlockRoots;
use hash_trees::{Descent, Digest};
use partial_files::partial::Partial;
use shard_files::fault::Fault;
use shard_files::sources::ShardFile;
use shard_files::split::Split;
use shard_files::tree::{OTHER_PAIRS, read_pair};

/// How many bytes of pairs are written at once.
const PAIRS_AT_ONCE: usize = 1 << 16;

/// A pair of the tree, and how many come before it.
#[derive(Clone, Copy)]
struct Pair {
    place: usize,
    left: Digest,
    right: Digest,
}

/// Goes down by the next pair, and gives it, or passes over the next leaf.
fn next_pair(
    rt: &HostRuntime,
    roots: &BlockRoots,
    descent: &mut Descent,
) -> Result<Option<Pair>, Fault> {
    let Some(node) = descent.next() else {
        return Ok(None);
    };
    let Some(children) = roots.pair(rt, node.level, node.place)? else {
        descent.pass();
        return Ok(None);
    };
    let place = descent.pair_place();
    let left = children[0];
    let right = children[1];
    descent.enter(&left, &right)?;
    Ok(Some(Pair { place, left, right }))
}

/// Writes the pairs of the tree over blocks with these roots at the end of each of the files, and
/// gives its top, or none where there is no block.
pub fn write_pairs(
    rt: &HostRuntime,
    roots: &mut BlockRoots,
    partials: &mut [Partial],
) -> Result<Option<Digest>, Fault> {
    let Some(top) = roots.make_tree(rt)? else {
        return Ok(None);
    };
    let mut bytes = Vec::new(rt.alloc());
    if roots.count >= 1 {
        let mut descent = Descent::new(rt.alloc(), top, roots.count)?;
        for _node in 0..roots.count.saturating_mul(2) {
            if let Some(pair) = next_pair(rt, roots, &mut descent)? {
                let left = pair.left;
                let right = pair.right;
                bytes.extend_from_slice(&left)?;
                bytes.extend_from_slice(&right)?;
            }
            if bytes.len() >= PAIRS_AT_ONCE {
                append_to_all(rt, &bytes, partials)?;
                bytes.clear();
            }
        }
    }
    append_to_all(rt, &bytes, partials)?;
    Ok(Some(top))
}

/// Writes the bytes at the end of each of the files.
fn append_to_all(rt: &HostRuntime, bytes: &[u8], partials: &mut [Partial]) -> Result<(), Fault> {
    for partial in partials.iter_mut() {
        partial.append(rt, bytes)?;
    }
    Ok(())
}

/// Compares the pairs of each file with those of the tree over blocks with these roots, and notes
/// at the file where one is another.
pub fn compare_pairs(
    rt: &HostRuntime,
    split: &Split,
    roots: &mut BlockRoots,
    files: &mut [ShardFile],
) -> Result<(), Fault> {
    let Some(top) = roots.make_tree(rt)? else {
        return Ok(());
    };
    if roots.count < 1 {
        return Ok(());
    }
    let mut descent = Descent::new(rt.alloc(), top, roots.count)?;
    for _node in 0..roots.count.saturating_mul(2) {
        if let Some(pair) = next_pair(rt, roots, &mut descent)? {
            note_others(rt, split, pair, files)?;
        }
    }
    Ok(())
}

/// Notes at each of the files whose pair at this place is another.
fn note_others(
    rt: &HostRuntime,
    split: &Split,
    pair: Pair,
    files: &mut [ShardFile],
) -> Result<(), Fault> {
    let left = pair.left;
    let right = pair.right;
    for file in files.iter_mut() {
        if !file.is_used() {
            continue;
        }
        let mut read = [[0u8; 32]; 2];
        let is_there = read_pair(rt, split, file, pair.place as u64, &mut read)?;
        if !is_there || read[0] != left || read[1] != right {
            file.note(OTHER_PAIRS);
        }
    }
    Ok(())
}
