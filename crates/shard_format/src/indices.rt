//! How many shards are there, where copies count once.

ghost use Rattle.std.specs.Prelude.{◌≡◌, ◌<◌, ◌==◌, ◌||◌, ℕ, length, slice_index_or, count_by, IfOk, false};
ghost use Rattle.shard_format.specs.Indices.{distinct_among};

use math_base::algebra::Mem;
use std::alloc::Global;

/// Returns how many of the numbers below `total` are among the indices, in any order and some of
/// them more than once.
///
/// So many of the shards of a block with these indices count. If they are fewer than MIN, they do
/// not give the block back.
pub fn count_distinct(alloc: Global, total: u32, indices: &[u32]) -> Mem<usize>
    ensures { IfOk result (λ count. count ≡ distinct_among total indices.now) }
{
    let mut marks = vec![in alloc; false; total as usize]?;
    for index in indices {
        set_mark(&mut marks, *index);
    }
    Ok(count_set(&marks))
}

/// Sets the mark at this place, where there is one.
#[tactic(auto, using(crate::proofs::MarkedIndices::mark_set, crate::proofs::MarkedIndices::mark_past))]
fn set_mark(marks: &mut Vec<bool>, place: u32)
    ensures count { length marks.new.items ≡ length marks.old.items }
    ensures places { (i : ℕ) → i < length marks.old.items → slice_index_or marks.new.items i false
        ≡ ((place == i) || slice_index_or marks.old.items i false) }
{
    let place = place as usize;
    if place < marks.len() {
        marks[place] = true;
    }
}

/// How many marks are set.
fn count_set(marks: &[bool]) -> usize
    ensures { result ≡ count_by (λ mark. mark) marks.now }
{
    let mut count = 0;
    for mark in marks {
        if *mark {
            count += 1;
        }
    }
    count
}
