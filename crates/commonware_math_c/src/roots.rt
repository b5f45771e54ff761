//! Roots of blocks in systematic shards: 32 bytes that bind a block.

ghost use Rattle.std.specs.Prelude.{◌≡◌, ◌≢◌, ◌↔◌, ◌<◌, ◌≤◌, ◌-◌, ◌*◌, ◌^◌, ◌⊎◌, ℕ, List, length};
ghost use Rattle.sha2.specs.Sha512.{sha512_256};
ghost use Rattle.hash_trees.specs.Binding.{IsUnder};
ghost use Rattle.hash_trees.specs.Steps.{path_steps};
ghost use Rattle.hash_trees.specs.Trees.{path};
ghost use Rattle.systematic_shards.specs.declared.split.Split.{Split};
ghost use Rattle.shard_roots.specs.Commitments.{IsRootOfBlock};
ghost use Rattle.shard_roots.specs.Records.{record_of};
ghost use Rattle.c_calls.specs.RootedShards.{AreCommitted, AreJoinedUnder, HaveShardsFor};
ghost use Rattle.c_calls.specs.RootedShards.{HoldsOfShards, IsAnswer, IsJoiningDue};
ghost use Rattle.c_calls.specs.Statuses.{TestsSizes, done, inconsistent, mismatch};
ghost use Rattle.c_calls.specs.Statuses.{out_of_memory, too_many, wrong_index, wrong_root};
ghost use Rattle.c_calls.specs.Statuses.{wrong_size};
ghost use Rattle.c_calls.specs.SystematicRows.{HaveRowsFor, IsSplitOf};
ghost use Rattle.c_calls.specs.WordEncodings.{StandInFront};
ghost use Rattle.systematic_shards.specs.Splits.{IsSplit};

use c_calls::shards::is_split;
use c_calls::status::Status;
use c_calls::{roots, status, systematic};
use hash_trees::path_steps;
use shard_roots::Shard;
use std::alloc::Global;

/// Writes how many digests the path of shard `index` has, and how many the longest path has.
#[unsafe(no_mangle)]
pub extern "C" fn cwm_path_sizes(total: u32, index: u32, steps: &mut usize, room: &mut usize) -> u32
    ensures steps { result ≡ done → steps.new ≡ path_steps total index }
    ensures room { result ≡ done → room.new ≡ path_steps total 0 }
    ensures paths { result ≡ done → (h : List ℕ → List ℕ) (leaves : List (List ℕ))
        → length leaves ≡ total → length (path h leaves index) ≡ steps.new }
    ensures longest { result ≡ done → steps.new ≤ room.new }
    ensures kept { result ≢ done → (steps.new ≡ steps.old) × (room.new ≡ room.old) }
    ensures index { result ≡ wrong_index ↔ total ≤ index }
    ensures statuses { (result ≡ done) ⊎ (result ≡ wrong_index) }
{
    if index >= total {
        return Status::WrongIndex.code();
    }
    *steps = path_steps(total as usize, index as usize);
    *room = path_steps(total as usize, 0);
    Status::Done.code()
}

/// Writes the parity rows of the block, row after row, its mask, its root, and the path of each
/// shard in its place, with zeros behind it.
#[unsafe(no_mangle)]
pub extern "C" fn cwm_commit(
    alloc: Global,
    block: &[u8],
    min: u32,
    total: u32,
    parity: &mut [u8],
    mask: &mut u32,
    root: &mut [u8; 32],
    paths: &mut [[u8; 32]],
) -> u32
    ensures committed { result ≡ done → (split : Split)
        × IsSplitOf (length block.now) min total split
        × AreCommitted split block.now mask.new parity.new root.new paths.new }
    ensures kept { result ≢ done → (parity.new ≡ parity.old) × (mask.new ≡ mask.old)
        × (root.new ≡ root.old) × (paths.new ≡ paths.old) }
    ensures sizes { TestsSizes (IsSplit min total)
        (HaveRowsFor (length block.now) min total (total - min) (length parity.old)
        × (length paths.old ≡ total * path_steps total 0)) result }
    ensures many { result ≡ too_many → 2 ^ 16 < total }
    ensures statuses { (result ≡ done) ⊎ (result ≡ out_of_memory) ⊎ (result ≡ wrong_size)
        ⊎ (result ≡ mismatch) ⊎ (result ≡ too_many) }
{
    if !is_split(min, total) {
        return Status::Mismatch.code();
    }
    let count = (total - min) as usize;
    if !systematic::have_rows(block.len(), min, total, count, parity.len()) {
        return Status::WrongSize.code();
    }
    if !roots::have_all_places(total, paths.len()) {
        return Status::WrongSize.code();
    }
    match roots::write_commitment(alloc, block, min, total, parity, root, paths) {
        Ok(found) => {
            *mask = found;
            Status::Done.code()
        }
        Err(error) => status::of_roots(&error).code(),
    }
}

/// Writes 1 if the shard is under the root by its path, and else 0.
#[unsafe(no_mangle)]
pub extern "C" fn cwm_shard_is_under(
    root: &[u8; 32],
    shard: &[u8],
    size: usize,
    min: u32,
    total: u32,
    mask: u32,
    index: u32,
    path: &[[u8; 32]],
    under: &mut u32,
) -> u32
    ensures answered { result ≡ done → (split : Split) × IsSplitOf size min total split
        × IsAnswer (IsUnder sha512_256 split.total index
        (record_of split mask index shard.now) path.now root.now) under.new }
    ensures kept { result ≢ done → under.new ≡ under.old }
    ensures sizes { TestsSizes (IsSplit min total)
        (HaveRowsFor size min total 1 (length shard.now)) result }
    ensures statuses { (result ≡ done) ⊎ (result ≡ wrong_size) ⊎ (result ≡ mismatch) }
{
    if !is_split(min, total) {
        return Status::Mismatch.code();
    }
    if !systematic::have_rows(size, min, total, 1, shard.len()) {
        return Status::WrongSize.code();
    }
    let Some(split) = systematic::split_for(size, min, total) else {
        unreachable!()
    };
    let shard = Shard {
        index,
        mask,
        cells: shard,
        path,
    };
    *under = roots::is_under(root, split, &shard);
    Status::Done.code()
}

/// Writes the block of the shards that are under the root, and the positions of the others over the
/// first places of `left_out`. If `strict` is not 0, this is the root of the block.
#[unsafe(no_mangle)]
pub extern "C" fn cwm_join_under(
    alloc: Global,
    root: &[u8; 32],
    indices: &[u32],
    masks: &[u32],
    shards: &[u8],
    paths: &[[u8; 32]],
    min: u32,
    total: u32,
    strict: u32,
    block: &mut [u8],
    left_out: &mut [usize],
    many: &mut usize,
) -> u32
    ensures joined { result ≡ done → HoldsOfShards (length block.old) min total
        indices.now masks.now shards.now paths.now (λ split given. (positions : List ℕ)
        × AreJoinedUnder split root.now given block.new positions
        × (many.new ≡ length positions) × StandInFront positions left_out.old left_out.new) }
    ensures strict { result ≡ done → strict ≢ 0 → (split : Split)
        × IsSplitOf (length block.old) min total split
        × IsRootOfBlock sha512_256 split block.new root.now }
    ensures kept { result ≢ done → (block.new ≡ block.old) × (left_out.new ≡ left_out.old)
        × (many.new ≡ many.old) }
    ensures sizes { TestsSizes (IsSplit min total)
        (HaveShardsFor (length block.old) min total (length indices.now) (length masks.now)
        (length shards.now) (length paths.now)
        × (length indices.now ≤ length left_out.old)) result }
    ensures refused { IsJoiningDue (length block.old) min total
        indices.now masks.now shards.now paths.now root.now result }
    ensures strictly { result ≡ wrong_root → strict ≢ 0 }
    ensures statuses { (result ≤ inconsistent) ⊎ ((result ≡ too_many) ⊎ (result ≡ wrong_root)) }
{
    if !is_split(min, total) {
        return Status::Mismatch.code();
    }
    let size = block.len();
    let Some(held) = roots::shards_with_paths(size, min, total, indices, masks, shards, paths)
    else {
        return Status::WrongSize.code();
    };
    if left_out.len() < indices.len() {
        return Status::WrongSize.code();
    }
    match roots::write_joined(alloc, root, &held, strict != 0, block, left_out) {
        Ok(positions) => {
            *many = positions;
            Status::Done.code()
        }
        Err(error) => status::of_roots(&error).code(),
    }
}
