//! The roots of the blocks of a file that is written, and the tree over them.
//!
//! They are kept in memory as long as they are few. Then they go to a file of the run, and so do
//! the levels of the tree, one behind the other: so a file of any length takes the same memory.

use hash_trees::{Digest, Tree, above};
use partial_files::fault::copy_of;
use partial_files::partial::Manner;
use partial_files::scratch::Scratch;
use shard_files::fault::Fault;
use std::alloc::{AllocError, Global};
use std::mem;

/// How many roots are kept in memory, at most.
const MOST_IN_MEMORY: usize = 1 << 17;

/// How many digests of a level are read at once: an even number.
const AT_ONCE: usize = 1 << 11;

/// How many bytes a digest has.
const DIGEST_SIZE: u64 = 32;

/// The roots of blocks, in their order.
#[derive(Drop)]
pub struct BlockRoots {
    /// How many there are, and the last one.
    pub count: usize,
    last: Digest,
    /// Those that are not in the file.
    kept: Vec<Digest>,
    /// The file with the first ones, where there are many.
    scratch: Option<Scratch>,
    /// The tree over all of them, once it is made and where no file has it.
    tree: Option<Tree>,
    /// Where the levels of the tree begin in the file, the lowest first.
    levels: Vec<u64>,
    /// In which folder the file is made, and how.
    beside: String,
    how: Manner,
}

impl BlockRoots {
    /// None yet. If they become many, they go to a file in the folder of this name.
    pub fn new(alloc: Global, beside: &str, how: Manner) -> Result<BlockRoots, AllocError> {
        Ok(BlockRoots {
            count: 0,
            last: [0; 32],
            kept: Vec::new(alloc),
            scratch: None,
            tree: None,
            levels: Vec::new(alloc),
            beside: copy_of(alloc, beside)?,
            how,
        })
    }

    /// Adds the root of the next block.
    pub fn push(&mut self, rt: &HostRuntime, root: Digest) -> Result<(), Fault> {
        if self.kept.len() >= MOST_IN_MEMORY {
            self.move_to_file(rt)?;
        }
        self.kept.push(root)?;
        self.last = root;
        self.count = self.count.saturating_add(1);
        Ok(())
    }

    /// Writes those that are in memory to the file.
    fn move_to_file(&mut self, rt: &HostRuntime) -> Result<(), Fault> {
        if self.scratch.is_none() {
            self.scratch = Some(Scratch::create(rt, self.beside.as_str(), &self.how)?);
        }
        if let Some(scratch) = &mut self.scratch {
            append_digests(rt, scratch, &self.kept)?;
            self.kept.clear();
        }
        Ok(())
    }

    /// The root of the block with this number, which was added.
    pub fn root(&self, rt: &HostRuntime, number: usize) -> Result<Option<Digest>, Fault> {
        if number.saturating_add(1) == self.count {
            return Ok(Some(self.last));
        }
        if let Some(tree) = &self.tree {
            let pair = tree.pair(1, number / 2);
            return Ok(pair.map(|(left, right)| if number % 2 == 0 { left } else { right }));
        }
        let Some(scratch) = &self.scratch else {
            return Ok(self.kept.get(number).copied());
        };
        let in_file = self.count.saturating_sub(self.kept.len());
        if number >= in_file && !self.kept.is_empty() {
            return Ok(self.kept.get(number - in_file).copied());
        }
        let mut root = [0u8; 32];
        scratch.read(rt, DIGEST_SIZE.saturating_mul(number as u64), &mut root)?;
        Ok(Some(root))
    }

    /// Makes the tree over all of them, and gives its top; none where there is none.
    pub fn make_tree(&mut self, rt: &HostRuntime) -> Result<Option<Digest>, Fault> {
        if self.count == 0 {
            return Ok(None);
        }
        if self.scratch.is_some() {
            self.move_to_file(rt)?;
            return self.make_levels(rt);
        }
        if self.tree.is_none() {
            let leaves = mem::replace(&mut self.kept, Vec::new(rt.alloc()));
            if leaves.is_empty() {
                return Ok(None);
            }
            self.tree = Some(Tree::new(rt.alloc(), leaves)?);
        }
        match &self.tree {
            Some(tree) => Ok(Some(tree.root())),
            None => Ok(None),
        }
    }

    /// Writes the levels of the tree behind its leaves in the file, and gives its top.
    fn make_levels(&mut self, rt: &HostRuntime) -> Result<Option<Digest>, Fault> {
        let Some(scratch) = &mut self.scratch else {
            return Ok(None);
        };
        if self.levels.is_empty() {
            self.levels.push(0)?;
            let mut from = 0;
            let mut count = self.count;
            for _level in 0..usize::BITS {
                if count <= 1 {
                    break;
                }
                let next = scratch.length();
                append_above(rt, scratch, from, count)?;
                self.levels.push(next)?;
                from = next;
                count = count.div_ceil(2);
            }
        }
        let mut top = [0u8; 32];
        let at = scratch.length().saturating_sub(DIGEST_SIZE);
        scratch.read(rt, at, &mut top)?;
        Ok(Some(top))
    }

    /// The children of the node at this place of this level of the tree that was made, where it has
    /// two.
    pub fn pair(
        &self,
        rt: &HostRuntime,
        level: usize,
        place: usize,
    ) -> Result<Option<[Digest; 2]>, Fault> {
        if level == 0 {
            return Ok(None);
        }
        if let Some(tree) = &self.tree {
            return Ok(tree.pair(level, place).map(|(left, right)| [left, right]));
        }
        let (Some(scratch), Some(from)) = (&self.scratch, self.levels.get(level - 1)) else {
            return Ok(None);
        };
        let mut bytes = [0u8; 64];
        let at = (place as u64).saturating_mul(2 * DIGEST_SIZE);
        scratch.read(rt, from.saturating_add(at), &mut bytes)?;
        let (digests, _) = bytes.as_chunks::<32>();
        match digests {
            [left, right] => Ok(Some([*left, *right])),
            _ => Ok(None),
        }
    }

    /// Removes the file, where there is one.
    pub fn remove(&self, rt: &HostRuntime) {
        if let Some(scratch) = &self.scratch {
            scratch.remove(rt);
        }
    }
}

/// Writes digests at the end of the file.
fn append_digests(
    rt: &HostRuntime,
    scratch: &mut Scratch,
    digests: &[Digest],
) -> Result<(), Fault> {
    let mut bytes = Vec::new(rt.alloc());
    for digest in digests {
        bytes.extend_from_slice(digest)?;
    }
    Ok(scratch.append(rt, &bytes)?)
}

/// Writes the level above the one with so many digests from there on in the file at its end.
fn append_above(
    rt: &HostRuntime,
    scratch: &mut Scratch,
    from: u64,
    count: usize,
) -> Result<(), Fault> {
    let mut bytes = Vec::new(rt.alloc());
    let mut at = from;
    for part in 0..count.div_ceil(AT_ONCE) {
        let some = AT_ONCE.min(count.saturating_sub(part.saturating_mul(AT_ONCE)));
        bytes.resize(some * 32, 0)?;
        scratch.read(rt, at, &mut bytes)?;
        let (digests, _) = bytes.as_chunks::<32>();
        let nodes = above(rt.alloc(), digests)?;
        append_digests(rt, scratch, &nodes)?;
        at = at.saturating_add(bytes.len() as u64);
    }
    Ok(())
}
