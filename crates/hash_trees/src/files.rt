//! The root of a file that is kept in blocks.

ghost use Rattle.std.specs.Option.{option_copied};
ghost use Rattle.std.specs.Prelude.{◌≡◌, ◌<◌, [], unwrap_or, IfOk};
ghost use Rattle.hash_trees.specs.Files.{file_message, file_root, file_root_over};
ghost use Rattle.hash_trees.specs.Trees.{root};
ghost use Rattle.sha2.specs.Sha512.{sha512_256};

use crate::Digest;
use crate::trees::root;
use sha2::{Digest as Hasher, Sha512_256};
use std::alloc::{AllocError, Global};

/// The numbers of a file whose blocks are kept in records.
#[derive(Clone, Copy)]
pub struct FileNumbers {
    /// How many records of a block give the block back.
    pub min: u64,
    /// How many records a block has.
    pub total: u64,
    /// How many bytes a block has, but for the last one.
    pub block_size: u64,
    /// How many bytes the file has.
    pub size: u64,
}

/// The digest of the numbers of a file, and of what is above the roots of its blocks.
fn file_digest(numbers: FileNumbers, top: &[u8]) -> Digest
    ensures { result ≡ sha512_256 (file_message numbers top.now) }
{
    let mut hasher = Sha512_256::new();
    hasher.update(&[2u8]);
    hasher.update(&numbers.min.to_be_bytes());
    hasher.update(&numbers.total.to_be_bytes());
    hasher.update(&numbers.block_size.to_be_bytes());
    hasher.update(&numbers.size.to_be_bytes());
    hasher.update(top);
    hasher.finalize()
}

/// Returns the root of a file with these numbers from the top of the tree over its blocks, as
/// [`file_root`] does from the roots of the blocks. A file without a block has no such tree, and
/// then the top is `None`.
///
/// ```
/// use hash_trees::{FileNumbers, file_root, file_root_above, leaf_digest, root};
/// let numbers = FileNumbers { min: 10, total: 16, block_size: 1024, size: 2000 };
/// let roots = [leaf_digest(b"one"), leaf_digest(b"two")];
/// let top = root(alloc, &roots)?;
/// file_root_above(numbers, Some(&top)) == file_root(alloc, numbers, &roots)?; // true
/// &file_root_above(numbers, Some(&top))[..8]; // [97, 116, 44, 16, 111, 28, 65, 78]
/// let numbers = FileNumbers { min: 10, total: 16, block_size: 1024, size: 0 };
/// &file_root_above(numbers, None)[..8]; // [119, 25, 141, 209, 70, 223, 42, 171]
/// ```
pub fn file_root_above(numbers: FileNumbers, top: Option<&Digest>) -> Digest
    ensures { result ≡ file_root_over sha512_256 numbers (unwrap_or (option_copied top.entry) []) }
{
    match top {
        Some(top) => file_digest(numbers, top),
        None => file_digest(numbers, &[]),
    }
}

/// Returns the root of a file with these numbers, whose blocks have these roots.
///
/// It is the digest of a byte of 2, `min`, `total`, `block_size` and `size`, eight bytes each, the
/// highest first, and the root of the tree whose leaves are the roots of the blocks. A file without
/// a block has nothing behind its numbers.
///
/// ```
/// use hash_trees::{FileNumbers, file_root, leaf_digest};
/// let numbers = FileNumbers { min: 10, total: 16, block_size: 1024, size: 2000 };
/// let roots = [leaf_digest(b"one"), leaf_digest(b"two")];
/// &file_root(alloc, numbers, &roots)?[..8]; // [97, 116, 44, 16, 111, 28, 65, 78]
/// let numbers = FileNumbers { min: 10, total: 16, block_size: 1024, size: 0 };
/// &file_root(alloc, numbers, &[])?[..8]; // [119, 25, 141, 209, 70, 223, 42, 171]
/// ```
pub fn file_root(
    alloc: Global,
    numbers: FileNumbers,
    block_roots: &[Digest],
) -> Result<Digest, AllocError>
    ensures { IfOk result (λ top. top ≡ file_root sha512_256 numbers block_roots.now) }
{
    if block_roots.is_empty() {
        return Ok(file_root_above(numbers, None));
    }
    let top = root(alloc, block_roots)?;
    Ok(file_root_above(numbers, Some(&top)))
}
