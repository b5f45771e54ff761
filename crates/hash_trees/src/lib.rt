//! Trees of hashes: one digest, the root, that binds a list of records.
//!
//! A leaf is the digest of a byte of 0 and a record. Each level above it has a node for each two
//! nodes, the digest of a byte of 1 and their digests; a last node without a neighbour goes up as
//! it is. So the shape follows from the number of leaves, as in RFC 6962, and nothing is hashed
//! twice. The path of a record is the list of the neighbours' digests on its way up: with it, the
//! record is checked against the root alone.
//!
//! Whoever knows a root can check a record that anyone hands him. Two records that both pass are
//! the same, or two different messages that were hashed have the same digest: see `laws`. The hash
//! function is SHA-512/256; the laws hold for any other whose digests have 32 bytes.
//!
//! The digests of the two children of each node may be kept as pairs, that of the root first.
//! Whoever knows the root reads them from its pair down to the leaves, and takes none that is
//! wrong.
//!
//! A root hides nothing of the records, and it binds them only where it comes from a trusted place.
#![tactic(auto)]

mod descent;
mod digests;
mod files;
pub mod laws;
mod path_lengths;
mod paths;
mod tree_levels;
mod trees;

pub use descent::{Descent, Node};
pub use digests::{leaf_digest, node_digest};
pub use files::{FileNumbers, file_root, file_root_above};
pub use path_lengths::path_steps;
pub use paths::{is_leaf_under, is_under, path, root_by_path};
pub use tree_levels::Tree;
pub use trees::{above, is_root_of, root};

/// A digest: 32 bytes.
pub type Digest = [u8; 32];
