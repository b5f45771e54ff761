//! How many digests a path has.

ghost use Rattle.std.specs.Prelude.{◌≡◌, ◌<◌};
ghost use Rattle.hash_trees.specs.Steps.{path_steps};

use crate::paths::{half, is_alone};

/// Returns how many digests the path of the leaf at this index of `total` has: one for each level
/// on which its node has a neighbour.
///
/// ```
/// use hash_trees::path_steps;
/// path_steps(3, 0); // 2
/// path_steps(3, 2); // 1
/// path_steps(1, 0); // 0
/// ```
pub fn path_steps(total: usize, index: usize) -> usize
    requires { index < total }
    ensures { result ≡ path_steps total index }
{
    if total == 1 {
        return 0;
    }
    let higher = path_steps(half(total), index / 2);
    if is_alone(total, index) {
        higher
    } else {
        higher + 1
    }
}
