//! Which rows of cells are filled.
//!
//! A byte other than 0 and 1 is more likely an error than a wish, and is refused. The words of a
//! row that is not filled were lost, and may never have been written. They count as zeros and are
//! not read: checkers of memory report where such a word decides anything.

ghost use Rattle.std.specs.Prelude.{◌≡◌, ◌<◌, ◌≤◌, ◌^◌, All, length};

/// Rows of cells, as many as a domain has points, of which those are filled whose byte is 1.
#[derive(Clone, Copy)]
pub struct FilledRows<'a> {
    /// The lg of the number of rows.
    pub lg: u8,
    /// How many cells a row has.
    pub cols: usize,
    /// For each row 1 or 0.
    pub bytes: &'a [u8],
    ghost small: { lg ≤ 32 },
    ghost rows: { length bytes.now ≡ 2 ^ lg },
    ghost some: { 0 < cols },
    ghost marks: { All (λ b. b ≤ 1) bytes.now },
}
