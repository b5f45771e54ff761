//! How the shards of a split lie, and strips of their columns.

ghost use Rattle.std.specs.Prelude.{◌≡◌, ◌+◌, ◌/◌, ◌<◌, ◌≤◌, ◌^◌, IfNone, IfSome};

use math_transforms::transform::lg_of;

/// Rows of one width: any `min` shards of `total` give the data back, which fill `min` rows, and
/// each shard is a row of values at a point of its own. 2^lg points are the least domain that has
/// so many.
#[derive(Clone, Copy)]
pub struct Layout {
    /// How many shards give the data back.
    pub min: u32,
    /// How many shards there are.
    pub total: u32,
    /// How many cells a shard has.
    pub width: usize,
    /// There are 2^lg points.
    pub lg: u8,
    ghost some: { 1 ≤ min },
    ghost within: { min ≤ total },
    ghost short: { total < 2 ^ 32 },
    ghost points: { total ≤ 2 ^ lg },
    ghost least: { 2 ^ lg / 2 < total },
    ghost domain: { lg ≤ 32 },
}

impl Layout {
    /// Returns the layout for shards of so many cells. `min` is at least 1, and at most `total`.
    pub fn new(min: u32, total: u32, width: usize) -> Layout
        requires some { 1 ≤ min }
        requires within { min ≤ total }
        ensures min { result.min ≡ min }
        ensures total { result.total ≡ total }
        ensures width { result.width ≡ width }
    {
        let lg = lg_of((total as usize).next_power_of_two());
        Layout {
            min,
            total,
            width,
            lg,
        }
    }

    /// Returns the layout for shards of so many cells, or `None` if no shards can have these
    /// numbers.
    pub fn checked(min: u32, total: u32, width: usize) -> Option<Layout>
        ensures some { IfSome result (λ layout. (layout.min ≡ min) × (layout.total ≡ total)
            × (layout.width ≡ width)) }
        ensures none { IfNone result (¬ ((1 ≤ min) × (min ≤ total))) }
    {
        if 1 <= min && min <= total {
            Some(Layout::new(min, total, width))
        } else {
            None
        }
    }

    /// Returns the lg of the least number of points, a power of two, that is `min` or more.
    pub fn part(self) -> u8
        ensures enough { self.min ≤ 2 ^ result }
        ensures within { result ≤ self.lg }
    {
        lg_of((self.min as usize).next_power_of_two())
    }
}

/// Some columns of the rows of a layout: as many as `cols`, from column `from` on.
#[derive(Clone, Copy)]
pub struct Strip {
    /// The rows.
    pub layout: Layout,
    /// The first column.
    pub from: usize,
    /// How many columns there are.
    pub cols: usize,
    ghost inside: { from + cols ≤ layout.width },
}
