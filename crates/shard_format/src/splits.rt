//! Which split the headers of some shard files belong to.

ghost use Rattle.std.specs.Prelude.{◌≡◌, ◌↔◌, ◌<◌, ◌≤◌, ◌++◌, [], ◌∷◌, List, All, Contains, IsTrue, IfSome, IfNone, IsSomeAnd};
ghost use Rattle.shard_format.specs.Splits.{AreOfOneSplit, AreTied, IfNoSplit, IfTaken, IfTied, IsEnough, IsLargestOf, IsMost, IsPossible, IsRightCount, IsRival, count_in, count_of_split};

use crate::header::Header;

/// Which split some headers give.
#[derive(Clone, Copy, Debug)]
pub enum Choice {
    /// A header of the split of which the most are there.
    Taken(Header),
    /// Headers of two splits of which equally many are there, and of no other more.
    Tied(Header, Header),
    /// Of no split as many are there as give a file back.
    None,
}

/// How many of the headers are of this one's split.
fn count_of_split(split: &Header, headers: &[Header]) -> usize
    ensures { result ≡ count_of_split split.now headers.now }
{
    let mut count = 0;
    for header in headers {
        if header.is_of_split(split) {
            count += 1;
        }
    }
    count
}

/// Whether a split can have its numbers, and so many of its headers are as many as give a file
/// back.
fn is_enough(header: &Header, count: usize) -> bool
    ensures { IsTrue result ↔ IsPossible header.now × (header.now.min ≤ count) }
{
    header.is_possible() && header.min as usize <= count
}

/// A header, and how many are of its split.
#[derive(Clone, Copy)]
struct Counted {
    header: Header,
    count: usize,
}

/// Whether the header is of the split that was counted, where one was.
fn is_counted(best: &Option<Counted>, header: &Header) -> bool
    ensures { IsTrue result ↔ IsSomeAnd best.now (λ b. AreOfOneSplit header.now b.header) }
{
    match best {
        Some(counted) => header.is_of_split(&counted.header),
        None => false,
    }
}

/// How many were counted; zero where none was.
fn count_in(best: &Option<Counted>) -> usize
    ensures { result ≡ count_in best.now }
{
    match best {
        Some(counted) => counted.count,
        None => 0,
    }
}

/// Whether so many headers of the split of this one are enough, and more than were counted.
fn is_more(best: &Option<Counted>, header: &Header, count: usize) -> bool
    ensures { IsTrue result
        ↔ (count_in best.now < count) × IsPossible header.now × (header.now.min ≤ count) }
{
    count_in(best) < count && is_enough(header, count)
}

/// How many of the headers are of this one's split, which is known where it is the split that was
/// counted last.
fn known_count(last: &Option<Counted>, header: &Header, headers: &[Header]) -> usize
    requires { IsRightCount headers.now last.now }
    ensures { result ≡ count_of_split header.now headers.now }
{
    match last {
        Some(counted) => {
            if header.is_of_split(&counted.header) {
                return counted.count;
            }
            count_of_split(header, headers)
        }
        None => count_of_split(header, headers),
    }
}

/// What was found of the headers that were seen: the largest split, and the one counted last.
#[derive(Clone, Copy)]
struct Seen {
    best: Option<Counted>,
    last: Option<Counted>,
}

/// What is found of one header more.
fn seen_more(seen: Seen, header: &Header, headers: &[Header]) -> Seen
    requires there { Contains headers.now header.now }
    requires right { IsRightCount headers.now seen.last }
    ensures largest { (before : List Header) → IsLargestOf headers.now before seen.best
        → IsLargestOf headers.now (before ++ header.now ∷ []) result.best }
    ensures right { IsRightCount headers.now result.last }
{
    if is_counted(&seen.best, header) {
        return seen;
    }
    let count = known_count(&seen.last, header, headers);
    let last = Some(Counted {
        header: *header,
        count,
    });
    if is_more(&seen.best, header, count) {
        return Seen { best: last, last };
    }
    Seen {
        best: seen.best,
        last,
    }
}

/// A header of a split of which enough are there, and no fewer than of each other such; `None`
/// where there is no such split.
fn largest(headers: &[Header]) -> Option<Counted>
    ensures { IsLargestOf headers.now headers.now result }
{
    let mut seen = Seen {
        best: None,
        last: None,
    };
    for header in headers {
        seen = seen_more(seen, header, headers);
    }
    seen.best
}

/// Whether so many headers of the split of this one are enough, and as many as were counted.
fn is_as_many(best: &Counted, header: &Header, count: usize) -> bool
    ensures { IsTrue result
        ↔ (count ≡ best.now.count) × IsPossible header.now × (header.now.min ≤ count) }
{
    count == best.count && is_enough(header, count)
}

/// A header of another split of which enough are there, and as many.
fn rival(best: &Counted, headers: &[Header]) -> Option<Header>
    ensures some { IfSome result (IsRival headers.now best.now) }
    ensures none { IfNone result (All (λ h. ¬ (IsRival headers.now best.now h)) headers.now) }
{
    let mut last = None;
    for header in headers {
        if header.is_of_split(&best.header) {
            continue;
        }
        let count = known_count(&last, header, headers);
        if is_as_many(best, header, count) {
            return Some(*header);
        }
        last = Some(Counted {
            header: *header,
            count,
        });
    }
    None
}

/// Returns which split the headers give.
///
/// It is the split with the most headers, of those with possible numbers and `min` headers or more.
/// If two splits have the most, equally many, it names both. If no split has so many, there is
/// none.
///
/// It counts a header's split, by a pass over all headers, unless that is the largest so far or the
/// one counted last. So headers of one split take two passes. If those of several are mixed, the
/// time may grow with the square of their number.
pub fn chosen_split(headers: &[Header]) -> Choice
    ensures taken { IfTaken result (IsMost headers.now) }
    ensures tied { IfTied result (AreTied headers.now) }
    ensures none { IfNoSplit result (All (λ h. ¬ (IsEnough headers.now h)) headers.now) }
{
    let Some(best) = largest(headers) else {
        return Choice::None;
    };
    match rival(&best, headers) {
        Some(other) => Choice::Tied(best.header, other),
        None => Choice::Taken(best.header),
    }
}
