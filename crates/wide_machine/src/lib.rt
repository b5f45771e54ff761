//! Whether vectors are worth their while on the processors that a build is for.
//!
//! Its one function has no clause. So whoever calls it is proved for both answers, and a build for
//! processors with wide vectors may be given the other one.
#![tactic(auto)]

/// Returns whether the processors that this is built for have vectors that are wide enough to be
/// faster than words.
///
/// Nothing is promised of the answer. It is one constant in each build, so the compiler drops the
/// other way.
#[inline(always)]
pub fn is_wide() -> bool {
    false
}
