//! Laws of shares, each the contract of a function that does nothing.

ghost use Rattle.shared_secret.specs.Explanations.{DealsAreExplained, EachSecretExplainsOnce};
ghost use Rattle.shared_secret.specs.Explanations.{EachSecretExplainsByLast, EachSecretExplainsEquallyOften};
ghost use Rattle.shared_secret.specs.ShareLaws.{AnySharesCombine, DealtAreVerified, RefusalsExclude, VerifiedGiveCommitted};

use math_base::algebra::{CryptoGroup, Field, Random};

/// Any t or more shares of a deal, no two of one index, are combined to its secret: `combine`
/// refuses them for want of memory alone.
pub fn any_shares_combine<F: Field>()
    ensures { AnySharesCombine F.Ring }
{}

/// Every share of a deal is verified by the commitment of the deal.
pub fn dealt_are_verified<K: CryptoGroup>()
    ensures { DealtAreVerified K.Space K.Scalar.Ring K.generator }
{}

/// Verified shares, at least as many as the commitment has coefficients, combine to a secret that
/// is committed to: the generator scaled by it is the first coefficient of the commitment.
pub fn verified_give_committed<K: CryptoGroup>()
    ensures { VerifiedGiveCommitted K.Space K.Scalar.Ring K.generator }
{}

/// Whatever the holders of t - 1 shares see, every secret explains it, and each by exactly one
/// polynomial of t coefficients: the only one through the secret at zero and the shares at their
/// points.
///
/// Fewer shares leave more: with j of them there is exactly one such polynomial for each choice of
/// its last t - 1 - j coefficients. So in a field of q elements each secret explains what they see
/// in q to the power t - 1 - j ways, the same number for every secret.
pub fn each_secret_explains<F: Field>()
    ensures once { EachSecretExplainsOnce F.Ring }
    ensures last { EachSecretExplainsByLast F.Ring }
    ensures equally { EachSecretExplainsEquallyOften F.Ring }
{}

/// A deal is one of the ways in which its secret explains what is seen of it: the polynomial of the
/// deal, which is the secret and then the samples that were drawn, explains any of its shares. All
/// of them, t - 1 at least and at distinct points, are explained by no other one.
pub fn deals_are_explained<F: Field + Random>()
    ensures { DealsAreExplained F.Ring F.sample }
{}

/// `combine` and `combine_corrected` say what holds of the points if they give a secret, and what
/// if they refuse. These exclude each other: so each answer comes exactly where it is due, but for
/// want of memory.
pub fn refusals_exclude<F: Field>()
    ensures { RefusalsExclude F.Ring }
{}
