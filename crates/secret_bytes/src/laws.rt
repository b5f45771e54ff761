//! Laws of secrets of bytes, their shares and the lines of these, each the contract of a function
//! that does nothing.

ghost use Rattle.secret_bytes.specs.CombiningLaws.{AnyLinesCombine, AnySharesOfBytesCombine};
ghost use Rattle.secret_bytes.specs.CombiningLaws.{ChangesPassRarely};
ghost use Rattle.secret_bytes.specs.DealingLaws.{DealsOfBytesAreExplained, EachListIsDrawnOnce};
ghost use Rattle.secret_bytes.specs.DealingLaws.{ExplanationsAreDealt, SharesDifferInValuesAlone};
ghost use Rattle.secret_bytes.specs.Explanations.{EachSecretExplains, EachSecretOfBytesExplains};
ghost use Rattle.secret_bytes.specs.Explanations.{EachSecretOfBytesExplainsEquallyOften};
ghost use Rattle.secret_bytes.specs.KeyChecks.{ChangesAreSeen};
ghost use Rattle.secret_bytes.specs.Lines.{SlipsAreSeen};
ghost use Rattle.secret_bytes.specs.Texts.{LinesAreReadBack};

use math_base::algebra::Field;

/// Let something be added to n elements, to the key and to the check. If it does not depend on the
/// key, and changes one of the elements at least, the check fits for at most n + 1 keys.
pub fn changes_are_seen<R: Field>()
    ensures { ChangesAreSeen R.Ring }
{}

/// Let shares of distinct indices, of deals of some bytes, be changed by what does not depend on
/// the key. They combine to other bytes for at most n + 1 keys, n being the number of elements of
/// the bytes, whatever else is drawn for the deals, and however many shares are left out as wrong.
pub fn changes_pass_rarely()
    ensures { ChangesPassRarely }
{}

/// No line of a share becomes a line of any share by one wrong character, or by two neighbours
/// exchanged: so `share_in` refuses each such text.
pub fn slips_are_seen()
    ensures { SlipsAreSeen }
{}

/// `read_lines` reads what `text_of` writes as the shares that were written, line by line. It may
/// refuse for want of memory alone. It may answer these shares alone, with the numbers of their
/// lines from 1 on.
pub fn lines_are_read_back()
    ensures { LinesAreReadBack }
{}

/// Shares of a deal, or copies of them, combine to exactly the bytes that were dealt if at least t
/// of them have distinct indices. Their order does not matter, and some may be there more than
/// once. `combine` may refuse them for want of memory alone. It may answer these bytes alone, with
/// no share wrong.
pub fn any_shares_combine()
    ensures { AnySharesOfBytesCombine }
{}

/// Any text whose lines are those of such shares gives the bytes back, with or without white space
/// around the lines and blank lines between them. `read_lines` may refuse it for want of memory
/// alone, and the shares that it may answer `combine` as above.
pub fn any_lines_combine()
    ensures { AnyLinesCombine }
{}

/// Let t - 1 shares have distinct indices other than zero, and any values, one for each element.
/// Every list of elements explains them, and by exactly one list of polynomials of t coefficients,
/// one for each element.
///
/// So of all elements that are dealt, those of the bytes, the key and the check, t - 1 shares say
/// nothing but how many there are.
pub fn each_secret_explains()
    ensures { EachSecretExplains }
{}

/// Let t - 1 shares have distinct indices other than zero, and any values. Every secret of bytes
/// for which as many elements are dealt explains them with every key, and in exactly one way
/// (`once`): the bytes, the key and the check are one list of elements, three more than hold the
/// bytes, and these have exactly one list of polynomials of t coefficients.
///
/// So each secret explains them in exactly P ways, one for each key. It explains j shares, fewer
/// than t, in exactly P (P^(t - 1 - j))^w ways, w being the number of elements: as many, whatever
/// the secret is (`equally`).
pub fn each_secret_of_bytes_explains()
    ensures once { EachSecretOfBytesExplains }
    ensures equally { EachSecretOfBytesExplainsEquallyOften }
{}

/// A deal is one of these ways. Its identity, the key, and all coefficients but the constants are
/// drawn for it. The elements of its bytes with this key, and its polynomials, explain any of its
/// shares, and no other polynomials explain all of them (`deals`).
///
/// Each list of samples is drawn from exactly one run of accepted words, their numbers
/// (`drawn_once`). And whichever way explains some shares: a source that gives what is drawn for it
/// deals shares with the values of these (`back`). So to count ways is to count what may have been
/// drawn.
pub fn deals_are_explained()
    ensures deals { DealsOfBytesAreExplained }
    ensures drawn_once { EachListIsDrawnOnce }
    ensures back { ExplanationsAreDealt }
{}

/// The shares of two secrets of as many bytes, dealt from the same samples of a source, are the
/// same but for their values: each has the threshold, the index, the deal and the number of values
/// of its counterpart.
///
/// So of a share's line nothing but the values and their check depends on the secret, its length
/// aside.
pub fn shares_differ_in_values_alone()
    ensures { SharesDifferInValuesAlone }
{}
