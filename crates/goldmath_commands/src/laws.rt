//! What holds of the definitions that the contracts of this crate cite.
ghost use Rattle.goldmath_commands.specs.PrintedNumbers.{PrintedNumbersReadBack, PrintedNumbersHaveNoLeadingZero, NumbersArePrintedInOneWay};

/// The decimal text that is printed of a number of 64 bits writes that number, has no leading zero
/// unless the number is 0, and is the one text that does both.
pub fn printed_numbers()
    ensures read_back { PrintedNumbersReadBack }
    ensures no_leading_zero { PrintedNumbersHaveNoLeadingZero }
    ensures one_way { NumbersArePrintedInOneWay }
{}
