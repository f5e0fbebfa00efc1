// The claims: each is the contract of an empty function, so that a check lists it by name.
ghost use Rattle.arithmetic.specs.Cases.{TableCases};
ghost use Rattle.arithmetic.specs.Numbering.{NumbersGiveBack};
ghost use Rattle.arithmetic.specs.Claims.{Orders, ResultsFit, SignedReading, UnsignedDivisions, LargeAmounts};

// The comparisons by flags are plain order, at every width.
pub fn orders()
    ensures { Orders }
{}

// A result lies below 2 to its width, unless the divisor is zero.
pub fn results_fit()
    ensures { ResultsFit }
{}

// The signed reading lies from -2^(k-1) to 2^(k-1)-1.
pub fn signed_reading()
    ensures { SignedReading }
{}

// `/u` and `%u` are the quotient cut towards zero and its remainder.
pub fn unsigned_divisions()
    ensures { UnsignedDivisions }
{}

// A shift by the width or more leaves nothing, or the top bit everywhere.
pub fn large_amounts()
    ensures { LargeAmounts }
{}

// W1 to W12.
pub fn table_cases()
    ensures { TableCases }
{}

// An operator's number gives the operator back.
pub fn numbers_give_back()
    ensures { NumbersGiveBack }
{}
