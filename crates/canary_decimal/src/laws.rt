//! Laws of the definitions, for whoever rests on them.
ghost use Rattle.canary_decimal.specs.Endings.{OneEnding};
ghost use Rattle.canary_decimal.specs.Exactness.{ComparesAsDecimals};
ghost use Rattle.canary_decimal.specs.Reader.{ReadsWhatIsSpelled};
ghost use Rattle.canary_decimal.specs.Short.{ShortConstants};

/// What stands for a decimal compares to the constants of a condition as the decimal does to the
/// decimals that stood there.
pub fn compares_as_decimals()
    ensures { ComparesAsDecimals }
{}

/// The decimal that is read of a text is the one that the text spells, and each text that spells
/// one is read. So a text spells at most one.
pub fn reads_what_is_spelled()
    ensures { ReadsWhatIsSpelled }
{}

/// The constant of a decimal whose number fits, in more places than it has, is its constant.
pub fn short_constants()
    ensures { ShortConstants }
{}

/// A label is a name with an ending in one way at most.
pub fn one_ending()
    ensures { OneEnding }
{}
