//! Laws of the definitions, for whoever rests on them.
ghost use Rattle.canary_measure.specs.Labelled.{OneForm};

use canary_decimal::laws::one_ending;

/// A label has one name and one form at most.
pub fn one_form()
    ensures { OneForm }
{
    one_ending();
}
