//! Laws of the definitions, for whoever rests on them.
ghost use Rattle.canary_argo.specs.Translating.{ConstantsBetween};

use canary_decimal::laws::short_constants;

/// Each constant of a condition lies between `reporting::LEAST` and `reporting::GREATEST`. So the
/// number that is reported for an infinity compares to it as the infinity does.
pub fn constants_between()
    ensures { ConstantsBetween }
{
    short_constants();
}
