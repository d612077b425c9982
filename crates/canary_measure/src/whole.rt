//! Whole numbers as they stand.
ghost use Rattle.std.specs.Prelude.{ℤ, MatchOption};
ghost use Rattle.canary_measure.specs.Measures.{measured_of, IsAnswer};
ghost use Rattle.canary_measure.specs.Wholes.{IsWholeOf, IsWhole};

use crate::measured::{Given, Measured};
use crate::why::NotReported;
use canary_condition::outcome::Value;
use canary_decimal::decimal::Decimal;
use canary_decimal::reading::Reading;

/// The one whole number that was measured, as it stands. It is of a label with no ending. A number
/// of which ten times does not fit an `i64` is refused.
pub fn whole_of(measured: &Measured) -> Result<Value, NotReported>
    ensures { IsAnswer result (IsWhole (measured_of measured.now)) }
{
    match measured {
        Measured::One(Given::Read(Reading::Number(decimal))) => match number(decimal) {
            Some(number) => Ok(Value::Whole(number)),
            None => Err(NotReported::NotWhole),
        },
        Measured::One(given) => Err(NotReported::of(given)),
        Measured::Several(_) => Err(NotReported::NotWhole),
    }
}

// The whole number that a decimal is.
fn number(decimal: &Decimal) -> Option<i64>
    ensures { MatchOption result
        ((z : ℤ) → IsWholeOf decimal.now z → ⊥)
        (λ z. IsWholeOf decimal.now z) }
{
    Some(decimal.to_constant(1)? / 10)
}
