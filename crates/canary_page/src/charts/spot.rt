//! What of a result a chart shows.
use canary_condition::outcome::{Outcome, Value};
use canary_decimal::shown::Units;
use canary_page_html::markup::Markup;

/// What of a result a condition names: `result` itself, or a place of a list, as `result[0]`.
#[derive(Clone, Copy, Debug, PartialEq, Eq, PartialOrd, Ord)]
pub(crate) enum Spot {
    Whole,
    Place(u64),
}

impl Spot {
    // The number that a measurement has there, if it has one.
    fn number_of(self, outcome: &Outcome) -> Option<i64> {
        match (self, outcome) {
            (Spot::Whole, Outcome::Result(Value::Whole(number))) => Some(*number),
            (Spot::Place(place), Outcome::Result(Value::List(values))) => values.get(place),
            _ => None,
        }
    }

    // The same, unless it stands for NaN.
    pub(crate) fn drawn_of(self, units: Units, outcome: &Outcome) -> Option<i64> {
        let number = self.number_of(outcome)?;
        if units.is_nan(self.place(), number) {
            return None;
        }
        Some(number)
    }

    // The place of a list; none of a result that is one number.
    pub(crate) fn place(self) -> Option<u64> {
        match self {
            Spot::Whole => None,
            Spot::Place(place) => Some(place),
        }
    }
}

// A number that is reported there, as people read it.
pub(crate) fn number_text(page: &mut Markup, units: Units, spot: Spot, number: i64) {
    page.text(units.text(spot.place(), number).as_str());
}

// A spot, as a condition writes it.
pub(crate) fn spot_text(page: &mut Markup, spot: Spot) {
    page.text("result");
    if let Spot::Place(place) = spot {
        page.text("[");
        page.number(place);
        page.text("]");
    }
}
