//! Why nothing is reported of what was measured.
ghost use Rattle.std.specs.Prelude.{◌≤◌, length, IfOk};

use crate::measured::Given;
use canary_base::error::Memory;
use canary_base::lists::Text;
use canary_condition::outcome::{FailureText, MAX_FAILURE_BYTES};
use canary_decimal::reading::Reading;
use std::alloc::Global;

/// Why nothing is reported of what was measured.
#[derive(Clone, Copy, Debug, PartialEq, Eq)]
pub enum NotReported {
    /// The label has an ending that is of no form.
    Label,
    /// A list, for a label of one value.
    List,
    /// One value, for a label of a list.
    One,
    /// A list with no value, for a label of some.
    Empty,
    /// More values than a desk takes.
    TooMany,
    /// NaN, for a label without it.
    NaN,
    /// An infinity, for a label with no ending.
    Infinite,
    /// A text, for a label that reads no texts, or no number in this one.
    Text,
    /// Null, for a label without it.
    Null,
    /// No whole number that fits, or several, for a label with no ending.
    NotWhole,
}

impl NotReported {
    // Why no number stands for a value.
    pub(crate) fn of(given: &Given) -> NotReported {
        match given {
            Given::Read(Reading::Number(_)) => NotReported::NotWhole,
            Given::Read(Reading::NotANumber) => NotReported::NaN,
            Given::Read(_) => NotReported::Infinite,
            Given::Text(_) => NotReported::Text,
            Given::Null => NotReported::Null,
        }
    }

    /// What it is, and what to write.
    pub fn text(self) -> &'static str
        ensures some { 1 ≤ length result.now }
        ensures few { length result.now ≤ MAX_FAILURE_BYTES }
    {
        match self {
            NotReported::Label => "the label has an ending that is of no form",
            NotReported::List => "a list for one value: write result[0] in the condition",
            NotReported::One => "one value for a list: write result in the condition",
            NotReported::Empty => "a list with no value",
            NotReported::TooMany => "more than 16 values",
            NotReported::NaN => "NaN: a label without n has no number for it",
            NotReported::Infinite => "an infinity: a label with no ending takes whole numbers",
            NotReported::Text => {
                "a text of which no number is made: write asFloat(result) at each value"
            }
            NotReported::Null => "null: no condition has default(result, 0)",
            NotReported::NotWhole => {
                "not one whole number that fits: a label that ends in .e6 takes decimals"
            }
        }
    }

    /// The same as a failure of a measurement; `Memory` if an allocation is refused.
    pub fn failure(self, alloc: Global) -> Result<FailureText, Memory> {
        let text = Text::of(String::from_str(alloc, self.text())?);
        Ok(FailureText::of(text).unwrap())
    }
}
