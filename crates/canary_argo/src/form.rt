//! How the values of a metric are reported.
ghost use Rattle.std.specs.Prelude.{◌≡◌, ◌≤◌, ◌++◌, OnOk, string_bytes};
ghost use Rattle.canary_argo.specs.Labels.{shape_text, has_length, suffix_of, units_of};
ghost use Rattle.canary_argo.specs.Reporting.{has_nan, has_infinite, has_null, is_plain};
ghost use Rattle.canary_decimal.specs.Endings.{beside_text, IsEnding, IsShape};

use crate::condition::{Function, Item, ResultPart, Test};
use crate::fault::{TranslationFault, UnsupportedSyntax};
use crate::{items, lexer};
use canary_base::error::Memory;
use canary_condition::outcome;
use canary_decimal::decimal::ShortDecimal;
use canary_decimal::shown::Beside;
use std::alloc::Global;

/// The least places of a form.
pub const MIN_PLACES: usize = 6;

/// The most values of a list.
pub const MAX_VALUES: u64 = outcome::MAX_VALUES as u64;

/// Which of the values that were measured are reported.
#[derive(Clone, Copy, Debug, PartialEq, Eq)]
pub enum Shape {
    /// The one value, as a number.
    One,
    /// The first value of a list, as a number.
    First,
    /// The first values of a list, so many at most, as a list.
    Several(u64),
    /// The length of a list, as it is, and then its first values, so many at most, as a list.
    Length(u64),
}

/// How the values of a metric are reported: in units of 10^-places, in this shape.
#[derive(Clone, Copy, Debug, PartialEq, Eq)]
pub struct Form {
    pub places: usize,
    pub shape: Shape,
    /// What is reported beside decimals; the rest is a failure.
    pub beside: Beside,
}

/// What the conditions of a metric look at.
#[derive(Clone, Copy, Debug, PartialEq, Eq)]
pub struct Needs {
    // One place more than the most digits after a point, and six at least.
    places: usize,
    // Whether one value is looked at, by `result`.
    whole: bool,
    // One more than the last place of a list that is looked at.
    most: u64,
    // Whether the length of a list is looked at.
    length: bool,
    // Whether NaN is asked for.
    nan: bool,
    // Whether an infinity is asked for.
    infinite: bool,
    // Whether a value stands in `default`.
    default: bool,
    // Whether a value stands without it.
    bare: bool,
    // Whether a value stands in no function, or in `isNaN` or `isInf`.
    plain: bool,
    // Whether a value stands in `asFloat`.
    float: bool,
    // Whether a value is cut off, by `asInt`.
    cut: bool,
}

impl Needs {
    /// What a metric without conditions looks at.
    pub fn none() -> Needs {
        Needs {
            places: MIN_PLACES,
            whole: false,
            most: 0,
            length: false,
            nan: false,
            infinite: false,
            default: false,
            bare: false,
            plain: false,
            float: false,
            cut: false,
        }
    }

    // With one more comparison.
    fn with(self, test: Test) -> Needs {
        let needs = self.with_place(test.look.place);
        if matches!(test.look.place, ResultPart::Length) {
            return needs;
        }
        needs
            .with_function(test.look.function)
            .with_number(test.amount.number)
    }

    // With one more number.
    fn with_number(self, number: ShortDecimal) -> Needs {
        Needs {
            places: self.places.max(number.places.saturating_add(1)),
            ..self
        }
    }

    // With one more value, in this function.
    fn with_function(self, function: Function) -> Needs {
        match function {
            Function::Default(number) => Needs {
                default: true,
                ..self.with_number(number)
            },
            Function::AsInt => Needs {
                bare: true,
                cut: true,
                ..self
            },
            Function::AsFloat => Needs {
                bare: true,
                float: true,
                ..self
            },
            Function::Plain => self.with_plain(),
        }
    }

    // With one more value in no function.
    fn with_plain(self) -> Needs {
        Needs {
            bare: true,
            plain: true,
            ..self
        }
    }

    // With one more place.
    fn with_place(self, place: ResultPart) -> Needs {
        match place {
            ResultPart::Whole => Needs {
                whole: true,
                ..self
            },
            ResultPart::Item(place) => Needs {
                most: self.most.max(place.saturating_add(1)),
                ..self
            },
            ResultPart::Length => Needs {
                length: true,
                ..self
            },
        }
    }

    // With one more group.
    fn with_item(self, item: Item) -> Needs {
        match item {
            Item::Compare(test) => self.with(test),
            Item::NaN(place) => Needs {
                nan: true,
                ..self.with_place(place).with_plain()
            },
            Item::Inf(place) => Needs {
                infinite: true,
                ..self.with_place(place).with_plain()
            },
            _ => self,
        }
    }

    // With all comparisons of these groups.
    fn with_items(self, items: &[Item]) -> Needs {
        let mut needs = self;
        for item in items {
            needs = needs.with_item(*item);
        }
        needs
    }

    /// With one more condition of Argo Rollouts.
    ///
    /// # Errors
    /// As of `translate`.
    pub fn with_condition(self, alloc: Global, text: &str) -> Result<Needs, TranslationFault> {
        let text = text.as_bytes();
        let tokens = lexer::tokens_of(alloc, text)?;
        let items = items::items_of_text(alloc, text, tokens.as_slice())?;
        Ok(self.with_items(items.as_slice()))
    }

    // What is reported beside decimals. NaN is, unless a value stands in `asInt`: what Argo's makes
    // of NaN depends on the processor. Texts are, if each value stands in `asFloat` or `asInt`.
    fn beside(self) -> Beside {
        if self.default {
            Beside::Null
        } else if self.infinite {
            Beside::Infinite
        } else if self.nan {
            Beside::NaN
        } else {
            self.beside_functions()
        }
    }

    // The same for conditions without `default`, `isInf` and `isNaN`.
    fn beside_functions(self) -> Beside {
        match (self.cut, self.plain) {
            (true, true) => Beside::Nothing,
            (true, false) => Beside::WholeText,
            (false, false) if self.float => Beside::FloatText,
            _ => Beside::NaN,
        }
    }

    /// The form in which the values are reported. `Shape` if `result` stands beside `result[i]` or
    /// `len(result)`, `Place` if there is no room for a place in a list of 16 values, and `Default`
    /// if a value stands in `default`, and one without it.
    pub fn form(self) -> Result<Form, UnsupportedSyntax> {
        if self.default && self.bare {
            return Err(UnsupportedSyntax::Default);
        }
        if self.whole && (self.length || self.most > 0) {
            return Err(UnsupportedSyntax::Shape);
        }
        let room = if self.length {
            MAX_VALUES - 1
        } else {
            MAX_VALUES
        };
        if self.most > room {
            return Err(UnsupportedSyntax::Place);
        }
        let shape = match self.most {
            most if self.length => Shape::Length(most),
            0 => Shape::One,
            1 => Shape::First,
            most => Shape::Several(most),
        };
        Ok(Form {
            places: self.places,
            shape,
            beside: self.beside(),
        })
    }
}

impl Form {
    /// The form of a metric without conditions: decimals and NaN, with the fewest places.
    pub fn plain(shape: Shape) -> Form {
        Form {
            places: MIN_PLACES,
            shape,
            beside: Beside::NaN,
        }
    }

    /// Whether NaN is reported; otherwise it is a failure.
    pub fn has_nan(self) -> bool {
        has_nan(self.beside)
    }

    /// Appends the ending of a label under which values are reported in this form: `.e6` for one
    /// number in millionths, `.e6f` for the first value of a list, `.e6p2` for two of them, and
    /// `.e6l1` for its length and the first. A letter after the places says what else is reported:
    /// `n` NaN; `i` NaN, and each infinity as a number of its own; `s` the same, and null; `t` NaN,
    /// and a text as ParseFloat reads it; `w` a text as ParseInt reads it.
    pub fn suffix(self, out: &mut String) -> Result<(), Memory>
        ensures text { OnOk result (string_bytes out.new ≡ string_bytes out.old ++ suffix_of self) }
        ensures ending { OnOk result (6 ≤ self.places → self.places ≤ 18
            → IsEnding (suffix_of self) (units_of self)) }
    {
        let beside = beside_text(self.beside);
        write!(out, ".e{}{beside}", self.places)?;
        self.shape.suffix(out)
    }
}

impl Shape {
    // Appends the shape's part of a label: nothing for `One`, else a letter and its number, if any.
    fn suffix(self, out: &mut String) -> Result<(), Memory>
        ensures text { OnOk result
            (string_bytes out.new ≡ string_bytes out.old ++ shape_text self) }
        ensures shape { OnOk result (IsShape (has_length self) (shape_text self)) }
    {
        match self {
            Shape::One => {}
            Shape::First => out.push_str("f")?,
            Shape::Several(most) => write!(out, "p{most}")?,
            Shape::Length(most) => write!(out, "l{most}")?,
        }
        Ok(())
    }
}

// The letter in a label for what is reported beside decimals; empty if nothing is.
fn beside_text(beside: Beside) -> &'static str
    ensures { result.now ≡ beside_text beside }
{
    match beside {
        Beside::Nothing => "",
        Beside::NaN => "n",
        Beside::Infinite => "i",
        Beside::Null => "s",
        Beside::FloatText => "t",
        Beside::WholeText => "w",
    }
}

// Whether NaN is reported.
pub(crate) fn has_nan(beside: Beside) -> bool
    ensures { result ≡ has_nan beside }
{
    !matches!(beside, Beside::Nothing | Beside::WholeText)
}

// Whether the infinities have numbers of their own.
pub(crate) fn has_infinite(beside: Beside) -> bool
    ensures { result ≡ has_infinite beside }
{
    matches!(beside, Beside::Infinite | Beside::Null)
}

// Whether null is reported.
pub(crate) fn has_null(beside: Beside) -> bool
    ensures { result ≡ has_null beside }
{
    matches!(beside, Beside::Null)
}

// Whether neither null nor a text is reported as a number.
pub(crate) fn is_plain(beside: Beside) -> bool
    ensures { result ≡ is_plain beside }
{
    matches!(beside, Beside::Nothing | Beside::NaN | Beside::Infinite)
}
