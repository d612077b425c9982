//! What was measured.
use canary_decimal::reading::Reading;
use canary_decimal::text::TextNumber;

/// A value that a provider gives.
#[derive(Drop)]
pub enum Given {
    /// A number, NaN or an infinity, as its text is read.
    Read(Reading),
    /// A text: what `asFloat` and `asInt` read in it.
    Text(TextNumber),
    /// `null`.
    Null,
}

/// What was measured.
#[derive(Drop)]
pub enum Measured {
    One(Given),
    Several(Vec<Given>),
}
