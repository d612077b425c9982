//! Conditions of Argo Rollouts.
use canary_condition::condition::Comparison;
use canary_decimal::decimal::ShortDecimal;

/// What a condition looks at in what was measured.
#[derive(Clone, Copy)]
pub enum ResultPart {
    /// `result`: the one value.
    Whole,
    /// `result[i]`: the value at that place, from 0, of a list.
    Item(u64),
    /// `len(result)`: how many values a list has.
    Length,
}

/// The function in which a value stands.
#[derive(Clone, Copy)]
pub enum Function {
    /// None.
    Plain,
    /// `asFloat(..)`.
    AsFloat,
    /// `asInt(..)`: the value is cut off towards 0.
    AsInt,
    /// `default(.., number)`: the number in place of null.
    Default(ShortDecimal),
}

/// A value that was measured, as a comparison has it.
#[derive(Clone, Copy)]
pub struct Look {
    pub place: ResultPart,
    pub function: Function,
    /// Whether brackets stand round it.
    pub bracketed: bool,
}

/// A number, as a comparison has it.
#[derive(Clone, Copy)]
pub struct Amount {
    pub number: ShortDecimal,
    /// Whether brackets stand round it.
    pub bracketed: bool,
}

/// A comparison of a value that was measured with a number.
#[derive(Clone, Copy)]
pub struct Test {
    pub look: Look,
    pub comparison: Comparison,
    pub amount: Amount,
    /// Whether the number stands first.
    pub turned: bool,
}

/// A token of a condition.
#[derive(Clone, Copy)]
pub enum ArgoToken {
    /// `==`, `!=`, `<`, `<=`, `>` or `>=`.
    Compares(Comparison),
    /// `||` or `or`.
    OrSign,
    /// `&&` or `and`.
    AndSign,
    /// `!` or `not`.
    NotSign,
    /// `(`.
    Open,
    /// `)`.
    Close,
    /// `[`.
    OpenItem,
    /// `]`.
    CloseItem,
    /// `result`.
    ResultWord,
    /// `asFloat`.
    AsFloatWord,
    /// `asInt`.
    AsIntWord,
    /// `default`.
    DefaultWord,
    /// `len`.
    LenWord,
    /// `isNaN`.
    NaNWord,
    /// `isInf`.
    InfWord,
    /// `,`.
    Comma,
    /// A number of at most 15 digits, with its sign.
    Number(ShortDecimal),
}

/// A sign between comparisons, or a comparison.
#[derive(Clone, Copy)]
pub enum Item {
    Or,
    And,
    Not,
    Open,
    Close,
    Compare(Test),
    /// `isNaN(..)`.
    NaN(ResultPart),
    /// `isInf(..)`.
    Inf(ResultPart),
}
