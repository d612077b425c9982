//! Decimals, exactly, and the whole numbers that stand for them in a desk's conditions.
//!
//! Callers may rest on this: `reading::read` reads each text of its grammar as the decimal that it
//! spells, and no other; what `to_multiple` gives compares to what `to_constant` gives as the
//! decimals do that they were made of, whichever stands first (`laws::compares_as_decimals`); and
//! what `point::with_point` writes of a whole number spells it, over 10^places, exactly.
//!
//! In use (canary_argo, src/lexer.rt):
//!
//!     match decimal(alloc, text.as_slice())? {
//!         Some(number) => Ok(held(number.short())),
//!         None => Ok(None),
//!     }
#![tactic(auto)]

pub mod decimal;
pub mod laws;
pub mod point;
pub mod reading;
pub mod shown;
pub mod text;
