//! What another program measured.
use canary_base::error::Memory;
use canary_base::names::{Label, Name};
use canary_decimal::reading::read;
use canary_measure::measured::{Given, Measured};
use std::alloc::Global;
use std::mem;

/// A line of another program: `SERVICE METRIC VALUE`.
#[derive(Clone, Copy)]
pub(crate) struct Said<'a> {
    pub(crate) service: &'a str,
    pub(crate) metric: &'a str,
    pub(crate) value: &'a str,
}

impl Said<'_> {
    /// What a line says, if it has these three.
    pub(crate) fn read(line: &str) -> Option<Said<'_>> {
        let (service, rest) = word_of(line)?;
        let (metric, rest) = word_of(rest)?;
        let value = rest.trim();
        if value.is_empty() {
            return None;
        }
        Some(Said {
            service,
            metric,
            value,
        })
    }
}

// The first word of a text, and what stands after it.
fn word_of(text: &str) -> Option<(&str, &str)> {
    let (word, rest) = text.trim_start().split_once(' ')?;
    if word.is_empty() {
        return None;
    }
    Some((word, rest))
}

/// What a value says was measured: a decimal, NaN, an infinity or null, or a list of these in
/// brackets with commas. None if it is invalid; or `Memory`.
pub(crate) fn measured_in(alloc: Global, value: &str) -> Result<Option<Measured>, Memory> {
    let Some(inside) = value
        .strip_prefix("[")
        .and_then(|rest| rest.strip_suffix("]"))
    else {
        return Ok(given_in(alloc, value)?.map(Measured::One));
    };
    if inside.trim().is_empty() {
        return Ok(Some(Measured::Several(Vec::new(alloc))));
    }
    match list_in(alloc, inside)? {
        Some(list) => Ok(Some(Measured::Several(list))),
        None => Ok(None),
    }
}

// What the items between the brackets of a list say; none if one is invalid; or `Memory`.
fn list_in(alloc: Global, inside: &str) -> Result<Option<Vec<Given>>, Memory> {
    let mut list = Vec::new(alloc);
    for item in inside.split(',') {
        match given_in(alloc, item.trim())? {
            Some(given) => list.push(given)?,
            None => return Ok(None),
        }
    }
    Ok(Some(list))
}

// What an item says: null, a decimal, NaN or an infinity. None for another text; or `Memory`.
fn given_in(alloc: Global, text: &str) -> Result<Option<Given>, Memory> {
    if text == "null" {
        return Ok(Some(Given::Null));
    }
    Ok(read(alloc, text)?.map(Given::Read))
}

// A value that was not reported yet.
#[derive(Drop)]
struct UnreportedValue {
    service: Name,
    metric: Label,
    measured: Measured,
    // When it came, in milliseconds of the call.
    came_at: u64,
}

/// The last value of each metric that was not reported yet.
#[derive(Drop)]
pub(crate) struct UnreportedValues {
    list: Vec<UnreportedValue>,
}

impl UnreportedValues {
    /// None.
    pub(crate) fn new(alloc: Global) -> UnreportedValues {
        UnreportedValues {
            list: Vec::new(alloc),
        }
    }

    /// Takes in a value of a metric, by its label in the plan, in the place of an earlier one.
    ///
    /// # Errors
    /// `Memory` if an allocation was refused; the earlier one may be gone then.
    pub(crate) fn put(
        &mut self,
        alloc: Global,
        service: Name,
        metric: Label,
        measured: Measured,
        now: u64,
    ) -> Result<(), Memory> {
        let _ = self.take(alloc, service, metric, now)?;
        self.list.push(UnreportedValue {
            service,
            metric,
            measured,
            came_at: now,
        })?;
        Ok(())
    }

    /// Takes out the value of a metric, if it did not come before this moment; or `Memory`.
    pub(crate) fn take(
        &mut self,
        alloc: Global,
        service: Name,
        metric: Label,
        since: u64,
    ) -> Result<Option<Measured>, Memory> {
        let list = mem::replace(&mut self.list, Vec::new(alloc));
        let mut found = None;
        for value in list {
            if value.service == service && value.metric == metric {
                found = measured_since(value, since);
            } else {
                self.list.push(value)?;
            }
        }
        Ok(found)
    }
}

// What was measured, unless it came before this moment of the call.
fn measured_since(value: UnreportedValue, since: u64) -> Option<Measured> {
    let UnreportedValue {
        measured,
        came_at,
        ..
    } = value;
    if came_at >= since {
        Some(measured)
    } else {
        None
    }
}
