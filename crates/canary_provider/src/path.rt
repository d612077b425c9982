//! Paths into a value of JSON, as Argo Rollouts writes them: `{$.data.items[0].value}`.
//!
//! ```text
//! path := "" | "{$" step* "}"
//! step := "." name | "[" number "]"
//! ```
//!
//! A name has at least one byte, and none of those that JSONPath gives a meaning: no space, no
//! control, and none of `. [ ] { } ( ) * ? @ $ , : ' " \`. A number is decimal, without a 0 before
//! it. Filters, wildcards, unions, slices and counts from the end are no steps.
ghost use Rattle.std.specs.Prelude.{◌≡◌, ◌<◌, ◌≤◌, ◌++◌, [], ◌∷◌, length, flat_map, decimal};
ghost use Rattle.std.specs.Prelude.{option_map, IfOk, IfSome};
ghost use Rattle.json.specs.Value.{value_view};
ghost use Rattle.canary_provider.specs.Paths.{step_to, found, spelled, IsPathText, IsBraced};

use canary_base::error::Memory;
use canary_base::lists::Text;
use canary_base::numbers::Number;
use json::Value;
use std::alloc::Global;
use std::str;

/// A step of a path.
#[derive(Drop)]
pub enum JsonPathStep {
    /// `.NAME`: the member of that name. If there are several, it is the last.
    Member(Text),
    /// `[N]`: the item at that index, from 0.
    Item(u32),
}

/// A path.
#[derive(Drop)]
pub struct Path {
    /// Its steps, each from where the one before it leads.
    pub steps: Vec<JsonPathStep>,
}

// A step, and what stands after it.
type First<'t> = Option<(JsonPathStep, &'t [u8])>;

impl JsonPathStep {
    // Where the step leads from this value, if it has that member or item.
    fn to<'v, 'a>(&self, value: &'v Value<'a>) -> Option<&'v Value<'a>>
        ensures { option_map (λ v. value_view v.now) result
            ≡ step_to self.now (value_view value.now) }
    {
        match self {
            JsonPathStep::Member(name) => value.get(name.as_str()),
            JsonPathStep::Item(index) => value.at(*index as usize),
        }
    }
}

impl Path {
    /// The path that a text spells; none if it spells none; or `Memory`.
    pub fn read(alloc: Global, text: &str) -> Result<Option<Path>, Memory>
        ensures { IfOk result (λ read. IfSome read
            (λ path. IsPathText text.now path.steps.items)) }
    {
        match inside(text.as_bytes()) {
            Some(inside) => path_in(alloc, inside),
            None => Ok(None),
        }
    }

    /// The value to which it leads, if there is one.
    pub(crate) fn find<'v, 'a>(&self, value: &'v Value<'a>) -> Option<&'v Value<'a>>
        ensures { option_map (λ v. value_view v.now) result
            ≡ found self.now.steps.items (value_view value.now) }
    {
        follow(self.steps.as_slice(), value)
    }
}

// Where these steps lead, one after another; without any, to the value itself.
fn follow<'v, 'a>(steps: &[JsonPathStep], value: &'v Value<'a>) -> Option<&'v Value<'a>>
    ensures { option_map (λ v. value_view v.now) result ≡ found steps.now (value_view value.now) }
{
    match steps {
        [] => Some(value),
        [step, rest @ ..] => follow(rest, step.to(value)?),
    }
}

// What stands in the braces.
fn inside(text: &[u8]) -> Option<&[u8]>
    ensures { IfSome result (λ inside. IsBraced text.now inside.now) }
{
    match text {
        [] => Some(&[]),
        [b'{', b'$', inside @ .., b'}'] => Some(inside),
        _ => None,
    }
}

// The path whose steps stand so.
fn path_in(alloc: Global, inside: &[u8]) -> Result<Option<Path>, Memory>
    ensures { IfOk result (λ read. IfSome read
        (λ path. inside.now ≡ flat_map spelled path.steps.items)) }
{
    let mut steps = Vec::new(alloc);
    let mut rest = inside;
    while !rest.is_empty() {
        let Some((step, behind)) = first(alloc, rest)? else {
            return Ok(None);
        };
        steps.push(step)?;
        rest = behind;
    }
    Ok(Some(Path { steps }))
}

// The first step, and what stands after it.
fn first(alloc: Global, text: &[u8]) -> Result<First<'_>, Memory>
    ensures spelled { IfOk result (λ read. IfSome read
        (λ x. text.now ≡ spelled x.0 ++ x.1.now)) }
    ensures shorter { IfOk result (λ read. IfSome read
        (λ x. length x.1.now < length text.now)) }
{
    match text {
        [b'.', behind @ ..] => member(alloc, behind),
        [b'[', behind @ ..] => Ok(item(behind)),
        _ => Ok(None),
    }
}

// The member whose name the text begins with, and what stands after it.
fn member(alloc: Global, text: &[u8]) -> Result<First<'_>, Memory>
    ensures spelled { IfOk result (λ read. IfSome read
        (λ x. 46 ∷ text.now ≡ spelled x.0 ++ x.1.now)) }
    ensures shorter { IfOk result (λ read. IfSome read
        (λ x. length x.1.now < length (46 ∷ text.now))) }
{
    let (name, behind) = text.split_at(name_len(text));
    let Ok(name) = str::from_utf8(name) else {
        return Ok(None);
    };
    if name.is_empty() {
        return Ok(None);
    }
    let name = Text::of(String::from_str(alloc, name)?);
    Ok(Some((JsonPathStep::Member(name), behind)))
}

// How many bytes of a name it begins with.
fn name_len(text: &[u8]) -> usize
    ensures { result ≤ length text.now }
{
    text.iter()
        .position(|byte| !is_name_byte(*byte))
        .unwrap_or(text.len())
}

// Whether JSONPath gives it no meaning.
fn is_name_byte(byte: u8) -> bool {
    byte > b' ' && byte != 127 && !b".[]{}()*?@$,:'\"\\".contains(&byte)
}

// The item whose index the text begins with, a bracket, and what stands after it.
fn item(text: &[u8]) -> First<'_>
    ensures spelled { IfSome result (λ x. 91 ∷ text.now ≡ spelled x.0 ++ x.1.now) }
    ensures shorter { IfSome result (λ x. length x.1.now < length (91 ∷ text.now)) }
{
    let (digits, behind) = text.split_at(digits_len(text));
    let index = index_of(digits)?;
    match behind {
        [b']', behind @ ..] => Some((JsonPathStep::Item(index), behind)),
        _ => None,
    }
}

// How many digits it begins with.
fn digits_len(text: &[u8]) -> usize
    ensures { result ≤ length text.now }
{
    text.iter()
        .position(|byte| !byte.is_ascii_digit())
        .unwrap_or(text.len())
}

// The number of these digits.
fn index_of(digits: &[u8]) -> Option<u32>
    ensures { IfSome result (λ index. digits.now ≡ decimal index) }
{
    match digits {
        [b'0'] => Some(0),
        digits => Some(Number::read(digits)?.get()),
    }
}
