//! Objects in JSON, by a table of their members.
ghost use Rattle.std.specs.Prelude.{◌≡◌, IfOk, OnOk};
ghost use Rattle.serde_json.specs.Data.{string, object, no_members, put};
ghost use Rattle.serde_json.specs.View.{view, members_view};
ghost use Rattle.canary_canonical.specs.Objects.{with_member, with_members};

use crate::parts::number_or_null;
use canary_base::lists::Text;
use serde_json::{Map, Value, put};
use std::alloc::{AllocError, Global};

/// A member of an object: its key, and what stands there.
#[derive(Clone, Copy)]
pub(crate) enum Member<'a> {
    /// A number.
    Number(&'a str, u32),
    /// A number of 64 bits.
    LongNumber(&'a str, u64),
    /// A number, or null.
    NumberOrNull(&'a str, Option<u32>),
    /// A number; if there is none, the object has no such member.
    NumberIf(&'a str, Option<u32>),
    /// A text.
    Text(&'a str, &'a str),
    /// A text, or null.
    TextOrNull(&'a str, &'a Option<Text>),
}

/// The object of these members.
pub(crate) fn object_of(alloc: Global, members: &[Member]) -> Result<Value, AllocError>
    ensures { IfOk result (λ value. view value ≡ object (with_members no_members members.now)) }
{
    Ok(Value::Object(map_of(alloc, members)?))
}

/// The object of these members, and of one more under this key.
pub(crate) fn object_with(
    alloc: Global,
    members: &[Member],
    key: &str,
    value: Value,
) -> Result<Value, AllocError>
    ensures { IfOk result (λ all. view all
        ≡ object (put key.now (view value) (with_members no_members members.now))) }
{
    let mut object = map_of(alloc, members)?;
    put(&mut object, alloc, key, value)?;
    Ok(Value::Object(object))
}

// These members.
fn map_of(alloc: Global, members: &[Member]) -> Result<Map<String, Value>, AllocError>
    ensures { IfOk result (λ map. members_view map.entries
        ≡ with_members no_members members.now) }
{
    let mut object = Map::new(alloc);
    for member in members {
        put_member(&mut object, alloc, *member)?;
    }
    Ok(object)
}

// Puts a member into an object.
#[tactic(auto, unfolding(crate::specs::Objects::with_member))]
fn put_member(
    object: &mut Map<String, Value>,
    alloc: Global,
    member: Member,
) -> Result<(), AllocError>
    ensures { OnOk result (members_view object.new.entries
        ≡ with_member (members_view object.old.entries) member.entry) }
{
    match member {
        Member::Number(key, number) => put(object, alloc, key, Value::from(number)),
        Member::LongNumber(key, number) => put(object, alloc, key, Value::from(number)),
        Member::NumberOrNull(key, number) => put(object, alloc, key, number_or_null(number)),
        Member::NumberIf(key, Some(number)) => put(object, alloc, key, Value::from(number)),
        Member::NumberIf(_, None) => Ok(()),
        Member::Text(key, text) => put_text(object, alloc, key, text),
        Member::TextOrNull(key, Some(text)) => put_text(object, alloc, key, text.as_str()),
        Member::TextOrNull(key, None) => put(object, alloc, key, Value::Null),
    }
}

/// Puts a text into an object.
pub(crate) fn put_text(
    object: &mut Map<String, Value>,
    alloc: Global,
    key: &str,
    text: &str,
) -> Result<(), AllocError>
    ensures { OnOk result (members_view object.new.entries
        ≡ put key.now (string text.now) (members_view object.old.entries)) }
{
    let value = Value::try_from_str(alloc, text)?;
    put(object, alloc, key, value)
}
