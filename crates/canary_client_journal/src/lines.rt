//! An entry as a line of JSON (RFC 8259).
ghost use Rattle.std.specs.Prelude.{◌≡◌, nat_le, IsTrue, Some, IfOk, OnOk, string_bytes, codes};
ghost use Rattle.canary_base.specs.Names.{is_name};
ghost use Rattle.serde_json.specs.Data.{string, boolean, put as with_member};
ghost use Rattle.serde_json.specs.Read.{read};
ghost use Rattle.serde_json.specs.View.{view, members_view};
ghost use Rattle.serde_json.specs.Find.{as_str};
ghost use Rattle.canary_client_records.specs.Texts.{HasNoLf};
ghost use Rattle.canary_canonical.specs.Forms.{at, by_key, null_or, number_up_to};
ghost use Rattle.canary_canonical.specs.Reads.{IsRead};
ghost use Rattle.canary_canonical.specs.Texts.{only, data_or_null, whole_data};
ghost use Rattle.canary_client_journal.specs.Lines.{begun_data, asked_data, instead_data, settled_data};
ghost use Rattle.canary_client_journal.specs.Lines.{entry_data, line_of, is_word, keeps_limits};
ghost use Rattle.canary_client_journal.specs.Lines.{wish_in, reply_in, begun_in, asked_in, instead_in};
ghost use Rattle.canary_client_journal.specs.Lines.{settled_in, entry_of_kind, spelt_in, entry_in};

use crate::entry::{JournalEntry, SettledReply, Wish};
use canary_base::error::Memory;
use canary_base::lists::Text;
use canary_base::names::Name;
use canary_canonical::form::{FormFault, name_at, number_at, only_member, text_in};
use serde_json::{Map, Value, json, put};
use std::alloc::{AllocError, Global};

/// The line of an entry, without an end of line, or `Memory`. It is read as the entry, and no
/// other text is.
pub fn line(alloc: Global, entry: &JournalEntry) -> Result<Text, Memory>
    ensures value { IfOk result (λ line. line ≡ line_of entry.now) }
    ensures back { IfOk result (λ line. entry_in line ≡ Some entry.now) }
    ensures one { IfOk result HasNoLf }
{
    Ok(Text::of(written(alloc, entry)?))
}

// The line as a string, with what the prover needs to know that it reads back as the entry.
fn written(alloc: Global, entry: &JournalEntry) -> Result<String, AllocError>
    ensures value { IfOk result (λ line. string_bytes line ≡ line_of entry.now) }
    ensures read { IfOk result (λ line. read (string_bytes line) ≡ Some (entry_data entry.now)) }
    ensures kept { IfOk result (λ _. IsTrue (keeps_limits entry.now)) }
{
    let value = entry_value(alloc, entry)?;
    value.to_string(alloc)
}

// The entry in JSON.
#[tactic(auto, unfolding(crate::specs::Lines::entry_data))]
fn entry_value(alloc: Global, entry: &JournalEntry) -> Result<Value, AllocError>
    ensures value { IfOk result (λ value. view value ≡ entry_data entry.now) }
    ensures kept { IfOk result (λ _. IsTrue (keeps_limits entry.now)) }
{
    match entry {
        JournalEntry::Begun { caller, settled } => {
            only(alloc, "begun", begun_value(alloc, caller, *settled)?)
        }
        JournalEntry::Asked { number, wish } => only(
            alloc,
            "asked",
            asked_value(alloc, *number, wish)?,
        ),
        JournalEntry::Instead { number, body } => {
            only(alloc, "instead", instead_value(alloc, *number, body)?)
        }
        JournalEntry::Settled { number, reply } => {
            only(alloc, "settled", settled_value(alloc, *number, reply)?)
        }
    }
}

// An object of this member alone.
fn only(alloc: Global, key: &str, value: Value) -> Result<Value, AllocError>
    ensures { IfOk result (λ object. view object ≡ only key.now (view value)) }
{
    json!(in alloc; {key: value})
}

// The text in JSON, or null without one.
fn text_or_null(alloc: Global, text: &Option<Text>) -> Result<Value, AllocError>
    ensures { IfOk result (λ value. view value ≡ data_or_null string text.now) }
{
    match text {
        Some(text) => Value::try_from_str(alloc, text.as_str()),
        None => Ok(Value::Null),
    }
}

// The members of `Begun`: the caller, and how many requests were settled.
fn begun_value(alloc: Global, caller: &Name, settled: u32) -> Result<Value, AllocError>
    ensures value { IfOk result (λ value. view value ≡ begun_data caller.now settled) }
    ensures name { IfOk result (λ _. IsTrue (is_name caller.now)) }
    ensures kept { IfOk result (λ _. IsTrue (is_word settled)) }
{
    json!(in alloc; {"caller": caller.as_str(), "settled": settled})
}

// The members of `Asked`: the number, and those of the wish.
fn asked_value(alloc: Global, number: u32, wish: &Wish) -> Result<Value, AllocError>
    ensures value { IfOk result (λ value. view value ≡ asked_data number wish.now) }
    ensures kept { IfOk result (λ _. IsTrue (is_word number)) }
{
    let mut members = Map::new(alloc);
    put_asked(alloc, &mut members, number, wish)?;
    Ok(Value::Object(members))
}

// Puts the members of `Asked` into an object, in ascending order of their keys.
fn put_asked(
    alloc: Global,
    members: &mut Map<String, Value>,
    number: u32,
    wish: &Wish,
) -> Result<(), AllocError>
    ensures { OnOk result (members_view members.new.entries
        ≡ with_member (codes "number") (whole_data number)
        (with_member (codes "key") (data_or_null string wish.now.key)
        (with_member (codes "intent") (string wish.now.intent)
        (with_member (codes "body") (string wish.now.body)
        (members_view members.old.entries))))) }
{
    put_text(alloc, members, "body", wish.body.as_str())?;
    put_text(alloc, members, "intent", wish.intent.as_str())?;
    put_text_or_null(alloc, members, "key", &wish.key)?;
    put(members, alloc, "number", Value::from(number))
}

// Puts a text into an object, under this key.
fn put_text(
    alloc: Global,
    members: &mut Map<String, Value>,
    key: &str,
    text: &str,
) -> Result<(), AllocError>
    ensures { OnOk result (members_view members.new.entries
        ≡ with_member key.now (string text.now) (members_view members.old.entries)) }
{
    let text = Value::try_from_str(alloc, text)?;
    put(members, alloc, key, text)
}

// Puts a text into an object, under this key, or null without one.
fn put_text_or_null(
    alloc: Global,
    members: &mut Map<String, Value>,
    key: &str,
    text: &Option<Text>,
) -> Result<(), AllocError>
    ensures { OnOk result (members_view members.new.entries
        ≡ with_member key.now (data_or_null string text.now) (members_view members.old.entries)) }
{
    let text = text_or_null(alloc, text)?;
    put(members, alloc, key, text)
}

// The members of `Instead`: the number and the body.
fn instead_value(alloc: Global, number: u32, body: &Text) -> Result<Value, AllocError>
    ensures value { IfOk result (λ value. view value ≡ instead_data number body.now) }
    ensures kept { IfOk result (λ _. IsTrue (is_word number)) }
{
    json!(in alloc; {"body": body.as_str(), "number": number})
}

// The members of `Settled`: the number, and those of the reply.
fn settled_value(alloc: Global, number: u32, reply: &SettledReply) -> Result<Value, AllocError>
    ensures value { IfOk result (λ value. view value ≡ settled_data number reply.now) }
    ensures kept { IfOk result (λ _. IsTrue (is_word number)) }
    ensures status { IfOk result (λ _. IsTrue (nat_le reply.now.status 65535)) }
{
    let mut members = Map::new(alloc);
    let (is_late, status) = (reply.is_late, reply.status);
    put_settled(
        alloc,
        &mut members,
        reply.body.as_str(),
        is_late,
        number,
        status,
    )?;
    Ok(Value::Object(members))
}

// Puts the members of `Settled` into an object, in ascending order of their keys.
fn put_settled(
    alloc: Global,
    members: &mut Map<String, Value>,
    body: &str,
    is_late: bool,
    number: u32,
    status: u16,
) -> Result<(), AllocError>
    ensures { OnOk result (members_view members.new.entries
        ≡ with_member (codes "status") (whole_data status)
        (with_member (codes "number") (whole_data number)
        (with_member (codes "late") (boolean is_late)
        (with_member (codes "body") (string body.now)
        (members_view members.old.entries))))) }
{
    put_text(alloc, members, "body", body)?;
    put(members, alloc, "late", Value::from(is_late))?;
    put(members, alloc, "number", Value::from(number))?;
    put(members, alloc, "status", Value::from(status))
}

/// The entry whose line this is.
///
/// # Errors
/// `Unreadable` if it is no entry's line, as one with a space between its members, with a member
/// too many, or with its members in another order; `Memory`.
#[tactic(auto, unfolding(crate::specs::Lines::entry_in))]
pub fn entry_in(alloc: Global, text: &str) -> Result<JournalEntry, FormFault>
    ensures { IsRead (entry_in text.now) result }
{
    let entry = spelt(alloc, text)?;
    let again = line(alloc, &entry)?;
    if again.as_str() == text {
        Ok(entry)
    } else {
        Err(FormFault::Unreadable)
    }
}

// The entry that the text is in JSON, however it is laid out.
fn spelt(alloc: Global, text: &str) -> Result<JournalEntry, FormFault>
    ensures { IsRead (spelt_in text.now) result }
{
    match Value::from_str(alloc, text) {
        Ok(value) => entry_in_value(alloc, &value),
        Err(fault) if fault.is_memory() => Err(FormFault::Memory),
        Err(_) => Err(FormFault::Unreadable),
    }
}

// The entry in a JSON value: an object of one member, whose key is the kind of the entry.
fn entry_in_value(alloc: Global, value: &Value) -> Result<JournalEntry, FormFault>
    ensures { IsRead (by_key entry_of_kind (view value.now)) result }
{
    match only_member(value) {
        Some((kind, value)) => entry_of_kind(alloc, kind, value),
        None => Err(FormFault::Unreadable),
    }
}

// The entry of this kind with the members of this value; `Unreadable` for another kind.
#[tactic(auto, unfolding(crate::specs::Lines::entry_of_kind))]
fn entry_of_kind(alloc: Global, kind: &str, value: &Value) -> Result<JournalEntry, FormFault>
    ensures { IsRead (entry_of_kind kind.now (view value.now)) result }
{
    match kind {
        "begun" => begun_in(value).ok_or(FormFault::Unreadable),
        "asked" => asked_in(alloc, value),
        "instead" => instead_in(alloc, value),
        "settled" => settled_in(alloc, value),
        _ => Err(FormFault::Unreadable),
    }
}

// The `Begun` with these members; none if one is missing or invalid.
fn begun_in(value: &Value) -> Option<JournalEntry>
    ensures { result ≡ begun_in (view value.now) }
{
    let caller = name_at(value, "caller")?;
    let settled = number_at(value, "settled", u32::MAX)?;
    Some(JournalEntry::Begun { caller, settled })
}

// The `Asked` with these members; `Unreadable` if one is missing or invalid.
fn asked_in(alloc: Global, value: &Value) -> Result<JournalEntry, FormFault>
    ensures { IsRead (asked_in (view value.now)) result }
{
    let number = number_at(value, "number", u32::MAX).ok_or(FormFault::Unreadable)?;
    let wish = wish_in(alloc, value)?;
    Ok(JournalEntry::Asked { number, wish })
}

// The `Instead` with these members; `Unreadable` if one is missing or invalid.
fn instead_in(alloc: Global, value: &Value) -> Result<JournalEntry, FormFault>
    ensures { IsRead (instead_in (view value.now)) result }
{
    let number = number_at(value, "number", u32::MAX).ok_or(FormFault::Unreadable)?;
    let body = text_at(alloc, value, "body")?;
    Ok(JournalEntry::Instead { number, body })
}

// The `Settled` with these members; `Unreadable` if one is missing or invalid.
fn settled_in(alloc: Global, value: &Value) -> Result<JournalEntry, FormFault>
    ensures { IsRead (settled_in (view value.now)) result }
{
    let number = number_at(value, "number", u32::MAX).ok_or(FormFault::Unreadable)?;
    let reply = reply_in(alloc, value)?;
    Ok(JournalEntry::Settled { number, reply })
}

// The wish among the members of `Asked`.
fn wish_in(alloc: Global, value: &Value) -> Result<Wish, FormFault>
    ensures { IsRead (wish_in (view value.now)) result }
{
    let body = text_at(alloc, value, "body")?;
    let intent = text_at(alloc, value, "intent")?;
    let key = key_at(alloc, value)?;
    Ok(Wish { intent, key, body })
}

// The reply among the members of `Settled`.
fn reply_in(alloc: Global, value: &Value) -> Result<SettledReply, FormFault>
    ensures { IsRead (reply_in (view value.now)) result }
{
    let body = text_at(alloc, value, "body")?;
    let is_late = value
        .get("late")
        .and_then(Value::as_bool)
        .ok_or(FormFault::Unreadable)?;
    let status = value
        .get("status")
        .and_then(status_in)
        .ok_or(FormFault::Unreadable)?;
    Ok(SettledReply {
        status,
        body,
        is_late,
    })
}

// The number as a status; none if it is no number from 0 to 65,535.
fn status_in(value: &Value) -> Option<u16>
    ensures { result ≡ number_up_to 65535 (view value.now) }
{
    match value.as_u64() {
        Some(number) if number <= 65535 => Some(number as u16),
        _ => None,
    }
}

// The text under that key.
fn text_at(alloc: Global, value: &Value, key: &str) -> Result<Text, FormFault>
    ensures { IsRead (at key.now as_str (view value.now)) result }
{
    let value = value.get(key).ok_or(FormFault::Unreadable)?;
    text_in(alloc, value)
}

// The key of a wish, none if it is null; `Unreadable` if the member is missing or no text.
fn key_at(alloc: Global, value: &Value) -> Result<Option<Text>, FormFault>
    ensures { IsRead (at (codes "key") (null_or as_str) (view value.now)) result }
{
    let value = value.get("key").ok_or(FormFault::Unreadable)?;
    if value.is_null() {
        return Ok(None);
    }
    Ok(Some(text_in(alloc, value)?))
}
