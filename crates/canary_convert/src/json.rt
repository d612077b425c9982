//! Members of values, and JSON as text.
ghost use Rattle.std.specs.Prelude.{◌≡◌, ◌∷◌, ◌++◌, [], List, ℕ, false, IfOk, IfSome};
ghost use Rattle.std.specs.Prelude.{string_bytes};
ghost use Rattle.canary_convert.specs.Making.{IsQuoted, IsEscaped};

use crate::draft::Draft;
use canary_base::error::Memory;
use serde_json::Value;
use std::alloc::Global;

/// The member of that key, if it is there and not null.
pub(crate) fn member<'a>(value: &'a Value, key: &str) -> Option<&'a Value> {
    match value.get(key) {
        Some(member) if !member.is_null() => Some(member),
        _ => None,
    }
}

/// The text under that key, empty if there is none.
pub(crate) fn text_at<'a>(value: &'a Value, key: &str) -> &'a str {
    match member(value, key) {
        Some(member) => member.as_str().unwrap_or(""),
        None => "",
    }
}

// The most items of a list: no list in a manifest of the desk has more, and what is looked up in
// one is looked up item by item.
const MAX_ITEMS: usize = 64;

/// The list under that key; none if it has more than 64 items.
pub(crate) fn list_at<'a>(value: &'a Value, key: &str) -> Option<&'a Vec<Value>> {
    list_in(member(value, key)?)
}

/// The list that this is; none if it has more than 64 items.
pub(crate) fn list_in(value: &Value) -> Option<&Vec<Value>> {
    value.as_array().filter(|list| list.len() <= MAX_ITEMS)
}

/// Appends a comma, unless what follows is the first member or item.
pub(crate) fn push_comma(out: &mut Draft) {
    if !out.as_str().ends_with("{") && !out.as_str().ends_with("[") {
        out.put(",");
    }
}

/// Appends the key of a member, which has no bytes that are escaped.
pub(crate) fn push_key(out: &mut Draft, key: &str) {
    push_comma(out);
    out.put("\"");
    out.put(key);
    out.put("\":");
}

/// The text, quoted and escaped.
pub(crate) fn quoted(alloc: Global, text: &str) -> Result<String, Memory>
    ensures { IfOk result (λ quoted. IsQuoted text.now (string_bytes quoted)) }
{
    let value = Value::try_from_str(alloc, text)?;
    Ok(value.to_string(alloc)?)
}

/// Appends a text, quoted and escaped.
pub(crate) fn push_text(out: &mut Draft, text: &str) {
    out.put_made(quoted(out.alloc, text));
}

/// Appends a text, escaped, without quotes. So it never ends the text of JSON that it stands in.
pub(crate) fn push_escaped(out: &mut Draft, text: &str)
    ensures { out.new.is_refused ≡ false → (out.old.is_refused ≡ false)
        × ((inner : List ℕ) × IsEscaped text.now inner
        × (string_bytes out.new.text ≡ string_bytes out.old.text ++ inner)) }
{
    match quoted(out.alloc, text) {
        Ok(quoted) => push_unquoted(out, quoted.as_str()),
        Err(_) => out.refuse(),
    }
}

// Appends what stands between quotes.
fn push_unquoted(out: &mut Draft, quoted: &str)
    ensures { out.new.is_refused ≡ false → (out.old.is_refused ≡ false)
        × ((inner : List ℕ) × (quoted.now ≡ 34 ∷ inner ++ 34 ∷ [])
        × (string_bytes out.new.text ≡ string_bytes out.old.text ++ inner)) }
{
    match unquoted(quoted) {
        Some(inner) => out.put(inner),
        // a text of JSON is always quoted
        None => out.refuse(),
    }
}

// What stands between quotes.
fn unquoted(quoted: &str) -> Option<&str>
    ensures { IfSome result (λ inner. quoted.now ≡ 34 ∷ inner.now ++ 34 ∷ []) }
{
    let rest = quoted.strip_prefix('"')?;
    rest.strip_suffix('"')
}

/// Appends the member of that key, if there is one.
pub(crate) fn push_member(out: &mut Draft, value: &Value, key: &str) {
    if let Some(member) = member(value, key) {
        push_key(out, key);
        out.put_value(member);
    }
}

/// Appends all members of an object but those of these keys.
pub(crate) fn push_others(out: &mut Draft, value: &Value, left_out: &[&str]) {
    let Some(members) = value.as_object() else {
        return;
    };
    for (key, member) in members.iter() {
        if !is_any_of(left_out, key.as_str()) {
            push_entry(out, key.as_str(), member);
        }
    }
}

// Appends a member, of any key.
fn push_entry(out: &mut Draft, key: &str, member: &Value) {
    push_comma(out);
    push_text(out, key);
    out.put(":");
    out.put_value(member);
}

/// Whether it is one of these.
pub(crate) fn is_any_of(known: &[&str], key: &str) -> bool {
    for name in known {
        if *name == key {
            return true;
        }
    }
    false
}

/// Appends how a manifest begins, up to the members of its `spec`.
pub(crate) fn push_head(out: &mut Draft, manifest: &Value, kind: &str, name: &str) {
    out.put("{");
    push_member(out, manifest, "apiVersion");
    push_key(out, "kind");
    push_text(out, kind);
    push_key(out, "metadata");
    out.put("{\"name\":");
    push_text(out, name);
    out.put("},\"spec\":{");
}
