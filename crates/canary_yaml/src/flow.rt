//! Flow mappings and sequences: those in brackets, as in JSON.
ghost use Rattle.std.specs.Prelude.{◌≡◌, ◌≤◌, IfOk};
ghost use Rattle.serde_json.specs.Data.{depth as nesting, items_depth, members_depth};
ghost use Rattle.serde_json.specs.View.{view, items_view, members_view};

use crate::cursor::Cursor;
use crate::fault::{YamlFault, YamlProblem};
use crate::key::read_key;
use crate::plain::{Style, is_plain_here, read_plain};
use crate::quoted::read_quoted;
use crate::schema::{string_of, value_of};
use serde_json::{Map, Value};
use std::alloc::Global;

/// The value that begins here, with mappings and sequences nested this deep at most. The cursor is
/// left right after it.
///
/// # Errors
/// `Nesting`; what keeps a scalar from being read; `Unclosed`, `NoComma`, `Colon`, `ComplexKey` or
/// `Duplicate` in brackets; `Memory`.
#[cycle(flow)]
#[tactic(auto, using(crate::proofs::Nesting::nests))]
pub(crate) fn read_flow(alloc: Global, c: &mut Cursor<'_>, depth: usize) -> Result<Value, YamlFault>
    ensures { IfOk result (λ v. nesting (view v) ≤ depth) }
{
    let begin = *c;
    match c.peek() {
        b'[' | b'{' if depth == 0 => Err(c.fault(YamlProblem::Nesting)),
        b'[' => Ok(Value::Array(read_items(alloc, c, depth - 1)?)),
        b'{' => Ok(Value::Object(read_members(alloc, c, depth - 1)?)),
        b'"' | b'\'' => Ok(Value::String(string_of(read_quoted(alloc, c)?, &begin)?)),
        _ => read_word(alloc, c, Style::Flow),
    }
}

/// The value of the plain scalar that begins here. The cursor is left right after it.
///
/// # Errors
/// What `why_not` says, if none begins here; what `value_of` refuses; `Memory`.
pub(crate) fn read_word(alloc: Global, c: &mut Cursor<'_>, style: Style) -> Result<Value, YamlFault>
    ensures { IfOk result (λ v. nesting (view v) ≡ 0) }
{
    let begin = *c;
    if !is_plain_here(c, style) {
        return Err(begin.fault(why_not(c)));
    }
    let text = read_plain(alloc, c, style)?;
    value_of(alloc, text, &begin)
}

/// Why no value can begin here, if no plain scalar can.
pub(crate) fn why_not(c: &Cursor<'_>) -> YamlProblem {
    match c.peek() {
        b'&' => YamlProblem::Anchor,
        b'*' => YamlProblem::Alias,
        b'!' => YamlProblem::Tag,
        b'?' => YamlProblem::ComplexKey,
        0 => YamlProblem::Unclosed,
        _ => YamlProblem::Indicator,
    }
}

// The values between `[`, which stands here, and `]`.
#[cycle(flow)]
#[tactic(auto, using(crate::proofs::Nesting::nests))]
fn read_items(alloc: Global, c: &mut Cursor<'_>, depth: usize) -> Result<Vec<Value>, YamlFault>
    ensures { IfOk result (λ items. items_depth (items_view items.items) ≤ depth) }
{
    let begin = *c;
    let mut items = Vec::new(alloc);
    c.skip(1);
    'items: for _ in 0..c.turns() {
        skip_between(c)?;
        if c.peek() == b']' {
            c.skip(1);
            return Ok(items);
        }
        items.push(read_flow(alloc, c, depth)?)?;
        end_item(c, b']')?;
    }
    Err(begin.fault(YamlProblem::Unclosed))
}

// The members between `{`, which stands here, and `}`.
#[cycle(flow)]
#[tactic(auto, using(crate::proofs::Nesting::nests))]
fn read_members(
    alloc: Global,
    c: &mut Cursor<'_>,
    depth: usize,
) -> Result<Map<String, Value>, YamlFault>
    ensures { IfOk result (λ members. members_depth (members_view members.entries) ≤ depth) }
{
    let begin = *c;
    let mut members = Map::new(alloc);
    c.skip(1);
    'members: for _ in 0..c.turns() {
        skip_between(c)?;
        if c.peek() == b'}' {
            c.skip(1);
            return Ok(members);
        }
        let place = *c;
        let key = read_flow_key(alloc, c)?;
        let value = read_flow_member(alloc, c, depth)?;
        if members.insert(key, value)?.is_some() {
            return Err(place.fault(YamlProblem::Duplicate));
        }
        end_item(c, b'}')?;
    }
    Err(begin.fault(YamlProblem::Unclosed))
}

/// The key that begins here.
///
/// # Errors
/// `ComplexKey`; what `why_not` says, if none begins here; as `read_key`.
pub(crate) fn read_flow_key(alloc: Global, c: &mut Cursor<'_>) -> Result<String, YamlFault> {
    match c.peek() {
        b'"' | b'\'' => {}
        b'[' | b'{' => return Err(c.fault(YamlProblem::ComplexKey)),
        _ if !is_plain_here(c, Style::Flow) => return Err(c.fault(why_not(c))),
        _ => {}
    }
    read_key(alloc, c, Style::Flow)
}

/// The value of a key that ends here: null, unless a colon and a value stand here.
///
/// # Errors
/// As `read_flow`; `Unclosed`.
#[cycle(flow)]
pub(crate) fn read_flow_member(
    alloc: Global,
    c: &mut Cursor<'_>,
    depth: usize,
) -> Result<Value, YamlFault>
    ensures { IfOk result (λ v. nesting (view v) ≤ depth) }
{
    skip_between(c)?;
    if c.peek() != b':' {
        return Ok(Value::Null);
    }
    c.skip(1);
    skip_between(c)?;
    if c.peek() == b',' || c.peek() == b'}' {
        return Ok(Value::Null);
    }
    read_flow(alloc, c, depth)
}

/// Goes past a comma, or stays at the closing bracket.
///
/// # Errors
/// `Colon`, `Unclosed` or `NoComma`, if neither stands here.
pub(crate) fn end_item(c: &mut Cursor<'_>, closing: u8) -> Result<(), YamlFault> {
    skip_between(c)?;
    match c.peek() {
        b',' => c.skip(1),
        b':' => return Err(c.fault(YamlProblem::Colon)),
        0 => return Err(c.fault(YamlProblem::Unclosed)),
        byte if byte != closing => return Err(c.fault(YamlProblem::NoComma)),
        _ => {}
    }
    Ok(())
}

/// Goes past white space, ends of lines and comments.
///
/// # Errors
/// `Unclosed`, if the document ends before.
pub(crate) fn skip_between(c: &mut Cursor<'_>) -> Result<(), YamlFault> {
    for _ in 0..c.turns() {
        if c.is_at_end() || !c.is_line_over() {
            break;
        }
        c.next_line();
        if c.is_over() {
            return Err(c.fault(YamlProblem::Unclosed));
        }
    }
    c.skip_white();
    Ok(())
}
