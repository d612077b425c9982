//! Block mappings and sequences: those whose lines are indented.
ghost use Rattle.std.specs.Prelude.{◌≤◌, IfOk};
ghost use Rattle.serde_json.specs.Data.{depth as nesting, items_depth, members_depth};
ghost use Rattle.serde_json.specs.View.{view, items_view, members_view};

use crate::cursor::Cursor;
use crate::fault::{YamlFault, YamlProblem};
use crate::flow::{read_flow, read_word, why_not};
use crate::key::{is_key_here, read_key, skip_colon};
use crate::literal::read_literal;
use crate::plain::{Style, is_plain_here};
use crate::schema::string_of;
use serde_json::{Map, Value};
use std::alloc::Global;

/// The value that begins here, with mappings and sequences nested this deep at most. Its further
/// lines are indented by `least` at least. The cursor is left at the front of a line.
///
/// # Errors
/// `Nesting`; `ComplexKey`, `NoKey`, `Indentation` or `Duplicate` among lines; what keeps a flow
/// mapping or sequence, or a scalar, from being read; `Memory`.
#[cycle(block)]
#[tactic(auto, using(crate::proofs::Nesting::nests))]
pub(crate) fn read_block(
    alloc: Global,
    c: &mut Cursor<'_>,
    least: usize,
    depth: usize,
) -> Result<Value, YamlFault>
    ensures { IfOk result (λ v. nesting (view v) ≤ depth) }
{
    if c.is_mark(b'?') {
        return Err(c.fault(YamlProblem::ComplexKey));
    }
    let is_entry = c.is_mark(b'-');
    if !is_entry && !is_key_here(c) {
        return read_scalar(alloc, c, least, depth);
    }
    if depth == 0 {
        return Err(c.fault(YamlProblem::Nesting));
    }
    if is_entry {
        return Ok(Value::Array(read_entries(alloc, c, depth - 1)?));
    }
    Ok(Value::Object(read_members(alloc, c, depth - 1)?))
}

/// The value that begins here, in the line of its key or of the marker of its document. So it is no
/// block mapping or sequence.
///
/// # Errors
/// As `read_block`; `Colon` or `Trailing`, if the line goes on after the value.
#[tactic(auto, using(crate::proofs::Nesting::nests))]
pub(crate) fn read_scalar(
    alloc: Global,
    c: &mut Cursor<'_>,
    least: usize,
    depth: usize,
) -> Result<Value, YamlFault>
    ensures { IfOk result (λ v. nesting (view v) ≤ depth) }
{
    let begin = *c;
    let value = match c.peek() {
        b'|' | b'>' => {
            let text = read_literal(alloc, c, least)?;
            return Ok(Value::String(string_of(text, &begin)?));
        }
        b'"' | b'\'' | b'[' | b'{' => read_flow(alloc, c, depth)?,
        _ => read_word(alloc, c, Style::Block(least))?,
    };
    c.end_line()?;
    Ok(value)
}

// The sequence whose first entry begins here.
#[cycle(block)]
#[tactic(auto, using(crate::proofs::Nesting::nests))]
fn read_entries(alloc: Global, c: &mut Cursor<'_>, depth: usize) -> Result<Vec<Value>, YamlFault>
    ensures { IfOk result (λ items. items_depth (items_view items.items) ≤ depth) }
{
    let column = c.column();
    let mut items = Vec::new(alloc);
    'items: for _ in 0..c.turns() {
        c.skip(1);
        items.push(read_entry(alloc, c, column, depth)?)?;
        if !is_next(c, column)? || !c.is_mark(b'-') {
            break;
        }
    }
    Ok(items)
}

/// The value after the `-` of an entry at that column.
///
/// # Errors
/// As `read_block`.
#[cycle(block)]
#[tactic(auto, using(crate::proofs::Nesting::nests))]
pub(crate) fn read_entry(
    alloc: Global,
    c: &mut Cursor<'_>,
    column: usize,
    depth: usize,
) -> Result<Value, YamlFault>
    ensures { IfOk result (λ v. nesting (view v) ≤ depth) }
{
    c.skip_to_token()?;
    if c.is_over() || c.column() <= column {
        return Ok(Value::Null);
    }
    read_block(alloc, c, column.saturating_add(1), depth)
}

// The mapping whose first key begins here.
#[cycle(block)]
#[tactic(auto, using(crate::proofs::Nesting::nests))]
fn read_members(
    alloc: Global,
    c: &mut Cursor<'_>,
    depth: usize,
) -> Result<Map<String, Value>, YamlFault>
    ensures { IfOk result (λ members. members_depth (members_view members.entries) ≤ depth) }
{
    let column = c.column();
    let mut members = Map::new(alloc);
    'members: for _ in 0..c.turns() {
        if !is_key_here(c) {
            return Err(c.fault(why_no_key(c)));
        }
        let place = *c;
        let key = read_key(alloc, c, Style::Block(0))?;
        skip_colon(c)?;
        let value = read_member(alloc, c, column, depth)?;
        if members.insert(key, value)?.is_some() {
            return Err(place.fault(YamlProblem::Duplicate));
        }
        if !is_next(c, column)? {
            break;
        }
    }
    Ok(members)
}

// Why no key begins here.
fn why_no_key(c: &Cursor<'_>) -> YamlProblem {
    if is_plain_here(c, Style::Block(0)) {
        return YamlProblem::NoKey;
    }
    match why_not(c) {
        YamlProblem::Indicator => YamlProblem::NoKey,
        why => why,
    }
}

/// The value after the colon of a key at that column.
///
/// # Errors
/// As `read_block`.
#[cycle(block)]
#[tactic(auto, using(crate::proofs::Nesting::nests))]
pub(crate) fn read_member(
    alloc: Global,
    c: &mut Cursor<'_>,
    column: usize,
    depth: usize,
) -> Result<Value, YamlFault>
    ensures { IfOk result (λ v. nesting (view v) ≤ depth) }
{
    let least = column.saturating_add(1);
    if !c.is_line_over() {
        c.skip_white();
        return read_scalar(alloc, c, least, depth);
    }
    c.skip_to_token()?;
    if c.is_over() || c.column() < column || c.column() == column && !c.is_mark(b'-') {
        return Ok(Value::Null);
    }
    read_block(alloc, c, least, depth)
}

/// Goes to what stands next. Returns whether it is in this column, and not before it.
///
/// # Errors
/// `Indentation`, if it is after this column; `Tab`.
pub(crate) fn is_next(c: &mut Cursor<'_>, column: usize) -> Result<bool, YamlFault> {
    c.skip_to_token()?;
    if c.is_over() || c.column() < column {
        return Ok(false);
    }
    if c.column() > column {
        return Err(c.fault(YamlProblem::Indentation));
    }
    Ok(true)
}
