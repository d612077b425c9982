//! The parts of a table, but for its columns.
ghost use Rattle.std.specs.Prelude.{◌≡◌, ◌↔◌, IsTrue, [], ◌∷◌, None, false};
ghost use Rattle.sqlite_schema.specs.declared.schema.Action.TheVariants.{NoAction};
ghost use Rattle.sqlite_value.specs.Keys.{plain};
ghost use Rattle.canary_tables_schema.specs.Schema.{refers_to, keyed};
ghost use Rattle.canary_tables_schema.specs.Known.{formed};

use crate::columns::{are_places, is_name};
use sqlite_items::Items;
use sqlite_schema::code::Terms;
use sqlite_schema::schema::{Action, Reference, Stamps, Table};
use sqlite_value::keys::Order;
use sqlite_value::value::Bytes;

// No term at all.
fn are_none(terms: &Terms) -> bool
    ensures { IsTrue result ↔ terms.now ≡ [] }
{
    terms.roots.is_empty()
}

// No default that reads the time.
fn are_no_stamps(stamps: &Stamps) -> bool
    ensures { IsTrue result ↔ stamps.now ≡ record { places = []; terms = []; formats = [] } }
{
    stamps.places.is_empty() && are_none(&stamps.terms) && stamps.formats.is_empty()
}

// One key over these places.
pub(crate) fn is_one_key(keys: &Items<Items<usize>>, wanted: &[usize]) -> bool
    ensures { IsTrue result ↔ keys.now ≡ wanted.now ∷ [] }
{
    let keys = keys.as_slice();
    keys.len() == 1 && are_places(&keys[0], wanted)
}

// One order, in which each column rises.
pub(crate) fn is_one_order(orders: &Items<Order>) -> bool
    ensures { IsTrue result ↔ orders.now ≡ plain ∷ [] }
{
    let orders = orders.as_slice();
    orders.len() == 1 && orders[0].digits == 0
}

// This name alone.
fn is_one_name(names: &Items<Bytes>, wanted: &[u8]) -> bool
    ensures { IsTrue result ↔ names.now ≡ wanted.now ∷ [] }
{
    let names = names.as_slice();
    names.len() == 1 && is_name(&names[0], wanted)
}

// Nothing becomes of a row whose parent goes, and each statement keeps the reference.
fn is_idle(reference: &Reference) -> bool
    ensures { IsTrue result ↔ (reference.now.on_delete ≡ NoAction)
        × (reference.now.on_update ≡ NoAction) × (reference.now.is_deferred ≡ false) }
{
    reference.on_delete == Action::NoAction
        && reference.on_update == Action::NoAction
        && !reference.is_deferred
}

// The reference from the first column to the name in this table.
fn is_reference(reference: &Reference, parent: &[u8]) -> bool
    ensures { IsTrue result ↔ reference.now ≡ refers_to 1 parent.now }
{
    are_places(&reference.columns, &[1])
        && is_name(&reference.parent, parent)
        && is_one_name(&reference.parent_columns, b"name")
        && is_idle(reference)
}

// That reference alone.
pub(crate) fn is_one_reference(references: &Items<Reference>, parent: &[u8]) -> bool
    ensures { IsTrue result ↔ references.now ≡ refers_to 1 parent.now ∷ [] }
{
    let references = references.as_slice();
    references.len() == 1 && is_reference(&references[0], parent)
}

// No CHECK, and no default that is no literal.
fn is_plain(table: &Table) -> bool
    ensures { IsTrue result ↔ (table.now.checks ≡ []) × (table.now.computed ≡ [])
        × (table.now.stamps ≡ record { places = []; terms = []; formats = [] }) }
{
    are_none(&table.checks) && table.computed.is_empty() && are_no_stamps(&table.stamps)
}

// A table of this name and tree, and of this primary key, with no rules on its rows.
pub(crate) fn is_formed(
    table: &Table,
    name: &[u8],
    tree: u32,
    key: Option<usize>,
    primary: &[usize],
    is_counted: bool,
) -> bool
    ensures { IsTrue result
        ↔ table.now ≡ formed table.now name.now tree key primary.now is_counted }
{
    is_name(&table.name, name)
        && table.tree == tree
        && table.key == key
        && are_places(&table.primary, primary)
        && table.is_counted == is_counted
        && is_plain(table)
}

// No key but the rowid, and no reference.
pub(crate) fn is_unkeyed(table: &Table) -> bool
    ensures { IsTrue result ↔ (table.now.uniques ≡ []) × (table.now.orders ≡ [])
        × (table.now.references ≡ []) }
{
    table.uniques.is_empty() && table.orders.is_empty() && table.references.is_empty()
}

// A table of this name and tree, whose one key these places are.
pub(crate) fn is_keyed(table: &Table, name: &[u8], tree: u32, key: &[usize]) -> bool
    ensures { IsTrue result ↔ table.now
        ≡ record (keyed name.now table.now.columns key.now table.now.references) { tree = tree } }
{
    is_formed(table, name, tree, None, key, false)
        && is_one_key(&table.uniques, key)
        && is_one_order(&table.orders)
}
