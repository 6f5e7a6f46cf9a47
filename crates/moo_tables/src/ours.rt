//! Which version of the tables a database has.

ghost use Rattle.std.specs.{Prelude.{◌≡◌, ◌≢◌, ◌↔◌, [], ◌∷◌, map, IsTrue, IfOk, IfSome, IfNone}, List.{AllByRecursion}};
ghost use Rattle.sqlite_value.specs.Keys.{plain};
ghost use Rattle.moo_tables_rows.specs.Tables.{key_index, first_schema, second_schema, schema_of};
ghost use Rattle.moo_tables.specs.Ours.{HasNoRules, IsNumbered, IsPaired, our_table};

use crate::columns::are_required;
use moo_tables_rows::{
    HEAD, OBJECT, OurTable, PETITION, PETITION_HEAD, PROP, SLOT, SLOT2, VERB, Version,
};
use sqlite_items::Items;
use sqlite_schema::code::Terms;
use sqlite_schema::schema::{Index, Schema, Table};
use sqlite_value::keys::Order;
use std::alloc::{AllocError, Global};

/// The tables of the first version, in the order in which they are made.
const FIRST: &[OurTable] = &[HEAD, OBJECT, PROP, SLOT, VERB];

/// The tables of the second version, in the order in which they are made.
const SECOND: &[OurTable] = &[
    HEAD,
    OBJECT,
    PROP,
    SLOT,
    VERB,
    SLOT2,
    PETITION,
    PETITION_HEAD,
];

/// Whether a list of terms is empty, as that of the checks of a table. The only error is a lack of memory.
fn has_no_terms(alloc: Global, terms: &Terms) -> Result<bool, AllocError>
    ensures { IfOk result (λ none. IsTrue none ↔ terms.now ≡ []) }
{
    let lent = terms.lend(alloc)?;
    Ok(lent.roots.is_empty())
}

/// Whether a table has no rule, which is a constraint but its key, a column that is computed, or counted row numbers. The only error is a
/// lack of memory.
fn has_no_rules(alloc: Global, table: &Table) -> Result<bool, AllocError>
    ensures { IfOk result (λ none. IsTrue none ↔ HasNoRules table.now) }
{
    let unchecked = has_no_terms(alloc, &table.checks)?;
    let unstamped = has_no_terms(alloc, &table.stamps.terms)?;
    Ok(
        unchecked
            && unstamped
            && table.references.is_empty()
            && table.computed.is_empty()
            && table.stamps.places.is_empty()
            && table.stamps.formats.is_empty()
            && !table.is_counted,
    )
}

/// Whether none of these tables has a rule, which is a constraint but its key, a column that is computed, or counted row numbers. The
/// only error is a lack of memory.
fn have_no_rules(alloc: Global, tables: &[Table]) -> Result<bool, AllocError>
    ensures { IfOk result (λ none. IsTrue none ↔ AllByRecursion HasNoRules tables.now) }
{
    for table in tables {
        let plain = has_no_rules(alloc, table)?;
        if !plain {
            return Ok(false);
        }
    }
    Ok(true)
}

/// Whether a table has this name and tree, and its first column is the row's number and the whole key.
fn is_numbered(table: &Table, name: &[u8], tree: u32) -> bool
    ensures { IsTrue result ↔ IsNumbered name.now tree table.now }
{
    table.name.as_slice() == name
        && table.tree == tree
        && matches!(table.key, Some(0))
        && table.primary.as_slice() == [0].as_slice()
        && table.uniques.is_empty()
        && table.orders.is_empty()
}

/// Whether a key is the first two columns: at the places 1 and 2, from 0, of a row of the tree, which begins with the row's number.
fn is_pair(places: &[usize]) -> bool
    ensures { IsTrue result ↔ places.now ≡ 1 ∷ 2 ∷ [] }
{
    matches!(places, [1, 2])
}

/// Whether a table has one unique key, and that is its first two columns.
fn is_one_pair(keys: &[Items<usize>]) -> bool
    ensures { IsTrue result ↔ keys.now ≡ (1 ∷ 2 ∷ []) ∷ [] }
{
    match keys {
        [key] => is_pair(key.as_slice()),
        _ => false,
    }
}

/// Whether these orders, one for each index of a table, are of one index alone, and each of its columns is in plain order.
fn is_one_plain(orders: &[Order]) -> bool
    ensures { IsTrue result ↔ orders.now ≡ plain ∷ [] }
{
    match orders {
        [order] => order.digits == 0,
        _ => false,
    }
}

/// Whether a table has this name and tree, and its first two columns are the whole key.
fn is_paired(table: &Table, name: &[u8], tree: u32) -> bool
    ensures { IsTrue result ↔ IsPaired name.now tree table.now }
{
    table.name.as_slice() == name
        && table.tree == tree
        && table.key.is_none()
        && table.primary.as_slice() == [1, 2].as_slice()
        && is_one_pair(table.uniques.as_slice())
        && is_one_plain(table.orders.as_slice())
}

/// Whether a table that has no rule but its key is this one of ours: with its name, its tree, its key and its columns.
fn is_our_table(table: &Table, ours: &OurTable) -> bool
    // The table has no rule but its key.
    requires { HasNoRules table.now }
    ensures { IsTrue result ↔ table.now ≡ our_table ours.now }
{
    let name = ours.name.as_bytes();
    let is_keyed = if ours.is_paired {
        is_paired(table, name, ours.tree)
    } else {
        is_numbered(table, name, ours.tree)
    };
    is_keyed && are_required(table.columns.as_slice(), ours.columns)
}

/// Whether tables that have no rule but their key are these of ours, in this order.
fn are_our_tables(tables: &[Table], ours: &[OurTable]) -> bool
    // No table has a rule but its key.
    requires { AllByRecursion HasNoRules tables.now }
    ensures { IsTrue result ↔ tables.now ≡ map our_table ours.now }
{
    match (tables, ours) {
        ([], []) => true,
        ([table, tables @ ..], [first, ours @ ..]) => {
            is_our_table(table, first) && are_our_tables(tables, ours)
        }
        _ => false,
    }
}

/// Whether an index is that of the key of a table whose key is its first two columns: with this name and tree, on the table whose tree is
/// `table`.
fn is_key_index(index: &Index, name: &[u8], tree: u32, table: u32) -> bool
    ensures { IsTrue result ↔ index.now ≡ key_index name.now tree table }
{
    index.name.as_slice() == name
        && index.tree == tree
        && index.table == table
        && index.columns.as_slice() == [1, 2].as_slice()
        && index.order.digits == 0
        && index.is_unique
}

/// Whether tables that have no rule but their key are those of the first version, in their order.
fn are_first_tables(tables: &[Table]) -> bool
    // No table has a rule but its key.
    requires { AllByRecursion HasNoRules tables.now }
    ensures { IsTrue result ↔ tables.now ≡ first_schema.tables }
{
    are_our_tables(tables, FIRST)
}

/// Whether tables that have no rule but their key are those of the second version, in their order.
fn are_second_tables(tables: &[Table]) -> bool
    // No table has a rule but its key.
    requires { AllByRecursion HasNoRules tables.now }
    ensures { IsTrue result ↔ tables.now ≡ second_schema.tables }
{
    are_our_tables(tables, SECOND)
}

/// Whether the indexes of a database are those of the first version: of the keys of `slot` and `verb`.
fn are_first_keys(indexes: &[Index]) -> bool
    ensures { IsTrue result ↔ indexes.now ≡ first_schema.indexes }
{
    match indexes {
        [slot, verb] => {
            is_key_index(slot, b"sqlite_autoindex_slot_1", 4, 3)
                && is_key_index(verb, b"sqlite_autoindex_verb_1", 6, 5)
        }
        _ => false,
    }
}

/// Whether the indexes of a database are those of the second version: of the keys of `slot`, `verb` and `slot2`.
fn are_second_keys(indexes: &[Index]) -> bool
    ensures { IsTrue result ↔ indexes.now ≡ second_schema.indexes }
{
    match indexes {
        [slot, verb, slot2] => {
            is_key_index(slot, b"sqlite_autoindex_slot_1", 4, 3)
                && is_key_index(verb, b"sqlite_autoindex_verb_1", 6, 5)
                && is_key_index(slot2, b"sqlite_autoindex_slot2_1", 8, 7)
        }
        _ => false,
    }
}

/// Whether a database whose tables have no rule but their key has the tables and indexes of the first version, and no view.
fn is_first_schema(schema: &Schema) -> bool
    // No table has a rule but its key.
    requires { AllByRecursion HasNoRules schema.now.tables }
    ensures { IsTrue result ↔ schema.now ≡ first_schema }
{
    are_first_tables(schema.tables.as_slice())
        && are_first_keys(schema.indexes.as_slice())
        && schema.views.is_empty()
}

/// Whether a database whose tables have no rule but their key has the tables and indexes of the second version, and no view.
fn is_second_schema(schema: &Schema) -> bool
    // No table has a rule but its key.
    requires { AllByRecursion HasNoRules schema.now.tables }
    ensures { IsTrue result ↔ schema.now ≡ second_schema }
{
    are_second_tables(schema.tables.as_slice())
        && are_second_keys(schema.indexes.as_slice())
        && schema.views.is_empty()
}

/// Which version of the tables a database has.
///
/// It has a version if it has exactly that version's tables, made in their order, the indexes of their keys, no other index and no view.
/// Answers None for any other database. `AllocError`: memory ran out.
pub fn version_of(alloc: Global, schema: &Schema) -> Result<Option<Version>, AllocError>
    // A version is found only if the database has exactly its tables and indexes.
    ensures ours { IfOk result (λ found. IfSome found (λ version. schema.now ≡ schema_of version)) }
    // None is found only if the database has the tables and indexes of no version.
    ensures none { IfOk result (λ found. IfNone found ((version : Version) → schema.now ≢ schema_of version)) }
{
    let plain = have_no_rules(alloc, schema.tables.as_slice())?;
    if !plain {
        return Ok(None);
    }
    if is_first_schema(schema) {
        return Ok(Some(Version::First));
    }
    if is_second_schema(schema) {
        return Ok(Some(Version::Second));
    }
    Ok(None)
}
