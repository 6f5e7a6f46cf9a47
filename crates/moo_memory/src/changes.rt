//! What changed from some rows to others: exactly the keys whose rows differ.

ghost use Rattle.std.specs.Prelude.{◌≡◌, ◌↔◌, IsTrue, IfOk, OnOk, option_map};
ghost use Rattle.std.specs.FinMap as map;
ghost use Rattle.moo_rows.specs.{Ordered.{contents}, Maps.{Maps}};
ghost use Rattle.moo_memory.specs.{Overlay.{row_over}, Changes.{IsChanges, AreChanges, changed_each}};

use crate::flat::Flat;
use moo_rows::{
    Head, KeyedRow, ObjRow, PetitionId, PetitionRow, PropId, PropRow, Row, Rows, SlotRow, VerbId,
    VerbRow,
};
use moo_value::ObjNo;
use std::alloc::{AllocError, Global};
use std::collections::BTreeMap;
use std::marker::Model;

/// Keys, each with its new row, or `None` if the row was removed. `Draft::into_changes` gives them ascending, each once.
#[derive(Drop)]
pub struct ChangeList<K, V> {
    items: Vec<(K, Option<V>)>,
}

impl<K, V> Model for ChangeList<K, V> {
    ghost use Rattle.std.specs.Prelude.{List, Option};

    ghost Value = { List (K × Option V) };

    ghost view = { λ a. a.items.items };
}

impl<K, V> ChangeList<K, V> {
    /// The list of these changes, in this order.
    pub fn from_vec(items: Vec<(K, Option<V>)>) -> ChangeList<K, V>
        ensures { result ≡ items.items }
    {
        ChangeList { items }
    }

    /// The changes, in order.
    pub fn items(&self) -> &[(K, Option<V>)]
        ensures { result.now ≡ self.now }
    {
        self.items.as_slice()
    }

    /// The changes, in order.
    pub fn into_vec(self) -> Vec<(K, Option<V>)>
        ensures { result.items ≡ self }
    {
        self.items
    }
}

/// What changed from some rows to others: the new head, and of each map the keys whose rows differ.
#[derive(Drop)]
pub struct Changes {
    pub head: Head,
    pub objects: ChangeList<ObjNo, ObjRow>,
    pub props: ChangeList<PropId, PropRow>,
    pub slots: ChangeList<(ObjNo, PropId), SlotRow>,
    pub verbs: ChangeList<(ObjNo, VerbId), VerbRow>,
    pub petitions: ChangeList<PetitionId, PetitionRow>,
}

/// Whether the row that a key has equals `row`: two rows that are equal, or two that are missing.
fn has_row<V: Row>(held: Option<&V>, row: &Option<V>) -> bool
    ensures { IsTrue result ↔ (option_map (λ held. held.now) held.entry ≡ row.now) }
{
    match (held, row) {
        (None, None) => true,
        (Some(a), Some(b)) => a.equals(b),
        _ => false,
    }
}

/// Of the changed keys those whose rows differ from the base, ascending, each with its new row, or `None` if it has none. The only error is
/// that memory runs out.
fn differing_rows<R: Rows, V: KeyedRow>(
    alloc: Global,
    base: &R,
    changes: BTreeMap<V::Key, Option<V>>,
) -> Result<ChangeList<V::Key, V>, AllocError>
    // The list is exactly the keys whose rows differ between the base and the base with these changes over it.
    ensures { IfOk result (λ list. IsChanges V.Key.cmp (map.get (V.map_of (R.held base.now).maps))
        (row_over (map.get (V.map_of (R.held base.now).maps)) (contents V.Key.cmp changes)) list) }
{
    let mut changed = Vec::new(alloc);
    for (key, row) in changes {
        if !has_row(V::find(base, key), &row) {
            changed.push((key, row))?;
        }
    }
    Ok(ChangeList::from_vec(changed))
}

/// As `differing_rows`, which it doesn't call for a map without changes: most drafts change rows of one map or two. The only error is that
/// memory runs out.
pub(crate) fn changed_rows<R: Rows, V: KeyedRow>(
    alloc: Global,
    base: &R,
    changes: BTreeMap<V::Key, Option<V>>,
) -> Result<ChangeList<V::Key, V>, AllocError>
    // The list is exactly the keys whose rows differ between the base and the base with these changes over it.
    ensures { IfOk result (λ list. IsChanges V.Key.cmp (map.get (V.map_of (R.held base.now).maps))
        (row_over (map.get (V.map_of (R.held base.now).maps)) (contents V.Key.cmp changes)) list) }
{
    if changes.is_empty() {
        return Ok(ChangeList::from_vec(Vec::new(alloc)));
    }
    differing_rows(alloc, base, changes)
}

/// Puts and removes rows of one kind as a list of changes says, in its order. After an `Err`, a lack of memory, some changes are made.
fn apply_each<R: Rows, V: KeyedRow>(
    rows: &mut R,
    changes: ChangeList<V::Key, V>,
) -> Result<(), AllocError>
    // The map of the kind has each of the changes, and the other maps are as they were.
    ensures { OnOk result ((R.held rows.new).maps
        ≡ V.with_map (R.held rows.old).maps (changed_each (V.map_of (R.held rows.old).maps) changes)) }
{
    for (key, row) in changes.into_vec() {
        match row {
            Some(row) => V::put(rows, key, row)?,
            None => V::remove(rows, key)?,
        }
    }
    Ok(())
}

/// Sets the head, and makes the changes of all five maps. After an `Err`, a lack of memory, some changes are made.
fn apply_all<R: Rows>(rows: &mut R, changes: Changes) -> Result<(), AllocError>
    // If `changes` are the changes from the old rows to others, the rows are those others.
    ensures { OnOk result ((new : Maps) → AreChanges (R.held rows.old).maps new changes → (R.held rows.new).maps ≡ new) }
{
    rows.set_head(changes.head);
    apply_each(rows, changes.objects)?;
    apply_each(rows, changes.props)?;
    apply_each(rows, changes.slots)?;
    apply_each(rows, changes.verbs)?;
    apply_each(rows, changes.petitions)
}

/// Makes the changes in the rows that they are changes of. After an `Err`, a lack of memory, some changes are made.
pub fn apply_changes(rows: &mut Flat, changes: Changes) -> Result<(), AllocError>
    // If `changes` are the changes from the old rows to others, the rows are those others.
    ensures { OnOk result ((new : Maps) → AreChanges rows.old.maps new changes → rows.new.maps ≡ new) }
{
    apply_all(rows, changes)
}
