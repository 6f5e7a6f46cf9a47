//! Rows that change, printed as the cells of their tables.

ghost use Rattle.std.specs.{Prelude.{◌≡◌, Option, Some, None, IfOk, option_map}, FinMap.{get}};
ghost use Rattle.moo_cells.specs.Shows.{ShowsOrNone};
ghost use Rattle.moo_store.specs.Printed.{PrintEach, Prints, PrintsObject, PrintsProp, PrintsSlot, PrintsVerb, PrintsPetition, PrintsAll};
ghost use Rattle.moo_store.specs.Printed.{new_number, all_of};

use crate::columns::text_over;
use moo_memory::{ChangeList, Changes, Flat};
use moo_rows::{
    KeyedRow, ObjList, ObjRow, PetitionId, PetitionRow, PropId, PropRow, Row, Rows, SlotRow,
    SlotState, VerbBits, VerbId, VerbRow,
};
use moo_tables::{
    CellChanges, Expected, ObjectCells, PetitionCells, PropCells, SlotCells, VerbCells,
};
use moo_value::{ObjNo, ValueList};
use moo_verbs::{print_object_spec, print_prep};
use std::alloc::{AllocError, Global};

/// A row that is printed as cells.
trait Print<K, C>: KeyedRow<Key = K> {
    /// The cells of a row, to be written over those of the row that is there, if there is one.
    ghost prints: { Option Self → C → Self → Type 0 };

    /// The cells of a row, to be written over those of the row before, if there is one. A column with several spellings of one value is
    /// printed only if its value changes. The only error is a lack of memory.
    fn cells(&self, alloc: Global, old: Option<&Self>) -> Result<C, AllocError>
        ensures { IfOk result (λ cells. prints (option_map (λ row. row.now) old.entry) cells self.now) };
}

impl Print<ObjNo, ObjectCells> for ObjRow {
    ghost prints = { PrintsObject };

    fn cells(&self, alloc: Global, old: Option<&ObjRow>) -> Result<ObjectCells, AllocError> {
        let accept = text_over::<Option<ObjList>>(alloc, old, self)?;
        let row = self.copy(alloc)?;
        Ok(ObjectCells { row, accept })
    }
}

impl Print<PropId, PropCells> for PropRow {
    ghost prints = { PrintsProp };

    fn cells(&self, alloc: Global, _old: Option<&PropRow>) -> Result<PropCells, AllocError> {
        let name = self.name.bytes().to_vec(alloc)?;
        Ok(PropCells {
            definer: self.definer,
            name,
        })
    }
}

impl Print<(ObjNo, PropId), SlotCells> for SlotRow {
    ghost prints = { PrintsSlot };

    fn cells(&self, alloc: Global, old: Option<&SlotRow>) -> Result<SlotCells, AllocError> {
        let value = text_over::<SlotState>(alloc, old, self)?;
        Ok(SlotCells {
            owner: self.owner,
            bits: self.bits.number(),
            value,
        })
    }
}

impl Print<(ObjNo, VerbId), VerbCells> for VerbRow {
    ghost prints = { PrintsVerb };

    fn cells(&self, alloc: Global, old: Option<&VerbRow>) -> Result<VerbCells, AllocError> {
        let names = self.names.bytes().to_vec(alloc)?;
        let bits = text_over::<VerbBits>(alloc, old, self)?;
        let dobj = print_object_spec(self.args.dobj).as_bytes().to_vec(alloc)?;
        let prep = print_prep(self.args.prep).as_bytes().to_vec(alloc)?;
        let iobj = print_object_spec(self.args.iobj).as_bytes().to_vec(alloc)?;
        Ok(VerbCells {
            names,
            owner: self.owner,
            bits,
            dobj,
            prep,
            iobj,
        })
    }
}

impl Print<PetitionId, PetitionCells> for PetitionRow {
    ghost prints = { PrintsPetition };

    fn cells(&self, alloc: Global, old: Option<&PetitionRow>) -> Result<PetitionCells, AllocError> {
        let calls = text_over::<ValueList>(alloc, old, self)?;
        Ok(PetitionCells {
            who: self.who,
            calls,
        })
    }
}

/// The cells of the new row of a key, over the row before; None if the row is removed. The only error is a lack of memory.
fn print_row<K, C, V: Print<K, C>>(
    alloc: Global,
    old: Option<&V>,
    row: &Option<V>,
) -> Result<Option<C>, AllocError>
    ensures { IfOk result (λ cells. ShowsOrNone (V.prints (option_map (λ row. row.now) old.entry)) cells row.now) }
{
    match row {
        Some(row) => Ok(Some(row.cells(alloc, old)?)),
        None => Ok(None),
    }
}

/// Each changed key of one kind of row, in the order of the changes, with the cells of its new row; None if the row is removed. `rows`
/// are those before the changes. The only error is a lack of memory.
fn print_each<K: Copy + Drop, C: Drop, V: Print<K, C>>(
    alloc: Global,
    rows: &Flat,
    changes: &ChangeList<K, V>,
) -> Result<Vec<(K, Option<C>)>, AllocError>
    // The keys are those of the changes, in their order, and at each the cells show the new row, or neither is there.
    ensures { IfOk result (λ cells. PrintEach (λ key. V.prints (get (V.map_of rows.now.maps) key)) cells.items changes.now) }
{
    let mut cells = Vec::new(alloc);
    for (key, row) in changes.items() {
        let old = V::find(rows, *key);
        cells.push((*key, print_row(alloc, old, row)?))?;
    }
    Ok(cells)
}

/// Whether there is a row already at the key of the first change, as `Expected` tells the writer of rows. False if nothing changes.
fn has_first<V: KeyedRow>(rows: &Flat, changes: &ChangeList<V::Key, V>) -> bool {
    match changes.items().first() {
        Some(change) => V::find(rows, change.0).is_some(),
        None => false,
    }
}

/// The cells of a row that wasn't there before. The only error is a lack of memory.
fn new_cells<'a, K, C, V: Print<K, C>>(alloc: Global, row: &'a V) -> Result<C, AllocError>
    ensures { IfOk result (λ cells. V.prints None cells row.now) }
{
    let none: Option<&'a V> = None;
    row.cells(alloc, none)
}

/// The cells of all rows of one kind, each with its key, in the order of the keys, as those of new rows. The only error is out of memory.
#[tactic(auto, using(crate::proofs::AllRows::none_printed))]
pub(crate) fn print_all_of<K: Copy + Drop, C: Drop, V: Print<K, C>>(
    alloc: Global,
    rows: &Flat,
) -> Result<Vec<(K, Option<C>)>, AllocError>
    ensures { IfOk result (λ cells. PrintEach (λ key. V.prints None) cells.items (all_of (V.map_of rows.now.maps))) }
{
    let mut cells = Vec::new(alloc);
    let mut last = None;
    while let Some(next) = V::next_row(rows, last) {
        let printed = new_cells::<K, C, V>(alloc, next.1)?;
        cells.push((next.0, Some(printed)))?;
        last = Some(next.0);
    }
    Ok(cells)
}

/// The cells of all rows, as changes from no rows. The only error is a lack of memory.
pub(crate) fn print_all(alloc: Global, rows: &Flat) -> Result<CellChanges, AllocError>
    ensures { IfOk result (λ cells. PrintsAll cells rows.now.maps) }
{
    let head = rows.head();
    let objects = print_all_of::<ObjNo, ObjectCells, ObjRow>(alloc, rows)?;
    let props = print_all_of::<PropId, PropCells, PropRow>(alloc, rows)?;
    let slots = print_all_of::<(ObjNo, PropId), SlotCells, SlotRow>(alloc, rows)?;
    let verbs = print_all_of::<(ObjNo, VerbId), VerbCells, VerbRow>(alloc, rows)?;
    let petitions = print_all_of::<PetitionId, PetitionCells, PetitionRow>(alloc, rows)?;
    Ok(CellChanges {
        head,
        next_petition: Some(head.next_petition),
        objects,
        props,
        slots,
        verbs,
        petitions,
        expected: Expected {
            objects: false,
            props: false,
            slots: false,
            verbs: false,
            petitions: false,
        },
    })
}

/// The number of the next petition, if the changes have another one than the rows; None if it stays.
fn new_number(last: u32, next: u32) -> Option<u32>
    ensures { result ≡ new_number (Some last) next }
{
    if last == next { None } else { Some(next) }
}

/// The cells of the changes of these rows, in each table. The number of the next petition is among them only if it changes. The only
/// error is out of memory.
pub(crate) fn print_changes(
    alloc: Global,
    rows: &Flat,
    changes: &Changes,
) -> Result<CellChanges, AllocError>
    ensures { IfOk result (λ cells. Prints (Some rows.now.maps.head.next_petition) rows.now.maps cells changes.now) }
{
    let last = rows.head().next_petition;
    let objects = print_each(alloc, rows, &changes.objects)?;
    let props = print_each(alloc, rows, &changes.props)?;
    let slots = print_each(alloc, rows, &changes.slots)?;
    let verbs = print_each(alloc, rows, &changes.verbs)?;
    let petitions = print_each(alloc, rows, &changes.petitions)?;
    Ok(CellChanges {
        head: changes.head,
        next_petition: new_number(last, changes.head.next_petition),
        objects,
        props,
        slots,
        verbs,
        petitions,
        expected: Expected {
            objects: has_first(rows, &changes.objects),
            props: has_first(rows, &changes.props),
            slots: has_first(rows, &changes.slots),
            verbs: has_first(rows, &changes.verbs),
            petitions: has_first(rows, &changes.petitions),
        },
    })
}
