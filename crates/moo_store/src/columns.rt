//! Columns of rows of which a value has several spellings, each printed only if its value changes.

ghost use Rattle.std.{specs.Prelude.{◌≡◌, ◌↔◌, IsTrue, List, ℕ, Some, IfOk, option_map}, specs.Cmp.{booleans_Decides}, proofs.Common.{ap}};
ghost use Rattle.moo_value.specs.{Equal.{IsExact, same_by-exact}, Literal.{Spells, print}, Values.{coded_values}};
ghost use Rattle.moo_value.specs.declared.value.Value.TheVariants.{List as a_list};
ghost use Rattle.moo_rows.specs.{Bits.{verb_bits_of, verb_letters_of}, declared.row.VerbBits.{VerbBits}, Equal.{list_eq-exact}};
ghost use Rattle.moo_rows.specs.SameRows.{and, is, option-exact, state-exact};
ghost use Rattle.moo_cells.specs.Shows.{ShowsAccept, ShowsSlotState};
ghost use Rattle.moo_store.specs.Printed.{PrintsOver, accept_text, calls_text, state_text};

use moo_rows::{ObjList, ObjRow, PetitionRow, SlotRow, SlotState, VerbBits, VerbRow};
use moo_value::{Value, ValueList, print_literal};
use moo_world::object_list;
use std::alloc::{AllocError, Global};

/// What a row has in a column of which a value has several spellings.
pub(crate) trait Column: PartialEq {
    type Row;

    /// The value of a row.
    ghost part: { Self.Row → Self };

    /// Whether a text spells a value.
    ghost spells: { List ℕ → Self → Type 0 };

    /// The one text that is printed of a value.
    ghost text: { Self → List ℕ };

    /// The value of a row in this column.
    fn value_in(row: &Self::Row) -> &Self
        ensures { result.now ≡ part row.now };

    /// The printed text of the value. The only error is a lack of memory.
    fn cell(&self, alloc: Global) -> Result<Vec<u8>, AllocError>
        // The text spells the value, and is the one that is always printed of it.
        ensures { IfOk result (λ cell. spells cell.items self.now × (cell.items ≡ text self.now)) };

    /// Values that are called equal are equal.
    ghost exact: { IsExact Self.PartialEq.eq };
}

/// The printed literal of a value, as a cell. The only error is a lack of memory.
fn literal_cell(alloc: Global, value: &Value) -> Result<Vec<u8>, AllocError>
    // It spells the value, and is the one text that is printed of it.
    ensures { IfOk result (λ cell. Spells value.now cell.items × (cell.items ≡ print value.now)) }
{
    let mut cell = Vec::new(alloc);
    print_literal(alloc, value, &mut cell)?;
    Ok(cell)
}

impl Column for Option<ObjList> {
    type Row = ObjRow;

    ghost part = { λ row. row.accept };

    ghost spells = { ShowsAccept };

    ghost text = { accept_text };

    fn value_in(row: &ObjRow) -> &Option<ObjList> {
        &row.accept
    }

    fn cell(&self, alloc: Global) -> Result<Vec<u8>, AllocError> {
        match self {
            Some(list) => {
                let value = object_list(alloc, list.items())?;
                literal_cell(alloc, &value)
            }
            None => Ok(Vec::new(alloc)),
        }
    }

    ghost exact = { option-exact list_eq-exact };
}

impl Column for SlotState {
    type Row = SlotRow;

    ghost part = { λ row. row.state };

    ghost spells = { ShowsSlotState };

    ghost text = { state_text };

    fn value_in(row: &SlotRow) -> &SlotState {
        &row.state
    }

    fn cell(&self, alloc: Global) -> Result<Vec<u8>, AllocError> {
        match self {
            SlotState::Set(value) => literal_cell(alloc, value),
            SlotState::Clear => Ok(Vec::new(alloc)),
        }
    }

    ghost exact = { state-exact };
}

impl Column for VerbBits {
    type Row = VerbRow;

    ghost part = { λ row. row.bits };

    ghost spells = { λ text bits. verb_bits_of text ≡ Some bits };

    ghost text = { verb_letters_of };

    fn value_in(row: &VerbRow) -> &VerbBits {
        &row.bits
    }

    fn cell(&self, alloc: Global) -> Result<Vec<u8>, AllocError> {
        self.letters().as_bytes().to_vec(alloc)
    }

    ghost exact = { λ x y. is _ (and _ _ (booleans_Decides x.r y.r)
        (and _ _ (booleans_Decides x.w y.w) (and _ _ (booleans_Decides x.x y.x) (booleans_Decides x.d y.d))))
        (λ h i. record { r = h.0 i; w = h.1.0 i; x = h.1.1.0 i; d = h.1.1.1 i })
        (λ e. (
          ap (λ (b : VerbBits). b.r) e,
          (
            ap (λ (b : VerbBits). b.w) e,
            (ap (λ (b : VerbBits). b.x) e, ap (λ (b : VerbBits). b.d) e),
          ),
        )) };
}

impl Column for ValueList {
    type Row = PetitionRow;

    ghost part = { λ row. row.calls };

    ghost spells = { λ text calls. Spells (a_list calls) text };

    ghost text = { calls_text };

    fn value_in(row: &PetitionRow) -> &ValueList {
        &row.calls
    }

    fn cell(&self, alloc: Global) -> Result<Vec<u8>, AllocError> {
        let calls = Value::List(self.clone()?);
        literal_cell(alloc, &calls)
    }

    ghost exact = { same_by-exact coded_values };
}

/// Whether there was a row before, and it has this value in the column.
#[tactic(auto, using(crate::proofs::Written::has_part))]
fn has_value<V: Column>(old: Option<&V::Row>, value: &V) -> bool
    ensures { IsTrue result ↔ option_map V.part (option_map (λ row. row.now) old.entry) ≡ Some value.now }
{
    match old {
        Some(old) => *V::value_in(old) == *value,
        None => false,
    }
}

/// The printed text of the value of a row in this column; None if the row before has the same value, so that its cell stays. The only
/// error is out of memory.
pub(crate) fn text_over<V: Column>(
    alloc: Global,
    old: Option<&V::Row>,
    row: &V::Row,
) -> Result<Option<Vec<u8>>, AllocError>
    ensures { IfOk result (λ cell.
        PrintsOver V.spells V.text (option_map V.part (option_map (λ row. row.now) old.entry)) (V.part row.now) cell) }
{
    let value = V::value_in(row);
    if has_value::<V>(old, value) {
        return Ok(None);
    }
    Ok(Some(value.cell(alloc)?))
}
