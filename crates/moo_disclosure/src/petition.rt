//! The calls of a petition.

ghost use Rattle.std.specs.Prelude.{◌≡◌, option_map};
ghost use Rattle.moo_disclosure.specs.Disclosed.{calls_seen};

use moo_calls_shared::rights::is_wizard;
use moo_rows::{PetitionId, Rows};
use moo_value::{ObjNo, ValueList};

/// The calls that a petition asks for. `None` if no petition has the number, or if the programmer neither made it nor is a wizard.
pub fn calls_seen<R: Rows>(rows: &R, programmer: ObjNo, id: PetitionId) -> Option<&ValueList>
    ensures { option_map (λ calls. calls.now) result ≡ calls_seen (R.held rows.now).maps programmer id }
{
    match rows.petition(id) {
        Some(row) if is_wizard(rows, programmer) || row.who == programmer => Some(&row.calls),
        _ => None,
    }
}
