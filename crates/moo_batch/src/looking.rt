//! Looking up petitions by number.

ghost use Rattle.std.specs.Prelude.{◌≡◌, Some, None, IfSome, IfNone};
ghost use Rattle.moo_world.specs.{Requests.{petition_at}, Rows.{IsGood}};
ghost use Rattle.moo_batch.specs.Outcomes.{state_in};

use moo_rows::{PetitionId, PetitionRow, Rows};

/// The petition of a number that a call gives; `None` if no petition has the number.
pub(crate) fn petition_at<R: Rows>(rows: &R, number: i64) -> Option<(PetitionId, &PetitionRow)>
    // The rows are good: sound rows of a well formed world, and petitions as they may be beside it.
    requires { IsGood (R.held rows.now).maps }
    // The petition is that of the model under the number; if `None`, the model has none.
    ensures some { IfSome result (λ found. petition_at (state_in (R.held rows.now)) number ≡ Some (found.0, found.1.now)) }
    ensures none { IfNone result (petition_at (state_in (R.held rows.now)) number ≡ None) }
{
    let id = PetitionId(u32::try_from(number).ok()?);
    let row = rows.petition(id)?;
    Some((id, row))
}
