//! What a witness is told of a refusal.

ghost use Rattle.std.specs.Prelude.{◌≡◌, None, Option, IfOk, IfSome, option_map};
ghost use Rattle.moo_world.specs.Rows.{IsGood, world_of};
ghost use Rattle.moo_batch.specs.{declared.witness.Facts.{Facts}, Facts.{AreFacts, petition_granted}};

use crate::args::one_integer;
use crate::looking::petition_at;
use crate::witness::{Facts, Refusal, Witness};
use moo_disclosure::{Disclosure, calls_seen, disclosure_of};
use moo_rows::Rows;
use moo_value::{ObjNo, ValueList};
use moo_world::{Batch, Call, CallName};
use std::alloc::{AllocError, Global};

/// What the petition asks for that a `grant` names, in the rows `base`. `None` for another call, if no petition has the number, or if the
/// programmer may not see the petition.
fn petition_granted<'a, B: Rows>(
    base: &'a B,
    programmer: ObjNo,
    call: &Call,
) -> Option<&'a ValueList>
    // The rows `base` are those of a well formed world.
    requires { IsGood (B.held base.now).maps }
    ensures { option_map (λ calls. calls.now) result ≡ petition_granted (B.held base.now).maps programmer call.now }
{
    if !matches!(call.name, CallName::Grant) {
        return None;
    }
    let number = one_integer(call.args.items()).ok()?;
    let (id, _) = petition_at(base, number)?;
    calls_seen(base, programmer, id)
}

/// What is told of a refusal besides its reason: names that the programmer may list, from `rows`, on which the check failed; and what
/// the petition that is granted asks for, from `base`, on which the batch was judged. The only error is a lack of memory.
fn facts_of<'a, B: Rows, R: Rows>(
    alloc: Global,
    base: &'a B,
    rows: &R,
    batch: &Batch,
    refusal: Refusal,
) -> Result<Facts<'a>, AllocError>
    // The rows `rows` are good ones, unless a call of a granted petition failed.
    requires rows { refusal.held ≡ None → IsGood (R.held rows.now).maps }
    // The rows `base` are those of a well formed world.
    requires base { IsGood (B.held base.now).maps }
    ensures { IfOk result (AreFacts (world_of (R.held rows.now).maps) (B.held base.now).maps batch.now refusal) }
{
    let next_petition = base.head().next_petition;
    let place = (refusal.call as usize).saturating_sub(1);
    let Some(call) = batch.calls.items().get(place) else {
        let names = Disclosure {
            meant: Vec::new(alloc),
            clash: None,
        };
        return Ok(Facts {
            names,
            petition: None,
            next_petition,
        });
    };
    let names = disclosure_of(
        alloc,
        rows,
        batch.programmer,
        call.name,
        call.args.items(),
        refusal.reason,
        refusal.held.is_some(),
    )?;
    Ok(Facts {
        names,
        petition: petition_granted(base, batch.programmer, call),
        next_petition,
    })
}

/// Shows a witness the refusal of a batch that was judged on the rows `base`, with its facts if the witness wants them and memory is left.
/// The check failed on the rows `rows`. If a call of a granted petition failed, the calls of the petition before it have changed them.
pub(crate) fn show_refusal<B: Rows, R: Rows, W: Witness>(
    alloc: Global,
    base: &B,
    rows: &R,
    batch: &Batch,
    refusal: Refusal,
    witness: &mut W,
)
    // The rows `rows` are good ones, unless a call of a granted petition failed.
    requires rows { refusal.held ≡ None → IsGood (R.held rows.now).maps }
    // The rows `base` are those of a well formed world.
    requires base { IsGood (B.held base.now).maps }
    // No ticks are taken.
    ensures ticks { W.left witness.new ≡ W.left witness.old }
    // The witness sees this refusal, once, with its facts or with none.
    ensures sees { (facts : Option Facts)
        × IfSome facts (AreFacts (world_of (R.held rows.now).maps) (B.held base.now).maps batch.now refusal)
        × W.sees (W.kept witness.old) batch.now refusal facts (W.kept witness.new) }
{
    if !witness.wants_facts() {
        witness.see(batch, refusal, None);
        return;
    }
    match facts_of(alloc, base, rows, batch, refusal) {
        Ok(facts) => witness.see(batch, refusal, Some(&facts)),
        Err(_) => witness.see(batch, refusal, None),
    }
}
