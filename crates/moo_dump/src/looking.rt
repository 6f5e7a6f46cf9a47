//! What one object looks like.

ghost use Rattle.std.specs.Prelude.{◌≡◌, IfOk};
ghost use Rattle.moo_dump.specs.Look.{look_of};
ghost use Rattle.moo_world.specs.{Rows.{world_of}, World.{IsTree}};

use crate::seen::Look;
use moo_rows::{ObjList, Rows};
use moo_tree::{children, contents};
use moo_value::ObjNo;
use std::alloc::{AllocError, Global};

/// What an object looks like; `None` if no object has the number. The only error is a lack of memory.
#[tactic(auto, unfolding(moo_world::specs::Rows::world_shown))]
pub fn look<R: Rows>(alloc: Global, rows: &R, x: ObjNo) -> Result<Option<Look>, AllocError>
    // Parents and locations are objects or `#-1`, without loops, and each object's number was given.
    requires { IsTree (world_of (R.held rows.now).maps) }
    ensures { IfOk result (λ look. look ≡ look_of (world_of (R.held rows.now).maps) x) }
{
    let Some(row) = rows.object(x) else {
        return Ok(None);
    };
    Ok(Some(Look {
        name: row.name.copy(alloc)?,
        owner: row.owner,
        parent: row.parent,
        location: row.location,
        player: row.player,
        programmer: row.programmer,
        wizard: row.wizard,
        r: row.r,
        w: row.w,
        f: row.f,
        children: ObjList::from_vec(children(alloc, rows, x)?),
        contents: ObjList::from_vec(contents(alloc, rows, x)?),
    }))
}
