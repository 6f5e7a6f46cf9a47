//! What is gathered of all objects before the lines of each are printed.

ghost use Rattle.std.specs.Prelude.{IfOk};
ghost use Rattle.moo_dump.specs.{Lines.{ListsDefinitions, SkipUp}, Outlined.{IsOutline}};
ghost use Rattle.moo_world.specs.{Rows.{world_of}, World.{IsTree}};

use crate::definitions::{Definitions, all_definitions};
use crate::skips::{Skips, all_skips};
use moo_rows::Rows;
use std::alloc::{AllocError, Global};

/// What each object defines, and where a chain goes on after objects that define nothing.
#[derive(Drop)]
pub(crate) struct Outline {
    pub(crate) definitions: Definitions,
    pub(crate) skips: Skips,
}

/// The outline of all objects. The only error is a lack of memory.
pub(crate) fn outline_of<R: Rows>(alloc: Global, rows: &R) -> Result<Outline, AllocError>
    // Parents and locations are objects or `#-1`, without loops, and each object's number was given.
    requires { IsTree (world_of (R.held rows.now).maps) }
    ensures { IfOk result (IsOutline (R.held rows.now).maps) }
{
    let definitions = all_definitions(alloc, rows)?;
    let skips = all_skips(alloc, rows, &definitions)?;
    Ok(Outline { definitions, skips })
}
