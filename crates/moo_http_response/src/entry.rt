//! Objects in a list, each with its own fields.

ghost use Rattle.std.specs.{Prelude.{◌≡◌, ◌++◌, [], ◌∷◌, IfOk, OnOk}, List.{filter_map}};
ghost use Rattle.moo_http_response.specs.Pages.{entry_of};
ghost use Rattle.moo_world.specs.Rows.{world_of};

use moo_rows::Rows;
use moo_value::{MooStr, ObjNo};
use std::alloc::{AllocError, Global};
use std::marker::Model;

/// An object in a list: what a look at it shows, but for its children and for what is in it.
#[derive(Drop)]
pub struct Entry {
    pub number: ObjNo,
    pub name: MooStr,
    pub owner: ObjNo,
    /// The parent, `#-1` for none.
    pub parent: ObjNo,
    /// The object that this one is in, `#-1` for none.
    pub location: ObjNo,
    pub player: bool,
    pub programmer: bool,
    pub wizard: bool,
    pub r: bool,
    pub w: bool,
    pub f: bool,
}

/// Objects in their order.
#[derive(Drop)]
pub struct Entries {
    items: Vec<Entry>,
}

impl Model for Entries {
    ghost use Rattle.std.specs.Prelude.{List};
    ghost use Rattle.moo_http_response.specs.declared.entry.Entry.{Entry};

    ghost Value = { List Entry };

    ghost view = { λ a. a.items.items };
}

impl Entries {
    /// A list of these objects, in their order.
    pub(crate) fn from_vec(items: Vec<Entry>) -> Entries
        ensures { result ≡ items.items }
    {
        Entries { items }
    }

    /// The objects, in their order.
    pub(crate) fn items(&self) -> &[Entry]
        ensures { result.now ≡ self.now }
    {
        self.items.as_slice()
    }
}

/// An object as a list has it, or None if no object has the number. The only error is a lack of memory.
#[tactic(auto, unfolding(moo_world::specs::Rows::world_shown))]
fn entry_of<R: Rows>(alloc: Global, rows: &R, x: ObjNo) -> Result<Option<Entry>, AllocError>
    ensures { IfOk result (λ entry. entry ≡ entry_of (world_of (R.held rows.now).maps) x) }
{
    let Some(row) = rows.object(x) else {
        return Ok(None);
    };
    Ok(Some(Entry {
        number: x,
        name: row.name.copy(alloc)?,
        owner: row.owner,
        parent: row.parent,
        location: row.location,
        player: row.player,
        programmer: row.programmer,
        wizard: row.wizard,
        r: row.r,
        w: row.w,
        f: row.f,
    }))
}

/// Adds the object with this number to the end of a list, if there is one. The only error is a lack of memory.
pub(crate) fn list_object<R: Rows>(
    alloc: Global,
    rows: &R,
    x: ObjNo,
    list: &mut Vec<Entry>,
) -> Result<(), AllocError>
    ensures { OnOk result (list.new.items ≡ list.old.items ++ filter_map (entry_of (world_of (R.held rows.now).maps)) (x ∷ [])) }
{
    if let Some(entry) = entry_of(alloc, rows, x)? {
        list.push(entry)?;
    }
    Ok(())
}
