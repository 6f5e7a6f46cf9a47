//! A change of one field of an object's row.

ghost use Rattle.std.specs.Prelude.{◌≡◌};
ghost use Rattle.moo_world.specs.Fields.{changed};

use moo_rows::{ObjList, ObjRow};
use moo_value::{MooStr, ObjNo};

/// The new value of one field of an object's row.
#[derive(Drop)]
pub enum Change {
    Name(MooStr),
    Owner(ObjNo),
    Location(ObjNo),
    Player(bool),
    Programmer(bool),
    Wizard(bool),
    Readable(bool),
    Writable(bool),
    Fertile(bool),
    Accept(Option<ObjList>),
}

impl Change {
    /// The row with the new value in its field, and all other fields as before. Takes no memory.
    pub fn apply_to(self, mut row: ObjRow) -> ObjRow
        ensures { result ≡ changed self row }
    {
        match self {
            Change::Name(name) => row.name = name,
            Change::Owner(owner) => row.owner = owner,
            Change::Location(to) => row.location = to,
            Change::Player(on) => row.player = on,
            Change::Programmer(on) => row.programmer = on,
            Change::Wizard(on) => row.wizard = on,
            Change::Readable(on) => row.r = on,
            Change::Writable(on) => row.w = on,
            Change::Fertile(on) => row.f = on,
            Change::Accept(list) => row.accept = list,
        }
        row
    }
}
