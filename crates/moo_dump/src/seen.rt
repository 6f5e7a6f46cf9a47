//! What a look at an object shows.

use moo_rows::ObjList;
use moo_value::{MooStr, ObjNo};

/// What an object looks like: its fields, its children and its contents.
#[derive(Drop)]
pub struct Look {
    pub name: MooStr,
    pub owner: ObjNo,
    /// The parent, `#-1` for none.
    pub parent: ObjNo,
    /// The object that this one is in, `#-1` for none.
    pub location: ObjNo,
    pub player: bool,
    pub programmer: bool,
    pub wizard: bool,
    /// Whether everybody may list its properties and verbs.
    pub r: bool,
    /// Whether everybody may add properties and verbs to it.
    pub w: bool,
    /// Whether everybody may make children of it.
    pub f: bool,
    /// The objects whose parent it is, ascending.
    pub children: ObjList,
    /// The objects that are in it itself, ascending.
    pub contents: ObjList,
}
