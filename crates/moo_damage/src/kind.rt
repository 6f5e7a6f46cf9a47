//! The kinds of damage, and the keys of the rows at which they are found.

ghost use Rattle.std.specs.Prelude.{◌≡◌, pos, Some};
ghost use Rattle.moo_damage.specs.declared.kind.Key.TheVariants as keys;
ghost use Rattle.moo_damage.specs.Words.{kind_text, key_text};

use moo_rows::{PetitionId, PropId, VerbId};
use moo_value::ObjNo;
use std::fmt;

/// A kind of damage. The kinds are looked for in this order, so that only the first that is met is told.
#[derive(Clone, Copy, Debug, PartialEq, Eq)]
pub enum Kind {
    /// The table of the head, or that of the next petition, isn't one row of id 1 with numbers within their limits.
    BadHead,
    /// A cell can't be read, or has a number outside its limits.
    BadCell,
    /// The number of a row was never given: it is below 0 or past that of the head.
    PastHead,
    /// A parent is neither `#-1` nor an object.
    NoParent,
    /// A chain of parents doesn't end.
    ParentLoop,
    /// A location is neither `#-1` nor an object.
    NoPlace,
    /// A chain of locations doesn't end.
    PlaceLoop,
    /// A property's definer isn't an object.
    NoDefiner,
    /// Two properties have one name, on one object or on an object and its ancestor. The one of greater number is told.
    DoubleName,
    /// A slot of a property that its object isn't owed, or of no object.
    StrangeSlot,
    /// An object is owed a property and has no slot of it.
    MissingSlot,
    /// A slot is clear on the object that defines its property.
    ClearDefiner,
    /// A verb of what isn't an object.
    StrangeVerb,
    /// The rows differ from those that a world holds in memory.
    Mismatch,
}

impl fmt::Display for Kind {
    ghost output = { λ kind. Some (kind_text kind) };

    fn fmt<W: fmt::Write>(&self, f: &mut fmt::Formatter<W>) -> fmt::Result {
        f.write_str(match self {
            Kind::BadHead => "bad-head",
            Kind::BadCell => "bad-cell",
            Kind::PastHead => "past-head",
            Kind::NoParent => "no-parent",
            Kind::ParentLoop => "parent-loop",
            Kind::NoPlace => "no-place",
            Kind::PlaceLoop => "place-loop",
            Kind::NoDefiner => "no-definer",
            Kind::DoubleName => "double-name",
            Kind::StrangeSlot => "strange-slot",
            Kind::MissingSlot => "missing-slot",
            Kind::ClearDefiner => "clear-definer",
            Kind::StrangeVerb => "strange-verb",
            Kind::Mismatch => "mismatch",
        })
    }
}

/// The row at which damage is found: its table and its key there. The numbers are those of its cells, and may be outside a row's range.
#[derive(Clone, Copy, Debug, PartialEq, Eq)]
pub enum Key {
    /// The head.
    Head,
    /// The row of an object, by its number.
    Object(i64),
    /// The row of a property, by its number.
    Prop(i64),
    /// A slot, by the numbers of its object and its property.
    Slot(i64, i64),
    /// A verb, by the number of its object and its own.
    Verb(i64, i64),
    /// A petition, by its number.
    Petition(i64),
}

impl fmt::Display for Key {
    ghost output = { λ key. Some (key_text key) };

    fn fmt<W: fmt::Write>(&self, f: &mut fmt::Formatter<W>) -> fmt::Result {
        match self {
            Key::Head => f.write_str("head"),
            Key::Object(object) => write!(f, "#{object}"),
            Key::Prop(prop) => write!(f, "p{prop}"),
            Key::Slot(object, prop) => write!(f, "#{object} p{prop}"),
            Key::Verb(object, verb) => write!(f, "#{object} v{verb}"),
            Key::Petition(petition) => write!(f, "r{petition}"),
        }
    }
}

/// The key of an object's row.
pub(crate) fn object_key(x: ObjNo) -> Key
    ensures { result ≡ keys.Object x.0 }
{
    Key::Object(i64::from(x.0))
}

/// The key of a property's row.
pub(crate) fn prop_key(id: PropId) -> Key
    ensures { result ≡ keys.Prop (pos id.0) }
{
    Key::Prop(i64::from(id.0))
}

/// The key of a slot.
pub(crate) fn slot_key(key: (ObjNo, PropId)) -> Key
    ensures { result ≡ keys.Slot key.0.0 (pos key.1.0) }
{
    Key::Slot(i64::from(key.0.0), i64::from(key.1.0))
}

/// The key of a verb.
pub(crate) fn verb_key(key: (ObjNo, VerbId)) -> Key
    ensures { result ≡ keys.Verb key.0.0 (pos key.1.0) }
{
    Key::Verb(i64::from(key.0.0), i64::from(key.1.0))
}

/// The key of a petition's row.
pub(crate) fn petition_key(id: PetitionId) -> Key
    ensures { result ≡ keys.Petition (pos id.0) }
{
    Key::Petition(i64::from(id.0))
}
