//! The rows of the five maps.

ghost use Rattle.std.specs.Prelude.{◌≡◌, IfOk};
ghost use Rattle.moo_value.specs.Text.{IsText};
ghost use Rattle.moo_rows.specs.{Equal.{list_eq, list_laws}, PlainRow.{plain_row}, Links.{ties_of, has_link, is_to_nothing}};

use moo_value::{MooStr, ObjNo, Value, ValueList};
use std::alloc::{AllocError, Global};
use std::marker::Model;

/// The number that stands for no object.
const NOTHING: ObjNo = ObjNo(-1);

/// The number of a property: 1 and up, in the order of definition, and never used again.
#[derive(Clone, Copy, PartialEq, Eq, PartialOrd, Ord)]
pub struct PropId(pub u32);

/// The number of a verb: 1 and up, in the order of its object's list of verbs, and never used again.
#[derive(Clone, Copy, PartialEq, Eq, PartialOrd, Ord)]
pub struct VerbId(pub u32);

/// The number of a petition: 1 and up, in the order in which they were made, and never used again.
#[derive(Clone, Copy, PartialEq, Eq, PartialOrd, Ord)]
pub struct PetitionId(pub u32);

/// A list of objects, in the order given. Objects may be in it more than once.
#[derive(Clone, Drop)]
pub struct ObjList {
    items: Vec<ObjNo>,
}

impl Model for ObjList {
    ghost use Rattle.std.specs.Prelude.{List};
    ghost use Rattle.moo_value.specs.declared.value.ObjNo.{ObjNo};

    ghost Value = { List ObjNo };

    ghost view = { λ a. a.items.items };
}

impl PartialEq for ObjList {
    ghost eq = { list_eq };

    ghost laws = { list_laws };

    fn eq(&self, other: &ObjList) -> bool {
        self.items() == other.items()
    }
}

impl ObjList {
    /// The list of these objects.
    pub fn from_vec(items: Vec<ObjNo>) -> ObjList
        ensures { result ≡ items.items }
    {
        ObjList { items }
    }

    /// The objects, in order.
    pub fn items(&self) -> &[ObjNo]
        ensures { result.now ≡ self.now }
    {
        self.items.as_slice()
    }
}

/// An object. Its children and contents are those objects whose rows name it as parent and location.
///
/// LambdaMOO Programmer's Manual, 'Fundamental Object Attributes' and 'Properties on Objects' in the chapter on the database.
#[derive(PartialEq, Drop)]
pub struct ObjRow {
    pub name: MooStr,
    pub owner: ObjNo,
    /// The parent, `#-1` for none.
    pub parent: ObjNo,
    /// The object that this one is in, `#-1` for none.
    pub location: ObjNo,
    pub player: bool,
    pub programmer: bool,
    pub wizard: bool,
    /// Whether everybody may list its properties and verbs.
    pub r: bool,
    /// Whether everybody may add properties and verbs to it.
    pub w: bool,
    /// Whether everybody may make children of it ("fertile").
    pub f: bool,
    /// The objects that it takes in, with all their descendants; if there is no list, its parent's list counts.
    pub accept: Option<ObjList>,
}

impl Clone for ObjRow {
    ghost is_clone = { λ row copy. copy ≡ row };

    fn clone(&self) -> Result<ObjRow, AllocError> {
        let name = self.name.clone()?;
        let accept = self.accept.clone()?;
        Ok(ObjRow {
            name,
            accept,
            ..*self
        })
    }
}

impl ObjRow {
    /// An object with this name, owner and parent that has no rights, no location and no accept list. The only error is a lack of memory.
    pub fn plain(
        alloc: Global,
        name: &[u8],
        owner: ObjNo,
        parent: ObjNo,
    ) -> Result<ObjRow, AllocError>
        // The name fits in a string.
        requires { IsText name.now }
        ensures { IfOk result (λ row. row ≡ plain_row name.now owner parent) }
    {
        Ok(ObjRow {
            name: MooStr::from_vec(name.to_vec(alloc)?),
            owner,
            parent,
            location: ObjNo(-1),
            player: false,
            programmer: false,
            wizard: false,
            r: false,
            w: false,
            f: false,
            accept: None,
        })
    }
}

/// What an object is looked up by, beside its number: its parent, its location, or that it is a player.
#[derive(Clone, Copy, PartialEq, Eq)]
pub enum Link {
    ChildOf(ObjNo),
    Within(ObjNo),
    Player,
}

impl Link {
    /// Whether the link is to `#-1`: that of an object that has no parent, or is nowhere.
    pub fn is_to_nothing(self) -> bool
        ensures { result ≡ is_to_nothing self }
    {
        match self {
            Link::ChildOf(x) => x == NOTHING,
            Link::Within(x) => x == NOTHING,
            Link::Player => false,
        }
    }
}

/// What ties an object to others: its parent, its location, and whether it is a player.
#[derive(Clone, Copy, PartialEq, Eq)]
pub struct Ties {
    pub parent: ObjNo,
    pub location: ObjNo,
    pub player: bool,
}

impl ObjRow {
    /// The ties of the object: its parent, its location, and whether it is a player.
    pub fn ties(&self) -> Ties
        ensures { result ≡ ties_of self.now }
    {
        Ties {
            parent: self.parent,
            location: self.location,
            player: self.player,
        }
    }
}

impl Ties {
    /// Whether an object with these ties has the link.
    pub fn have(self, link: Link) -> bool
        ensures { result ≡ has_link link self }
    {
        match link {
            Link::ChildOf(x) => self.parent == x,
            Link::Within(x) => self.location == x,
            Link::Player => self.player,
        }
    }
}

/// A property, by the object that defines it.
#[derive(Clone, PartialEq, Drop)]
pub struct PropRow {
    pub definer: ObjNo,
    pub name: MooStr,
}

/// The rights on a property.
///
/// LambdaMOO Programmer's Manual, 'Properties on Objects' in the chapter on the database.
#[derive(Clone, Copy, PartialEq, Eq)]
pub struct Bits {
    /// Whether everybody may read it.
    pub r: bool,
    /// Whether everybody may write it.
    pub w: bool,
    /// Whether a new slot on a descendant belongs to the descendant's owner ("change ownership").
    pub c: bool,
}

/// What a slot holds.
#[derive(Clone, PartialEq, Drop)]
pub enum SlotState {
    /// No value of its own: it reads as the parent's slot of that property.
    Clear,
    Set(Value),
}

/// A slot: what one property is on one object, the definer or a descendant of it.
#[derive(Clone, PartialEq, Drop)]
pub struct SlotRow {
    pub owner: ObjNo,
    pub bits: Bits,
    pub state: SlotState,
}

/// The rights on a verb.
///
/// LambdaMOO Programmer's Manual, 'Verbs on Objects' in the chapter on the database.
#[derive(Clone, Copy, PartialEq, Eq)]
pub struct VerbBits {
    /// Whether everybody may read it.
    pub r: bool,
    /// Whether everybody may write it.
    pub w: bool,
    /// Whether programs may call it.
    pub x: bool,
    /// Whether its errors are raised ("debug").
    pub d: bool,
}

/// What a verb asks of its direct or indirect object: this object, any, or none at all.
///
/// LambdaMOO Programmer's Manual, 'Verbs on Objects': an object specifier.
#[derive(Clone, Copy, PartialEq, Eq)]
pub enum ObjectSpec {
    This,
    Any,
    None,
}

/// A set of prepositions that stand for one another, named for its first one.
#[derive(Clone, Copy, PartialEq, Eq)]
pub enum PrepositionSet {
    With,
    At,
    InFrontOf,
    In,
    OnTopOf,
    OutOf,
    Over,
    Through,
    Under,
    Behind,
    Beside,
    For,
    Is,
    As,
    Off,
}

/// The preposition of a verb's arguments.
#[derive(Clone, Copy, PartialEq, Eq)]
pub enum Preposition {
    None,
    Any,
    Set(PrepositionSet),
}

/// The arguments that a verb takes.
#[derive(Clone, Copy, PartialEq, Eq)]
pub struct ArgSpec {
    pub dobj: ObjectSpec,
    pub prep: Preposition,
    pub iobj: ObjectSpec,
}

/// A verb.
#[derive(PartialEq, Drop)]
pub struct VerbRow {
    /// Its names, between spaces.
    pub names: MooStr,
    pub owner: ObjNo,
    pub bits: VerbBits,
    pub args: ArgSpec,
}

impl Clone for VerbRow {
    ghost is_clone = { λ row copy. copy ≡ row };

    fn clone(&self) -> Result<VerbRow, AllocError> {
        let names = self.names.clone()?;
        Ok(VerbRow { names, ..*self })
    }
}

/// A petition: calls that one programmer asks a wizard to make.
#[derive(Clone, PartialEq, Drop)]
pub struct PetitionRow {
    /// Who asks.
    pub who: ObjNo,
    /// The calls as they were given: each a list of the name of a call and what it is given.
    pub calls: ValueList,
}

/// The counters.
#[derive(Clone, Copy, PartialEq, Eq)]
pub struct Head {
    /// The greatest object number that was ever given, -1 if none was.
    pub top: i32,
    /// The number of the next property.
    pub next_prop: u32,
    /// The number of the next verb.
    pub next_verb: u32,
    /// The number of the next petition.
    pub next_petition: u32,
    /// How many batches were accepted.
    pub seq: u64,
}
