//! Which check of a call failed.

ghost use Rattle.std.specs.Prelude.{◌≡◌};
ghost use Rattle.moo_world.specs.Reasons.{error_of};

use moo_value::{Code, ObjNo};

/// Which check of a call failed, with the numbers of the objects for which it failed. The name, the verb, the text or the petition is the
/// one that the call was given.
#[derive(Clone, Copy)]
pub enum Reason {
    /// E_ARGS, or E_TYPE: the call isn't given so many values, or values of another type.
    Given(Code),
    /// E_PERM: the programmer isn't an object.
    NoProgrammer,
    /// E_PERM: the programmer isn't a wizard.
    NoWizard,
    /// E_INVARG: there is no such object.
    NoObject(ObjNo),
    /// E_INVIND: the object of `get` or `set` isn't one.
    NoTarget(ObjNo),
    /// E_INVARG: it is neither an object nor `#-1`.
    NoPlace(ObjNo),
    /// E_PERM: the parent that `create` is given is neither an object nor `#-1`.
    NoParent(ObjNo),
    /// E_PERM: the programmer neither owns it nor is a wizard.
    NotControlled(ObjNo),
    /// E_PERM: it isn't fertile, and not controlled.
    NotFertile(ObjNo),
    /// E_PERM: only a wizard makes somebody else the owner.
    NoOwner(ObjNo),
    /// E_PERM: r of the object is 0, and it isn't controlled.
    NoObjectR(ObjNo),
    /// E_PERM: w of the object is 0, and it isn't controlled.
    NoObjectW(ObjNo),
    /// E_RECMOVE: the new parent is the object or under it.
    ParentBelow(ObjNo),
    /// E_INVARG: this object, which is the one of the call or under it, defines a property of a name that the new parent has too.
    NameShared(ObjNo),
    /// E_NACC: the place doesn't accept the object.
    NotAccepted(ObjNo),
    /// E_RECMOVE: the place is the object or inside it.
    PlaceInside(ObjNo),
    /// E_QUOTA: the quota of this owner is used up.
    NoQuota(ObjNo),
    /// E_PERM: nobody may set the built-in property.
    NeverSet,
    /// E_TYPE: the built-in property takes another type.
    NotTaken,
    /// E_PERM: only a wizard names a player.
    NamesPlayer(ObjNo),
    /// E_PROPNF: the object has no property of the name.
    NoProperty(ObjNo),
    /// E_PROPNF: the object itself defines no property of the name.
    NotDefined(ObjNo),
    /// E_INVARG: a new name is given, and the object itself doesn't define the property.
    NotRenamed(ObjNo),
    /// E_INVARG: the object itself defines the property.
    NotInherited(ObjNo),
    /// E_INVARG: no property has such a name.
    NoPropertyName,
    /// E_INVARG: this object defines a property of the name already.
    NameTaken(ObjNo),
    /// E_PERM: the slot on the object has no r.
    NoPropertyR(ObjNo),
    /// E_PERM: the slot on the object has no w.
    NoPropertyW(ObjNo),
    /// E_PERM: only a wizard gives the slot to another owner.
    NotGiven(ObjNo),
    /// E_INVARG: letters that a property doesn't have.
    PropertyPerms,
    /// E_VERBNF: no verb of the object itself is meant.
    NoVerb(ObjNo),
    /// E_PERM: the verb has no r.
    NoVerbR(ObjNo),
    /// E_PERM: the verb has no w.
    NoVerbW(ObjNo),
    /// E_INVARG: letters that a verb doesn't have.
    VerbPerms,
    /// E_INVARG: the names of a verb have no word.
    VerbNames,
    /// E_INVARG: no verb has such arguments.
    VerbArgs,
    /// E_INVARG: an accept list of over 1,000 entries.
    LongList,
    /// E_TYPE: what is petitioned for isn't lists that begin with a string each.
    Unnamed,
    /// E_INVARG: a petition asks for 1 to 64 calls.
    NotFew,
    /// E_INVARG: a petition asks for no such call.
    Unasked,
    /// E_INVARG: lists are over 30 deep in a petition.
    Deep,
    /// E_INVARG: there is no such petition.
    NoPetition,
    /// E_PERM: another programmer asks for the petition.
    NotAsker,
}

impl Reason {
    /// The error with which the call fails.
    pub fn code(self) -> Code
        ensures { result ≡ error_of self }
    {
        match self {
            Reason::Given(code) => code,
            Reason::NoProperty(_) | Reason::NotDefined(_) => Code::PropertyNotFound,
            Reason::NoVerb(_) => Code::VerbNotFound,
            Reason::NoTarget(_) => Code::InvalidIndirection,
            Reason::ParentBelow(_) | Reason::PlaceInside(_) => Code::RecursiveMove,
            Reason::NotAccepted(_) => Code::NotAccepted,
            Reason::NoQuota(_) => Code::Quota,
            Reason::NotTaken | Reason::Unnamed => Code::Type,
            Reason::NoObject(_)
            | Reason::NoPlace(_)
            | Reason::NameShared(_)
            | Reason::NotRenamed(_)
            | Reason::NotInherited(_)
            | Reason::NoPropertyName
            | Reason::NameTaken(_)
            | Reason::PropertyPerms
            | Reason::VerbPerms
            | Reason::VerbNames
            | Reason::VerbArgs
            | Reason::LongList
            | Reason::NotFew
            | Reason::Unasked
            | Reason::Deep
            | Reason::NoPetition => Code::InvalidArgument,
            _ => Code::Permission,
        }
    }
}
