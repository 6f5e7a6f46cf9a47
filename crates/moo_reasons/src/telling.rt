//! Saying which check of a call failed.

use crate::forms::form_of;
use crate::given::{
    FIRST, Given, NEW_NAME, Position, SECOND, THIRD, is_first_value, list_at, second_built_in,
    value_at,
};
use crate::lists::{first_unasked, first_unfit};
use crate::said::Said;
use moo_disclosure::Disclosure;
use moo_value::{ObjNo, Value};
use moo_world::{BuiltIn, CallName, Reason};
use std::alloc::AllocError;

/// What is said of a reason. In its words `@` stands for the programmer, `%` for the first value of the call, `&` for the second, and `$`
/// for what was checked: this object, if there is one, else a value that the call is given.
type Sentence = (Option<ObjNo>, &'static str);

/// A sentence in which `$` stands for an object.
fn about_object(object: ObjNo, words: &'static str) -> Option<Sentence> {
    Some((Some(object), words))
}

/// A sentence in which `$` stands for a value of the call, or that has no `$`.
fn about_value(words: &'static str) -> Option<Sentence> {
    Some((None, words))
}

/// Who may set the built-in property that the call names, or that a wizard alone may make the call.
fn wizard_words(given: Given<'_>) -> &'static str {
    match (given.name, second_built_in(given)) {
        (CallName::Set, Some(BuiltIn::Owner)) => "only a wizard may set owner",
        (CallName::Set, Some(BuiltIn::Programmer)) => "only a wizard may set programmer",
        (CallName::Set, Some(BuiltIn::Wizard)) => "only a wizard may set wizard",
        _ => "@ isn't a wizard",
    }
}

/// What is said of a reason about objects, quotas or rights on objects; `None` for another reason.
fn of_objects(given: Given<'_>, reason: Reason) -> Option<Sentence> {
    match reason {
        Reason::NoProgrammer => about_value("the programmer @ isn't an object"),
        Reason::NoWizard => about_value(wizard_words(given)),
        Reason::NoObject(x) | Reason::NoTarget(x) => about_object(x, "$ isn't an object"),
        Reason::NoPlace(x) | Reason::NoParent(x) => about_object(
            x,
            "$ is neither an object nor #-1",
        ),
        Reason::NotControlled(x) => about_object(x, "@ neither owns $ nor is a wizard"),
        Reason::NotFertile(x) => about_object(
            x,
            "$ isn't fertile, and @ neither owns it nor is a wizard",
        ),
        Reason::NoOwner(x) => about_object(x, "only a wizard may make $ the owner"),
        Reason::NoObjectR(x) => about_object(
            x,
            "r of $ is 0, and @ neither owns it nor is a wizard",
        ),
        Reason::NoObjectW(x) => about_object(
            x,
            "w of $ is 0, and @ neither owns it nor is a wizard",
        ),
        Reason::ParentBelow(x) if is_first_value(given, x) => about_value(
            "% can't be its own parent",
        ),
        Reason::ParentBelow(x) => about_object(x, "$ is under %"),
        Reason::NotAccepted(x) => about_object(x, "$ doesn't accept %"),
        Reason::PlaceInside(x) if is_first_value(given, x) => about_value(
            "% can't be inside itself",
        ),
        Reason::PlaceInside(x) => about_object(x, "$ is inside %"),
        Reason::NamesPlayer(x) => about_object(x, "only a wizard may name a player, as $"),
        Reason::NoQuota(x) => about_object(x, "the ownership_quota of $ is used up"),
        _ => None,
    }
}

/// What is said of a reason about properties; `None` for another reason.
fn of_properties(given: Given<'_>, reason: Reason) -> Option<Sentence> {
    match reason {
        Reason::NeverSet => about_value("nobody may set &: `move` changes it"),
        Reason::NotTaken => about_value("& can't be $"),
        Reason::NoProperty(_) | Reason::NotDefined(_) if second_built_in(given).is_some() => {
            about_value("& is built in: `get` and `set` alone take it")
        }
        Reason::NoProperty(x) => about_object(x, "$ has no property &"),
        Reason::NotDefined(x) | Reason::NotRenamed(x) => about_object(
            x,
            "$ itself doesn't define &",
        ),
        Reason::NotInherited(x) => about_object(x, "$ itself defines &"),
        Reason::NoPropertyName => {
            about_value("$ can't name a property: it is built in, or hasn't 1 to 255 bytes")
        }
        Reason::NoPropertyR(x) => {
            about_object(
                x,
                "& has no r on $, and @ neither owns it there nor is a wizard",
            )
        }
        Reason::NoPropertyW(x) => {
            about_object(
                x,
                "& has no w on $, and @ neither owns it there nor is a wizard",
            )
        }
        Reason::NotGiven(x) => about_object(x, "only a wizard may give & on % to $"),
        Reason::PropertyPerms => about_value("$ has other letters than r, w and c"),
        _ => None,
    }
}

/// What is said of a reason about verbs, accept lists or petitions; `None` for another reason.
fn of_verbs_and_lists(given: Given<'_>, reason: Reason) -> Option<Sentence> {
    match reason {
        Reason::NoVerb(x) => about_object(x, "$ has no verb &"),
        Reason::NoVerbR(x) => about_object(
            x,
            "verb & of $ has no r, and @ neither owns it nor is a wizard",
        ),
        Reason::NoVerbW(x) => about_object(
            x,
            "verb & of $ has no w, and @ neither owns it nor is a wizard",
        ),
        Reason::VerbPerms => about_value("$ has other letters than r, w, x and d"),
        Reason::VerbNames => about_value("$ names no verb"),
        Reason::VerbArgs => match unfit_place(given) {
            Some(1) => about_value("$ isn't a preposition"),
            _ => about_value("$ isn't \"this\", \"any\" or \"none\""),
        },
        Reason::LongList => about_value("the list has over 1000 entries"),
        Reason::NotFew => about_value("a petition asks for 1 to 64 calls"),
        Reason::Unasked => about_value("$ is no call that a petition may ask for"),
        Reason::Deep => about_value("lists are over 30 deep in a petition"),
        Reason::NoPetition => about_value("there is no petition %"),
        Reason::NotAsker => about_value("@ neither made petition % nor is a wizard"),
        _ => None,
    }
}

/// What is said of a reason. `None` if the call is written in another way, or if a name is in use.
fn sentence(given: Given<'_>, reason: Reason) -> Option<Sentence> {
    of_objects(given, reason)
        .or(of_properties(given, reason))
        .or(of_verbs_and_lists(given, reason))
}

/// The place, from 0, in the third value of the call, of the first argument that no verb may have. `None` if that isn't a list of texts.
fn unfit_place(given: Given<'_>) -> Option<usize> {
    first_unfit(list_at(given, THIRD)?.items())
}

/// The place, from 0, of the list in which `add_property`, `set_property_info`, `add_verb` or `set_verb_info` is given an owner, rights and
/// names.
fn info_place(name: CallName) -> usize {
    match name {
        CallName::AddProperty => 3,
        CallName::AddVerb => 1,
        _ => 2,
    }
}

/// Where the name is that a property would get from a call.
fn name_position(name: CallName) -> Position {
    match name {
        CallName::SetPropertyInfo => NEW_NAME,
        _ => SECOND,
    }
}

/// The value of a call that was checked, for a reason that names no object; `None` for another reason.
fn checked_value<'a>(given: Given<'a>, reason: Reason) -> Option<&'a Value> {
    match reason {
        Reason::NotTaken => value_at(given, THIRD),
        Reason::NoPropertyName => value_at(given, name_position(given.name)),
        Reason::PropertyPerms | Reason::VerbPerms => {
            value_at(given, Position::Item(info_place(given.name), 1))
        }
        Reason::VerbNames => value_at(given, Position::Item(info_place(given.name), 2)),
        Reason::VerbArgs => value_at(given, Position::Item(2, unfit_place(given)?)),
        Reason::Unasked => first_unasked(list_at(given, FIRST)?),
        _ => None,
    }
}

/// Says a value; nothing if there is no value. The only error is a lack of memory.
pub(crate) fn put_some(said: &mut Said, value: Option<&Value>) -> Result<(), AllocError> {
    match value {
        Some(value) => said.put_value(value),
        None => Ok(()),
    }
}

/// Says the words of a sentence: each letter, or what it stands for. The only error is a lack of memory.
fn put_sentence(
    said: &mut Said,
    given: Given<'_>,
    reason: Reason,
    sentence: Sentence,
) -> Result<(), AllocError> {
    for byte in sentence.1.as_bytes() {
        match (*byte, sentence.0) {
            (b'@', _) => said.put_object(given.programmer)?,
            (b'%', _) => put_some(said, value_at(given, FIRST))?,
            (b'&', _) => put_some(said, value_at(given, SECOND))?,
            (b'$', Some(object)) => said.put_object(object)?,
            (b'$', None) => put_some(said, checked_value(given, reason))?,
            (letter, _) => said.put(&[letter])?,
        }
    }
    Ok(())
}

/// Says that an object defines a property of the name already. The only error is a lack of memory.
fn put_taken(said: &mut Said, definer: ObjNo, name: Option<&Value>) -> Result<(), AllocError> {
    said.put_object(definer)?;
    said.put(b" defines ")?;
    match name {
        Some(name) => said.put_value(name)?,
        None => said.put(b"a property")?,
    }
    said.put(b" already")
}

/// Says that an object defines a property of the name that is disclosed, and that the new parent has one too. AllocError: memory ran out.
fn put_shared(
    said: &mut Said,
    definer: ObjNo,
    given: Given<'_>,
    disclosed: &Disclosure,
) -> Result<(), AllocError> {
    said.put_object(definer)?;
    said.put(b" defines ")?;
    match &disclosed.clash {
        Some(name) => said.put_text(name)?,
        None => said.put(b"a property")?,
    }
    said.put(b" already, which ")?;
    put_some(said, value_at(given, SECOND))?;
    said.put(b" has too")
}

/// Says after the lead which check of a call failed, or how the call is written. The only error is a lack of memory.
pub(crate) fn tell(
    said: &mut Said,
    lead: &[u8],
    given: Given<'_>,
    reason: Reason,
    disclosed: &Disclosure,
) -> Result<(), AllocError> {
    said.put(lead)?;
    if let Reason::NameShared(definer) = reason {
        return put_shared(said, definer, given, disclosed);
    }
    if let Reason::NameTaken(definer) = reason {
        return put_taken(said, definer, value_at(given, name_position(given.name)));
    }
    match sentence(given, reason) {
        Some(sentence) => put_sentence(said, given, reason, sentence),
        None => {
            said.put(b"it is written ")?;
            said.put(form_of(given.name).as_bytes())
        }
    }
}
