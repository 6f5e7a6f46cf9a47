//! The texts of prepositions, and of object specifiers.

ghost use Rattle.std.specs.Prelude.{◌≡◌, Some};
ghost use Rattle.moo_value.specs.Text.{IsText};
ghost use Rattle.moo_world.specs.{Prepositions.{set_text, prep_text, object_spec_text}, VerbReading.{prep_of, object_spec_of}};

use moo_rows::{ObjectSpec, Preposition, PrepositionSet};

/// The phrases of a set, with slashes between them.
pub(crate) fn set_text(set: PrepositionSet) -> &'static str
    ensures { result.now ≡ set_text set }
{
    match set {
        PrepositionSet::With => "with/using",
        PrepositionSet::At => "at/to",
        PrepositionSet::InFrontOf => "in front of",
        PrepositionSet::In => "in/inside/into",
        PrepositionSet::OnTopOf => "on top of/on/onto/upon",
        PrepositionSet::OutOf => "out of/from inside/from",
        PrepositionSet::Over => "over",
        PrepositionSet::Through => "through",
        PrepositionSet::Under => "under/underneath/beneath",
        PrepositionSet::Behind => "behind",
        PrepositionSet::Beside => "beside",
        PrepositionSet::For => "for/about",
        PrepositionSet::Is => "is",
        PrepositionSet::As => "as",
        PrepositionSet::Off => "off/off of",
    }
}

/// The text of a preposition: `none`, `any`, or all phrases of its set with slashes between them.
///
/// LambdaMOO Programmer's Manual, 'Operations on Verbs': `verb_args`.
pub fn print_prep(prep: Preposition) -> &'static str
    ensures value { result.now ≡ prep_text prep }
    // A string may hold it.
    ensures text { IsText result.now }
    // Read again, it is the preposition.
    ensures read_again { prep_of result.now ≡ Some prep }
{
    match prep {
        Preposition::None => "none",
        Preposition::Any => "any",
        Preposition::Set(set) => set_text(set),
    }
}

/// The text of an object specifier: `this`, `any` or `none`.
///
/// LambdaMOO Programmer's Manual, 'Operations on Verbs': `verb_args`.
#[tactic(auto, unfolding(moo_world::specs::Objects::same_text, moo_world::specs::Objects::folded))]
pub fn print_object_spec(place: ObjectSpec) -> &'static str
    ensures value { result.now ≡ object_spec_text place }
    // A string may hold it.
    ensures text { IsText result.now }
    // Read again, it is the object specifier.
    ensures read_again { object_spec_of result.now ≡ Some place }
{
    match place {
        ObjectSpec::This => "this",
        ObjectSpec::Any => "any",
        ObjectSpec::None => "none",
    }
}
