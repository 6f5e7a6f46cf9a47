//! Finding a verb in the directory of an object.

ghost use Rattle.std.specs.{Prelude.{◌≡◌, true, Some, option_map, slice_get, IfSome}, List.{find}};
ghost use Rattle.moo_rows.specs.Walk.{verbs_of_left};
ghost use Rattle.moo_world.specs.{Rows.{world_of, IsSound}, Matching.{one_matches}, Descriptors.{place_numbered, described, found_verb}};
ghost use Rattle.moo_world.specs.Directories.{verb_at};
ghost use Rattle.moo_verbs.specs.Places.{has_verb, verb_place};

use crate::matching::one_matches;
use moo_rows::{Rows, VerbId, VerbRow, each_verb_of};
use moo_value::{MooStr, ObjNo};
use moo_world::Desc;

/// The place in a directory, from 0, that a number, from 1, means; `None` for a number below 1.
fn place_numbered(number: &i64) -> Option<usize>
    ensures { result ≡ place_numbered number.now }
{
    if *number < 1 {
        None
    } else {
        Some((*number - 1) as usize)
    }
}

/// The verb of x that comes after `count` others in its directory; `None` if the directory ends before it. Takes no memory.
fn verb_after<R: Rows>(rows: &R, x: ObjNo, count: usize) -> Option<VerbId>
    // Of the verbs of x past the number 0, in order, it is the one after `count` others.
    ensures { result
        ≡ option_map (λ e. e.0.1) (slice_get (verbs_of_left x (record { 0 = 0 }) (R.held rows.now).maps) count) }
{
    match each_verb_of(rows, x, VerbId(0)).nth(count) {
        None => None,
        Some((key, _row)) => Some(key.1),
    }
}

/// Whether one of the names of a verb matches a word, as `matches` says.
fn has_matching_name(row: &VerbRow, word: &[u8]) -> bool
    ensures { result ≡ one_matches row.now.names word.now }
{
    one_matches(row.names.bytes(), word)
}

/// The first verb of x one of whose names matches a word; `None` if no verb of x has such a name. Takes no memory.
fn verb_named<R: Rows>(rows: &R, x: ObjNo, word: &[u8]) -> Option<VerbId>
    // Of the verbs of x past the number 0, in order, it is the first one of whose names matches.
    ensures { result
        ≡ option_map (λ e. e.0.1)
        (find (λ e. one_matches e.1.names word.now) (verbs_of_left x (record { 0 = 0 }) (R.held rows.now).maps)) }
{
    match each_verb_of(rows, x, VerbId(0)).find(|(_key, row)| has_matching_name(row, word)) {
        None => None,
        Some((key, _row)) => Some(key.1),
    }
}

/// The verb of x that a descriptor names: the one at a number, from 1, in the directory, or the first one of whose names matches a word.
/// `None` for a number outside the directory, and for a word that no verb of x matches.
///
/// LambdaMOO Programmer's Manual, 'Operations on Verbs'.
pub fn find_verb<R: Rows>(rows: &R, x: ObjNo, desc: &Desc) -> Option<VerbId>
    // The rows are sound.
    requires { IsSound (R.held rows.now).maps }
    // The place in the directory of the verb found is the one that the descriptor names; none is found if it names none.
    ensures place { option_map (verb_place (R.held rows.now).maps x) result
        ≡ described (world_of (R.held rows.now).maps) x desc.now }
    // x has the verb found.
    ensures held { IfSome result (λ id. has_verb (R.held rows.now).maps x id ≡ true) }
{
    match desc {
        Desc::Index(number) => match place_numbered(number) {
            None => None,
            Some(place) => verb_after(rows, x, place),
        },
        Desc::Name(word) => verb_named(rows, x, word.bytes()),
    }
}

/// The row of a verb that x has, by its number. Takes no memory.
pub fn verb<R: Rows>(rows: &R, x: ObjNo, id: VerbId) -> &VerbRow
    // The rows are sound.
    requires sound { IsSound (R.held rows.now).maps }
    // x has the verb.
    requires held { has_verb (R.held rows.now).maps x id ≡ true }
    ensures { Some result.now
        ≡ verb_at (world_of (R.held rows.now).maps) x (verb_place (R.held rows.now).maps x id) }
{
    match rows.verb((x, id)) {
        None => unreachable!(),
        Some(row) => row,
    }
}

/// A verb of an object, with its number.
#[derive(Clone, Copy)]
pub struct FoundVerb<'a> {
    pub id: VerbId,
    pub row: &'a VerbRow,
}

/// The verb of x that a descriptor names, with its row; `None` where `find_verb` finds no verb.
///
/// LambdaMOO Programmer's Manual, 'Operations on Verbs'.
pub fn found_verb<'a, R: Rows>(rows: &'a R, x: ObjNo, desc: &Desc) -> Option<FoundVerb<'a>>
    // The rows are sound.
    requires { IsSound (R.held rows.now).maps }
    // The place in the directory and the row of the verb found are those that the descriptor names; none is found if it names none.
    ensures verb { option_map (λ f. (verb_place (R.held rows.now).maps x f.id, f.row.now)) result
        ≡ found_verb (world_of (R.held rows.now).maps) x desc.now }
    // x has the verb found.
    ensures held { IfSome result (λ f. has_verb (R.held rows.now).maps x f.id ≡ true) }
{
    match find_verb(rows, x, desc) {
        None => None,
        Some(id) => Some(FoundVerb {
            id,
            row: verb(rows, x, id),
        }),
    }
}
