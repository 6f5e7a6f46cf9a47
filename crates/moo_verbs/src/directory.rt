//! The verbs of an object: listed, added, removed and changed.

ghost use Rattle.std.specs.{Prelude.{◌≡◌, ◌<◌, true, map, IfOk, OnOk}, FinMap.{insert, remove}};
ghost use Rattle.moo_world.specs.{Rows.{world_of, verb_id, IsSound, IsGood}, World.{is_object, has_word, directory_of}};
ghost use Rattle.moo_world.specs.{Directories.{verb_added, verb_removed, verb_info_set, verb_args_set}, Keeps.{Keeps}};
ghost use Rattle.moo_verbs.specs.Places.{has_verb, verb_place};

use moo_rows::{ArgSpec, Row, Rows, VerbBits, VerbId, VerbRow, each_verb_of};
use moo_value::{MooStr, ObjNo};
use std::alloc::{AllocError, Global};

/// For each verb of x the string of its names, as it was given, in the order of the directory. The only error is a lack of memory.
///
/// LambdaMOO Programmer's Manual, 'Operations on Verbs': `verbs`.
pub fn list<R: Rows>(alloc: Global, rows: &R, x: ObjNo) -> Result<Vec<MooStr>, AllocError>
    // The rows are sound.
    requires { IsSound (R.held rows.now).maps }
    ensures { IfOk result (λ names. names.items ≡ map (λ v. v.names) (directory_of (world_of (R.held rows.now).maps) x)) }
{
    let mut found = Vec::new(alloc);
    for (_, row) in each_verb_of(rows, x, VerbId(0)) {
        found.push(row.names.copy(alloc)?)?;
    }
    Ok(found)
}

/// Adds a verb to x, the last of its directory, and answers its number, which is never given again. No other verb changes. The
/// only error is a lack of memory, after which the rows may be half changed.
///
/// LambdaMOO Programmer's Manual, 'Operations on Verbs': `add_verb`.
pub fn add<R: Rows>(rows: &mut R, x: ObjNo, verb: VerbRow) -> Result<VerbId, AllocError>
    // The rows are good: sound rows of a well formed world, and petitions as they may be beside it.
    requires good { IsGood (R.held rows.old).maps }
    // x is an object.
    requires object { is_object (world_of (R.held rows.old).maps) x ≡ true }
    // A number is left for the verb.
    requires left { (R.held rows.old).maps.head.next_verb < 4294967295 }
    // Its names aren't empty or all spaces.
    requires names { has_word verb.names ≡ true }
    // The answer is the number that was to be the next.
    ensures id { IfOk result (λ id. id.0 ≡ (R.held rows.old).maps.head.next_verb) }
    // Of the rows of verbs only that of the new verb is new.
    ensures verbs { OnOk result
        ((R.held rows.new).maps.verbs ≡ insert (R.held rows.old).maps.verbs (x, verb_id (R.held rows.old).maps.head.next_verb) verb) }
    // The world has one verb more, the last in the directory of x.
    ensures world { OnOk result
        (world_of (R.held rows.new).maps ≡ verb_added (world_of (R.held rows.old).maps) x verb) }
    // The rows are those of a well formed world; what stays keeps its number; petitions, count of batches and what the rows are over stay.
    ensures kept { OnOk result (Keeps (R.held rows.old) (R.held rows.new)) }
{
    // What the types of the names and the owner keep is known once they are read.
    let _names = verb.names.bytes();
    let _owner = verb.owner.0;
    let mut head = rows.head();
    let id = VerbId(head.next_verb);
    head.next_verb += 1;
    rows.set_head(head);
    rows.put_verb((x, id), verb)?;
    Ok(id)
}

/// Removes a verb of x; each other verb keeps its number. The only error is a lack of memory.
///
/// LambdaMOO Programmer's Manual, 'Operations on Verbs': `delete_verb`.
pub fn delete<R: Rows>(rows: &mut R, x: ObjNo, id: VerbId) -> Result<(), AllocError>
    // The rows are good: sound rows of a well formed world, and petitions as they may be beside it.
    requires good { IsGood (R.held rows.old).maps }
    // x has the verb.
    requires held { has_verb (R.held rows.old).maps x id ≡ true }
    // The world is without the verb at its place in the directory of x.
    ensures world { OnOk result
        (world_of (R.held rows.new).maps
        ≡ verb_removed (world_of (R.held rows.old).maps) x (verb_place (R.held rows.old).maps x id)) }
    // Of the rows of verbs only that of the verb is gone.
    ensures verbs { OnOk result ((R.held rows.new).maps.verbs ≡ remove (R.held rows.old).maps.verbs (x, id)) }
    // The rows are those of a well formed world; what stays keeps its number; petitions, count of batches and what the rows are over stay.
    ensures kept { OnOk result (Keeps (R.held rows.old) (R.held rows.new)) }
{
    rows.remove_verb((x, id))?;
    Ok(())
}

/// Sets the owner, the rights and the names of a verb of x; its arguments and its place stay. The only error is a lack of memory.
///
/// LambdaMOO Programmer's Manual, 'Operations on Verbs': `set_verb_info`.
pub fn set_info<R: Rows>(
    rows: &mut R,
    x: ObjNo,
    id: VerbId,
    owner: ObjNo,
    bits: VerbBits,
    names: MooStr,
) -> Result<(), AllocError>
    // The rows are good: sound rows of a well formed world, and petitions as they may be beside it.
    requires good { IsGood (R.held rows.old).maps }
    // x has the verb.
    requires held { has_verb (R.held rows.old).maps x id ≡ true }
    // The new names aren't empty or all spaces.
    requires names { has_word names ≡ true }
    // The world has the verb at its place with the new owner, rights and names.
    ensures world { OnOk result
        (world_of (R.held rows.new).maps
        ≡ verb_info_set (world_of (R.held rows.old).maps) x (verb_place (R.held rows.old).maps x id) owner bits names) }
    // The rows are those of a well formed world; what stays keeps its number; petitions, count of batches and what the rows are over stay.
    ensures kept { OnOk result (Keeps (R.held rows.old) (R.held rows.new)) }
{
    // What the types of the names and the owner keep is known once they are read.
    let _names = names.bytes();
    let _owner = owner.0;
    let args = match rows.verb((x, id)) {
        None => unreachable!(),
        Some(row) => row.args,
    };
    let row = VerbRow {
        names,
        owner,
        bits,
        args,
    };
    rows.put_verb((x, id), row)?;
    Ok(())
}

/// Sets the arguments of a verb of x; its owner, its rights, its names and its place stay. The only error is a lack of memory.
///
/// LambdaMOO Programmer's Manual, 'Operations on Verbs': `set_verb_args`.
pub fn set_args<R: Rows>(
    alloc: Global,
    rows: &mut R,
    x: ObjNo,
    id: VerbId,
    args: ArgSpec,
) -> Result<(), AllocError>
    // The rows are good: sound rows of a well formed world, and petitions as they may be beside it.
    requires good { IsGood (R.held rows.old).maps }
    // x has the verb.
    requires held { has_verb (R.held rows.old).maps x id ≡ true }
    // The world has the verb at its place with the new arguments.
    ensures world { OnOk result
        (world_of (R.held rows.new).maps
        ≡ verb_args_set (world_of (R.held rows.old).maps) x (verb_place (R.held rows.old).maps x id) args) }
    // The rows are those of a well formed world; what stays keeps its number; petitions, count of batches and what the rows are over stay.
    ensures kept { OnOk result (Keeps (R.held rows.old) (R.held rows.new)) }
{
    let mut row = match rows.verb((x, id)) {
        None => unreachable!(),
        Some(row) => row.copy(alloc)?,
    };
    row.args = args;
    rows.put_verb((x, id), row)?;
    Ok(())
}
