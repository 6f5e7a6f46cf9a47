//! Dumping rows as text.

ghost use Rattle.std.specs.{Prelude.{◌≡◌, ℕ, take, IfOk, OnOk, OnErr}, Io.KnownBytes.{Appends}};
ghost use Rattle.moo_dump.specs.{Dump.{heading, dump}, Lines.{objects_text, petitions_text}, Written.{AppendsFront}, Outlined.{IsOutline}};
ghost use Rattle.moo_world.specs.{Judge.{state_of}, Rows.{IsGood}};

use crate::fault::RowsDumpFault;
use crate::lines::petition_line;
use crate::objects::object_lines;
use crate::outline::{Outline, outline_of};
use moo_rows::{Rows, each_object, each_petition};
use moo_text::put_all;
use std::alloc::{AllocError, Global};
use std::io::Write;

/// The first two lines of a dump: `seq` with how many batches were accepted, and `top` with the greatest number that an object was given.
/// The only error is a lack of memory.
#[tactic(auto, unfolding(moo_world::specs::Rows::world_shown))]
pub(crate) fn heading_text<R: Rows>(alloc: Global, rows: &R) -> Result<Vec<u8>, AllocError>
    ensures { IfOk result (λ text. text.items ≡ heading (state_of (R.held rows.now).maps)) }
{
    let head = rows.head();
    let seq = head.seq.to_string(alloc)?;
    let top = head.top.to_string(alloc)?;
    let text = ["seq ", seq.as_str(), "\ntop #", top.as_str(), "\n"].concat(alloc)?;
    Ok(text.into_bytes())
}

/// Writes the lines of the objects, ascending. Write if the writer fails or takes no bytes, OutOfMemory if memory runs out; the beginning
/// of the lines may be written then.
fn write_objects<R: Rows, W: Write>(
    alloc: Global,
    rows: &R,
    outline: &Outline,
    output: &mut W,
) -> Result<(), RowsDumpFault>
    // The rows are good: sound rows of a well formed world, and petitions as they may be beside it.
    requires good { IsGood (R.held rows.now).maps }
    // The outline is that of the rows.
    requires outline { IsOutline (R.held rows.now).maps outline.now }
    ensures ok { OnOk result (Appends (W.contents output.old) (W.contents output.new) (objects_text (R.held rows.now).maps)) }
    // At a fault the first bytes of the lines are written, 0 or more of them.
    ensures err { OnErr result (AppendsFront (W.contents output.old) (W.contents output.new) (objects_text (R.held rows.now).maps)) }
{
    for (x, _) in each_object(rows) {
        let text = object_lines(alloc, rows, outline, x)?;
        put_all(output, &text)?;
    }
    Ok(())
}

/// Writes the lines of the petitions, ascending. Write if the writer fails or takes no bytes, OutOfMemory if memory runs out; the
/// beginning of the lines may be written then.
fn put_petitions<R: Rows, W: Write>(
    alloc: Global,
    rows: &R,
    output: &mut W,
) -> Result<(), RowsDumpFault>
    ensures ok { OnOk result (Appends (W.contents output.old) (W.contents output.new) (petitions_text (R.held rows.now).maps)) }
    // At a fault the first bytes of the lines are written, 0 or more of them.
    ensures err { OnErr result (AppendsFront (W.contents output.old) (W.contents output.new) (petitions_text (R.held rows.now).maps)) }
{
    for (id, row) in each_petition(rows) {
        let text = petition_line(alloc, id, row)?;
        put_all(output, &text)?;
    }
    Ok(())
}

/// Writes all that the rows hold as text: `seq` with how many batches were accepted, `top` with the greatest
/// number that an object was given, and then for each object, ascending, the lines `object`, `property` for each name that
/// it defines, `slot` for each property that it has, by definers from the object up its chain, and `verb` for each of its
/// verbs; then for each petition, ascending, the line `petition`, with its number, who asks and the calls; then `end`.
/// After `object`, `property`, `slot`, `verb` and `petition` comes a literal list.
///
/// Write if the writer fails or takes no bytes, OutOfMemory if memory runs out; the beginning of the text may be written then.
///
/// All properties and all objects are gone over once, and then each object takes as many look-ups as it has lines. How long its chain
/// is doesn't count.
pub fn dump<R: Rows, W: Write>(alloc: Global, rows: &R, output: &mut W) -> Result<(), RowsDumpFault>
    // The rows are good: sound rows of a well formed world, and petitions as they may be beside it.
    requires { IsGood (R.held rows.now).maps }
    // The dump of the rows is written after what the writer had, and nothing else.
    ensures ok { OnOk result (Appends (W.contents output.old) (W.contents output.new) (dump (state_of (R.held rows.now).maps))) }
    // At a fault the first bytes of the dump are written, 0 or more of them.
    ensures err { OnErr result ((count : ℕ)
        × Appends (W.contents output.old) (W.contents output.new) (take count (dump (state_of (R.held rows.now).maps)))) }
{
    let outline = outline_of(alloc, rows)?;
    let heading = heading_text(alloc, rows)?;
    put_all(output, &heading)?;
    write_objects(alloc, rows, &outline, output)?;
    put_petitions(alloc, rows, output)?;
    Ok(put_all(output, b"end\n")?)
}
