//! Reading the first two lines of a dump.

ghost use Rattle.std.specs.Prelude.{◌≡◌, ◌≢◌, ◌<◌, ◌≤◌, ◌^◌, ◌++◌, ℕ, List, pos, negsuc, ◌≤ℤ◌, length, drop, FitsSigned, IfOk, IfErr};
ghost use Rattle.std.specs.{Prelude.{codes}, Fmt.{decimal}, Int.{w32}};
ghost use Rattle.moo_value.specs.{declared.value.ObjNo.{ObjNo}, declared.value.Value.{Value}, declared.value.Value.TheVariants.{Int, Obj}};
ghost use Rattle.moo_value.specs.Literal.{Fits, print};
ghost use Rattle.moo_rows.specs.Maps.{no_maps};
ghost use Rattle.moo_dump.specs.Dump.{heading};
ghost use Rattle.moo_world.specs.Judge.{State};
ghost use Rattle.moo_load.specs.{Loaded.{SaysOfText}, OneState.{IsHeld}, Rows.{AreRead, first_head}};

use crate::fault::{LineFault, LineResult, LoadFault};
use crate::line::{after_prefix, next_line};
use crate::reason::DumpReason;
use moo_rows::Head;
use moo_value::{ObjNo, Value, read_whole_literal};
use std::alloc::Global;

/// The integer that a value is, 0 to 2^63 - 1. NoHeading for any other value.
fn count_of(value: &Value) -> LineResult<u64>
    ensures limit { IfOk result (λ n. n < 2 ^ 63) }
    ensures ok { IfOk result (λ n. value.now ≡ Int (pos n)) }
    // There is a fault only if the value isn't such an integer.
    ensures err { IfErr result (λ _. (n : ℕ) → value.now ≢ Int (pos n)) }
{
    match value {
        Value::Int(n) if 0 <= *n => Ok(*n as u64),
        _ => Err(LineFault::Unreadable(DumpReason::NoHeading)),
    }
}

/// The number of the object that a value is, -1 to 2,147,483,647. NoHeading for any other value.
fn assigned_of(value: &Value) -> LineResult<i32>
    // The number is one that an object may have, or -1.
    ensures least { IfOk result (λ n. negsuc 0 ≤ℤ n) }
    ensures fits { IfOk result (λ n. FitsSigned w32 n) }
    ensures ok { IfOk result (λ n. value.now ≡ Obj (record { 0 = n })) }
    // There is a fault only if the value isn't such an object.
    ensures err { IfErr result (λ _. (x : ObjNo) → negsuc 0 ≤ℤ x.0 → value.now ≢ Obj x) }
{
    match value {
        Value::Obj(ObjNo(n)) if -1 <= *n => Ok(*n),
        _ => Err(LineFault::Unreadable(DumpReason::NoHeading)),
    }
}

/// The value of a line that is a prefix and one literal. NoHeading without the prefix, else the fault of the literal.
fn value_after(alloc: Global, prefix: &[u8], line: &[u8]) -> LineResult<Value>
    ensures fits { IfOk result (λ value. Fits value) }
    // If the line is the prefix and the literal of a value, the answer is the value.
    ensures ok { IfOk result (λ value. (v : Value) → Fits v → line.now ≡ prefix.now ++ print v → value ≡ v) }
    // There is a fault, but for out of memory, only if the line isn't so.
    ensures err { IfErr result (λ fault. fault ≢ LineFault.OutOfMemory → (v : Value) → Fits v → line.now ≢ prefix.now ++ print v) }
{
    let literal = after_prefix(prefix, line, DumpReason::NoHeading)?;
    let value = read_whole_literal(alloc, literal)?;
    Ok(value)
}

/// How many batches were accepted, from a line `seq N`. NoHeading, or the fault of the literal, for any other line.
fn seq_of(alloc: Global, line: &[u8]) -> LineResult<u64>
    ensures limit { IfOk result (λ seq. seq < 2 ^ 63) }
    // If the line is `seq` and a number below 2^63, the answer is the number.
    ensures ok { IfOk result (λ seq. (n : ℕ) → n < 2 ^ 63 → line.now ≡ codes "seq " ++ decimal n → seq ≡ n) }
    // There is a fault, but for out of memory, only if the line isn't so.
    ensures err { IfErr result (λ fault. fault ≢ LineFault.OutOfMemory → (n : ℕ) → n < 2 ^ 63 → line.now ≢ codes "seq " ++ decimal n) }
{
    let value = value_after(alloc, b"seq ", line)?;
    count_of(&value)
}

/// The greatest number that an object was given, -1 for none, from a line `top #N`. NoHeading, or the literal's fault, for another line.
fn top_of(alloc: Global, line: &[u8]) -> LineResult<i32>
    // The number is one that an object may have, or -1.
    ensures least { IfOk result (λ top. negsuc 0 ≤ℤ top) }
    ensures most { IfOk result (λ top. top ≤ℤ pos 2147483647) }
    ensures fits { IfOk result (λ top. FitsSigned w32 top) }
    // If the line is `top` and an object of such a number, the answer is the number.
    ensures ok { IfOk result (λ top. (x : ObjNo) → negsuc 0 ≤ℤ x.0 → x.0 ≤ℤ pos 2147483647 → line.now ≡ codes "top " ++ print (Obj x) →
        top ≡ x.0) }
    // There is a fault, but for out of memory, only if the line isn't so.
    ensures err { IfErr result (λ fault. fault ≢ LineFault.OutOfMemory → (x : ObjNo) → negsuc 0 ≤ℤ x.0 → x.0 ≤ℤ pos 2147483647 →
        line.now ≢ codes "top " ++ print (Obj x)) }
{
    let value = value_after(alloc, b"top ", line)?;
    assigned_of(&value)
}

/// The head that the first two lines give, in which the next property, verb and petition are number 1; and the place at which the third
/// line begins. NotADump with the line that can't be read; OutOfMemory if memory runs out.
pub(crate) fn read_heading(alloc: Global, text: &[u8]) -> Result<(Head, usize), LoadFault>
    // With the head and no row, rows are within their limits, and fewer than 2^63 batches were accepted.
    ensures read { IfOk result (λ r. AreRead (record no_maps { head = r.0 })) }
    ensures start { IfOk result (λ r. r.1 ≤ length text.now) }
    // If the text begins with a state's heading, the head has its `seq` and `top`, and the next numbers 1; the rest begins at the place.
    ensures ok { IfOk result (λ r. (s : State) (rest : List ℕ) → IsHeld s → text.now ≡ heading s ++ rest → (r.0 ≡ first_head s)
        × (drop r.1 text.now ≡ rest)) }
    // There is a fault, but for out of memory, only if the text doesn't begin with the heading of a state.
    ensures err { IfErr result (λ fault. fault ≢ LoadFault.OutOfMemory → (s : State) (rest : List ℕ) → IsHeld s →
        text.now ≢ heading s ++ rest) }
    // The text has a line of the number that a fault names.
    ensures fault { IfErr result (SaysOfText text.now) }
{
    let first = next_line(text, 0)?;
    let seq = match seq_of(alloc, first) {
        Ok(seq) => seq,
        Err(fault) => return Err(fault.within(text, 0)),
    };
    let at = first.len() + 1;
    let second = next_line(text, at)?;
    let top = match top_of(alloc, second) {
        Ok(top) => top,
        Err(fault) => return Err(fault.within(text, at)),
    };
    let head = Head {
        top,
        next_prop: 1,
        next_verb: 1,
        next_petition: 1,
        seq,
    };
    Ok((head, at + second.len() + 1))
}
