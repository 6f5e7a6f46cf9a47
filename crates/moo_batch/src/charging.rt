//! What answers cost, in ticks.

use moo_value::{Value, ValueList};

/// How many bytes of a string in an answer cost a tick.
const BYTES_A_TICK: u64 = 64;

/// How many ticks an answer costs: one for each value in it, at any depth, and one for each 64 bytes of a string.
#[cycle(charging)]
pub(crate) fn ticks_of(answer: &Value) -> u64 {
    match answer {
        Value::Str(text) => 1 + text.bytes().len() as u64 / BYTES_A_TICK,
        Value::List(values) => ticks_in(values),
        _ => 1,
    }
}

/// How many ticks a list costs: one for itself, and those of its values. 2^64 - 1 stands for more.
#[cycle(charging)]
fn ticks_in(values: &ValueList) -> u64 {
    let mut ticks: u64 = 1;
    for value in values.items() {
        ticks = ticks.saturating_add(ticks_of(value));
    }
    ticks
}
