//! What becomes of each connection that comes to a desk.

ghost use Rattle.moo_run_laws.specs.DeskRuns.{ClosesLedger, KeepsLedger};

use moo_desk::{Inward, Outward};

/// From its start on, through any calls of `accept`, `close` and `settle` as their clauses let them be, a `Desk` keeps its ledger: each
/// connection that came is still gathered, was handed out, or was lost as it came; and each that was given back is still held, or was
/// answered whole, or is told of as lost, once.
pub fn desks_keep_a_ledger<R: Inward, W: Outward>()
    // It keeps the ledger while fewer than 2 ^ 32 connections were given back.
    ensures keeps { KeepsLedger R.peer R.reads R.fails R.Read W.peer W.Write }
    // Once a last `settle` tells of no loss, no connection is held that was given back, and as many losses were told of as answers were
    // lost.
    ensures closes { ClosesLedger R.peer R.reads R.fails R.Read W.peer W.Write }
{}
