//! What passes between a peer and the service through a desk.

ghost use Rattle.moo_run_laws.specs.Desk.{DeskAnswers, DeskFronts, DeskFaults, DeskCauses};

use moo_desk::{Gathered, Inward, Outgoing, Outward};
use moo_http::exchanges_pass_through;
use moo_http_request::Incoming;
use std::io::{Read, Write};

/// Who asked is who is answered: if a connection came to a `Desk`, was handed out, given back and sent as the desk's clauses say, its peer
/// sees what the service exchanged with it: all of the answer to what it asked once that was sent whole, else the beginning of it. A
/// request can't be read only if the reader of its peer failed, or if the desk gave it up.
pub fn exchanges_pass_the_desk<R: Inward, W: Outward>()
    // If all of the answer was sent, its peer, who asked, sees what the service exchanged.
    ensures sent { DeskAnswers R.peer R.reads R.fails R.Read ⟦<Gathered<R> as Read>⟧ W.peer W.Write ⟦<Outgoing<W> as Write>⟧ }
    // If a part of the answer is lost or is still to be sent, its peer, who asked, sees the beginning of the answer.
    ensures lost { DeskFronts R.peer R.reads R.fails R.Read ⟦<Gathered<R> as Read>⟧ W.peer W.Write ⟦<Outgoing<W> as Write>⟧ }
    // If the desk's reader failed, that of the peer failed in it, or the desk gave the request up.
    ensures cause { DeskCauses R.fails ⟦<Gathered<R> as Incoming>⟧.fails }
    // If the service met a fault as it wrote, the peer sees the beginning of the answer. If it met one as it read, the peer sees nothing,
    // and nothing ran. If memory ran out, the peer sees nothing, and what it asked may have run.
    ensures failed { DeskFaults R.peer R.reads R.fails R.Read ⟦<Gathered<R> as Read>⟧ W.peer W.Write ⟦<Outgoing<W> as Write>⟧ }
{
    exchanges_pass_through();
}
