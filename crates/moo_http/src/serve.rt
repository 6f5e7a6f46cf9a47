//! One request of a connection, and its answer.

ghost use Rattle.std.specs.Prelude.{◌≡◌, ◌≢◌, IfErr, OnOk};
ghost use Rattle.moo_http_request.specs.{Given.{HasFailed}, declared.asked.Refusal.{Refusal}};
ghost use Rattle.moo_arrivals.specs.declared.arrivals.Closing.{Closing};
ghost use Rattle.moo_http.specs.{Advanced.{AdvancesBy}, Serves.{AnswersAsked, ClosesGently}, Turns.{Exchanged}};

use crate::consult::consult;
use crate::fault::ServeFault;
use crate::note::Note;
use crate::why::answer_with_whys;
use crate::write::write_out;
use moo_http_request::{Asked, Incoming, Received, Routes, read_request};
use moo_reasons::Whys;
use moo_store::World;
use sqlite::Alter;
use std::alloc::Global;
use std::io::Write;

/// What requests are served with: memory, the routes that they may ask for, and how many ticks each of them has.
#[derive(Drop)]
pub struct Means<'r> {
    pub alloc: Global,
    pub routes: &'r Routes,
    /// How many ticks each request has.
    pub ticks: u32,
}

/// What a request asks of the World, and how it wants the answer.
#[derive(Drop)]
pub(crate) struct Inquiry {
    pub(crate) asked: Asked,
    /// Only the head of the answer is wanted.
    pub(crate) is_head: bool,
    /// It is to be said why what was asked is refused.
    pub(crate) asks_why: bool,
}

/// Does what a request asks, and writes the answer, which says why it is refused if that is asked too. Write if the writer fails;
/// OutOfMemory if memory for the answer runs out.
fn serve_asked<S: Alter + Drop, W: Write>(
    means: &Means<'_>,
    inquiry: &Inquiry,
    writer: &mut W,
    world: &mut World<S>,
    note: &mut Note,
) -> Result<(), ServeFault>
    // Wherever the World was, the answer that holds there is written, as far as the result says, and the World is where that leads.
    ensures answered { AdvancesBy S.Store world.old world.new (λ from to. AnswersAsked inquiry.now.is_head inquiry.now.asks_why
        inquiry.now.asked result from to (W.contents writer.old) (W.contents writer.new)) }
    // Nothing is written at another fault than Write.
    ensures unwritten { IfErr result (λ fault. fault ≢ ServeFault.Write → writer.new ≡ writer.old) }
    ensures fault { IfErr result (λ fault. fault ≢ ServeFault.Read) }
    // After a refusal the note says that the connection is to be closed gently.
    ensures gentle { (refusal : Refusal) → inquiry.now.asked ≡ Asked.Refused refusal → note.new.closing ≡ Closing.Gently }
{
    note.asks(&inquiry.asked);
    let mut whys = Whys::new(means.alloc, inquiry.asks_why, means.ticks);
    let outcome = consult(means.alloc, world, &inquiry.asked, &mut whys);
    note.comes_to(&outcome);
    let bytes = answer_with_whys(means.alloc, &mut whys, inquiry, outcome)?;
    write_out(writer, &bytes)
}

/// Reads the one request of a connection, does what it asks, and writes the answer. If no byte comes nothing is written, and that isn't a
/// fault. What is asked, and whether it is answered 503, is noted.
///
/// The faults: Read if the reader fails, and the World is as it was; Write if the writer fails or takes no bytes, and what was asked is
/// done; OutOfMemory if memory runs out before the World is asked or after that. An answer 200 to a batch is written after its commit.
pub fn serve_one<S: Alter + Drop, R: Incoming, W: Write>(
    means: &Means<'_>,
    reader: &mut R,
    writer: &mut W,
    world: &mut World<S>,
    note: &mut Note,
) -> Result<(), ServeFault>
    // Wherever the World was, the answer to the bytes that the reader gave is written, and nothing else, and the World is where that leads;
    // it is the very World, unless it accepted a batch or its store failed. At the fault Write the beginning of the answer is written; at
    // Read and OutOfMemory nothing is.
    ensures served { AdvancesBy S.Store world.old world.new (λ from to.
        Exchanged result from to (record {
          left = R.remaining reader.old;
          rest = R.remaining reader.new;
          before = W.contents writer.old;
          after = W.contents writer.new;
        })) }
    // Nothing is written at another fault than Write.
    ensures unwritten { IfErr result (λ fault. fault ≢ ServeFault.Write → writer.new ≡ writer.old) }
    // The fault is Read only if the reader failed, at its last read, and then the World isn't asked.
    ensures unread { IfErr result (λ fault. fault ≡ ServeFault.Read → (world.new ≡ world.old) × HasFailed R.fails reader.new) }
    // If the request is refused before the World is asked, and all of the answer is written, the note says that the connection is to be
    // closed gently.
    ensures gentle { OnOk result (ClosesGently (R.remaining reader.old) (R.remaining reader.new) note.new.closing) }
{
    match read_request(means.alloc, means.routes, reader)? {
        Received::Nothing => Ok(()),
        Received::Request {
            is_head,
            asks_why,
            asked,
        } => {
            let inquiry = Inquiry {
                asked,
                is_head,
                asks_why,
            };
            serve_asked(means, &inquiry, writer, world, note)
        }
    }
}
