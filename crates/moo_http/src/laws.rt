//! What holds of answers.

ghost use Rattle.std.specs.Prelude.{◌≡◌, ◌≢◌, ℕ};
ghost use Rattle.moo_store.specs.{Moment.{Moment, state_of_moment}, Place.{Place, Works, moment_of}};
ghost use Rattle.moo_http_request.specs.declared.asked.Asked.{Asked};
ghost use Rattle.moo_http_response.specs.{declared.outcome.RequestOutcome.{RequestOutcome}, Responses.{response_of}};
ghost use Rattle.moo_http.specs.{Answers.{MayAnswer, answer}, Leading.{LeadsTo}, Through.{AnswersPass, FrontsPass, FaultsPass}};
ghost use Rattle.moo_http.specs.Turns.{Attended};

use moo_arrivals::Arrivals;

/// Each answer of a World that works, but 503, is the defined answer at its state, and leads to the defined next state.
pub fn answers_are_defined()
    ensures { (m : Moment) (asked : Asked) (o : RequestOutcome) (to : Place) → MayAnswer (Works m) asked o to →
        (response_of o).status ≢ 503 →
        (o ≡ (answer (state_of_moment m) asked).0) × (state_of_moment (moment_of to) ≡ (answer (state_of_moment m) asked).1) }
{}

/// What is exchanged through a desk is what the peer sees: all of its answer once nothing is left to be sent, else the beginning of it.
pub fn exchanges_pass_through()
    // If nothing is left to be sent of an answer that was written whole, the peer got all of it.
    ensures sent { AnswersPass }
    // If a part of such an answer isn't sent, the peer got the beginning of it.
    ensures lost { FrontsPass }
    // If the connection met a fault, the peer got the beginning of the answer (Write), or nothing of it (Read and OutOfMemory).
    ensures failed { FaultsPass }
{}

/// The turns of connections lead on by accepted batches, and by nothing else: to each moment that may be left where they end.
pub fn connections_lead_on<A: Arrivals>()
    // If accepted batches led to where the turns began, accepted batches lead to where they end.
    ensures leads { (m : Moment) (answered failed : ℕ) (old new : A) (from to : Place) →
        Attended A.Arrivals A.Reader.Read A.Reader.fails A.Writer.Write answered failed old from new to → LeadsTo m from → LeadsTo m to }
{}
