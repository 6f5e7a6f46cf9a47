//! Nobody rises: of the batches that a text, a service or a run of the program runs.

ghost use Rattle.std.specs.Prelude.{List};
ghost use Rattle.moo_world.specs.{declared.call.Batch.{Batch}, Rows.{IsGood}};
ghost use Rattle.moo_store.specs.Moment.{Moment, state_of_moment, LeadsByEach};
ghost use Rattle.moo_laws.specs.NobodyRises.{NoWizardActs, KeepsRights};

/// If none of these batches is a wizard's at its turn, nobody rises by them. Of what the batches do nothing is supposed.
pub fn led_batches_keep_rights()
    // The batches lead from one moment to another, as those of a text do (`turns_lead`), and those of each run of the program.
    ensures moments { (m end : Moment) (batches : List Batch) → IsGood m.rows → LeadsByEach m batches end →
        NoWizardActs (state_of_moment m) batches → KeepsRights (state_of_moment m) batches (state_of_moment end) }
{}
