//! The connections whose answers were lost.

ghost use Rattle.std.specs.Prelude.{◌≡◌, [], IfOk};
ghost use Rattle.moo_desk.specs.Told.{NotesLoss, TellsOf};

use moo_arrivals::{Cause, Loss, Route};
use std::alloc::{AllocError, Global};

/// The connections whose answers were lost and weren't told of yet.
#[derive(Drop)]
pub struct Losses {
    all: Vec<Loss>,
    /// How many more there are, for which there was no memory.
    more: u32,
}

impl Losses {
    /// No losses, with room for so many. The only error is a lack of memory.
    pub fn new(alloc: Global, room: usize) -> Result<Losses, AllocError>
        ensures { IfOk result (λ losses. (losses.all.items ≡ []) × (losses.more ≡ 0)) }
    {
        Ok(Losses {
            all: Vec::with_capacity(alloc, room)?,
            more: 0,
        })
    }

    /// Notes one more loss. If memory runs out, only that there is one more is noted, up to 4,294,967,295.
    pub fn add(&mut self, loss: Loss)
        ensures { NotesLoss self.old loss self.new }
    {
        if self.all.push(loss).is_err() {
            self.more = self.more.saturating_add(1);
        }
    }

    /// Takes one loss, to be told of. After those that were noted, it takes those for which there was no memory, each with the route
    /// Unknown and the cause OutOfMemory. None if no loss is left.
    pub fn take(&mut self) -> Option<Loss>
        ensures { TellsOf self.old result self.new }
    {
        if let Some(loss) = self.all.pop() {
            return Some(loss);
        }
        if self.more == 0 {
            return None;
        }
        self.more -= 1;
        Some(Loss {
            route: Route::Unknown,
            cause: Cause::OutOfMemory,
        })
    }
}
