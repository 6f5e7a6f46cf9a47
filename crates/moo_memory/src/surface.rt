//! The program doesn't come this way. It gives each draft its ticks by `Draft::within`. `test_rows` makes drafts without a bound.

ghost use Rattle.std.specs.Prelude.{◌≡◌};

use crate::draft::Draft;
use crate::ticks::ENDLESS;
use moo_rows::Rows;
use std::alloc::Global;

impl<'a, R: Rows> Draft<'a, R> {
    /// A draft without changes, whose rows may be looked up, put and removed without a bound.
    pub fn new(alloc: Global, base: &'a R) -> Draft<'a, R>
        // The head and the rows of the draft are those of the base.
        ensures maps { result.maps ≡ (R.held base.now).maps }
        // It is over the rows of the base.
        ensures base { result.base.maps ≡ (R.held base.now).maps }
        // No row was put or removed yet.
        ensures writes { result.writes ≡ 0 }
    {
        Draft::within(alloc, base, ENDLESS)
    }
}
