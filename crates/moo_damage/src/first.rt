//! The first row of a kind that a test finds.

ghost use Rattle.std.specs.{Prelude.{◌≡◌, Bool, true, false}, List.{list_any}, FinMap.{entries}};
ghost use Rattle.moo_damage.specs.First.{IsLeastBad, MaySay, SaysOfRow};

use moo_rows::{KeyedRow, Rows};

/// The least key of a kind of row that a test finds bad; `None` if it finds none. Takes no memory of its own.
pub(crate) fn first_bad<T: KeyedRow, R: Rows, F: Fn(T::Key, &T) -> bool>(
    rows: &R,
    is_bad: F,
) -> Option<T::Key>
    // The test may be called at any time.
    requires { F.IsAlwaysCallable is_bad }
    // The test says `true` of the row of that key, and `false` of each row before it; if `None`, it says `false` of each row.
    ensures { IsLeastBad (T.map_of (R.held rows.now).maps) (MaySay F.Fn is_bad false) (MaySay F.Fn is_bad true) result }
{
    let mut last = None;
    while let Some(next) = T::next_row(rows, last) {
        if is_bad(next.0, next.1) {
            return Some(next.0);
        }
        last = Some(next.0);
    }
    None
}

/// Whether a test finds any row of a kind bad.
pub(crate) fn any_bad<T: KeyedRow, R: Rows, F: Fn(T::Key, &T) -> bool>(rows: &R, is_bad: F) -> bool
    // The test may be called at any time.
    requires { F.IsAlwaysCallable is_bad }
    // If what the test says is a function of key and row, the answer is whether that function is true of any row.
    ensures { (test : T.Key → T → Bool) → SaysOfRow F.Fn is_bad (λ b k r. test k r ≡ b) →
        result ≡ list_any (λ e. test e.0 e.1) (entries (T.map_of (R.held rows.now).maps)) }
{
    first_bad::<T, R, F>(rows, is_bad).is_some()
}
