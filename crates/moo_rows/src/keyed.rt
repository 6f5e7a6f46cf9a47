//! Rows of any kind: what is the same for all of them.

ghost use Rattle.std.specs.{Prelude.{◌≡◌, [], ◌∷◌, Some, IfSome, IfNone, OnOk, OnErr, option_map}, declared.cmp.Ordering.{Ordering}};
ghost use Rattle.std.specs.FinMap as map;
ghost use Rattle.std.specs.FinMap.{FinMap};
ghost use Rattle.moo_rows.specs.{Ordered.{IsNext}, Maps.{Maps, wrote}, Walk.{rows_left}};

use crate::ordered::OrderedKey;
use crate::rows::Rows;
use std::alloc::{AllocError, Global};

/// A row that `==` tells from every other, and whose clones equal it.
pub trait Row: PartialEq + Clone + Drop {
    ghost use Rattle.std.specs.Prelude.{◌≡◌, ◌↔◌, IfOk, IsTrue};
    ghost use Rattle.moo_value.specs.Equal.{IsExact};

    /// Whether two rows are equal.
    final fn equals(&self, other: &Self) -> bool
        ensures { IsTrue result ↔ (self.now ≡ other.now) }
    {
        self == other
    }

    /// A row that equals this one. The only error is a lack of memory.
    final fn copy(&self, _alloc: Global) -> Result<Self, AllocError>
        ensures { IfOk result (λ copy. copy ≡ self.now) }
    {
        self.clone()
    }

    ghost exact: { IsExact Self.eq };

    ghost clones: { (row copy : Self) → Self.is_clone row copy → copy ≡ row };
}

/// A kind of row: in which map of a `Rows` its rows are, and how they are found, put and removed there.
pub trait KeyedRow: Row {
    type Key: OrderedKey;

    /// The order of the keys.
    ghost order: { Self.Key → Self.Key → Ordering };

    /// The map of this kind.
    ghost map_of: { Maps → FinMap order Self };

    /// The maps with another map of this kind.
    ghost with_map: { Maps → FinMap order Self → Maps };

    /// The row of a key, or `None` if there is no such row. Takes no memory.
    fn find<R: Rows>(rows: &R, key: Self::Key) -> Option<&Self>
        ensures { option_map (λ row. row.now) result ≡ map.get (map_of (R.held rows.now).maps) key };

    /// The least key past `from`, or the least of all if no `from` is given; `None` if there is no such key. Takes no memory.
    fn next<R: Rows>(rows: &R, from: Option<Self::Key>) -> Option<Self::Key>
        ensures { IsNext (map_of (R.held rows.now).maps) from result };

    /// Sets the row of a key, in place of the one that it has, if any. The only error is a lack of memory.
    fn put<R: Rows>(rows: &mut R, key: Self::Key, row: Self) -> Result<(), AllocError>
        // In the map of this kind the key has the row, and one write more is counted.
        ensures ok { OnOk result (R.held rows.new ≡ wrote (R.held rows.old)
            (with_map (R.held rows.old).maps (map.insert (map_of (R.held rows.old).maps) key row))) }
        // After an error nothing has changed.
        ensures err { OnErr result (R.held rows.new ≡ R.held rows.old) };

    /// Takes the row of a key away; it need not have one. The only error is a lack of memory.
    fn remove<R: Rows>(rows: &mut R, key: Self::Key) -> Result<(), AllocError>
        // In the map of this kind the key has no row, and one write more is counted.
        ensures ok { OnOk result (R.held rows.new ≡ wrote (R.held rows.old)
            (with_map (R.held rows.old).maps (map.remove (map_of (R.held rows.old).maps) key))) }
        // After an error nothing has changed.
        ensures err { OnErr result (R.held rows.new ≡ R.held rows.old) };

    /// The row of the least key past `from`, with the key, or of the least of all if no `from` is given; `None` if there is no such row.
    /// Takes no memory.
    final fn next_row<R: Rows>(rows: &R, from: Option<Self::Key>) -> Option<(Self::Key, &Self)>
        // The rows past `from` begin with the answer, and the other ones are the rows past its key.
        ensures some { IfSome result (λ r. rows_left from (map_of (R.held rows.now).maps)
            ≡ (r.0, r.1.now) ∷ rows_left (Some r.0) (map_of (R.held rows.now).maps)) }
        // If there is no answer, no row is past `from`.
        ensures none { IfNone result (rows_left from (map_of (R.held rows.now).maps) ≡ []) }
    {
        let key = Self::next(rows, from)?;
        Some(key).zip(Self::find(rows, key))
    }

    /// The order is that of the keys.
    ghost ordered: { order ≡ Self.Key.cmp };

    /// To set the map of this kind that the maps have changes nothing.
    ghost own_map: { (maps : Maps) → with_map maps (map_of maps) ≡ maps };

    /// The maps with another map of this kind have that map.
    ghost other_map: { (maps : Maps) (rows : FinMap order Self) → map_of (with_map maps rows) ≡ rows };

    /// Of two maps of this kind that are set one after another the last counts.
    ghost last_map: { (maps : Maps) (one two : FinMap order Self) → with_map (with_map maps one) two ≡ with_map maps two };
}
