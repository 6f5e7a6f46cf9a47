//! What holds of the rows that tables show.

ghost use Rattle.std.specs.Prelude.{◌≡◌};
ghost use Rattle.moo_rows.specs.Maps.{Maps};
ghost use Rattle.moo_tables_rows.specs.Tables.{Tables};
ghost use Rattle.moo_damage.specs.{Limits.{AreWithin}, declared.kind.Kind.{Kind}, declared.kind.Key.{Key}};
ghost use Rattle.moo_world.specs.Rows.{IsGood};
ghost use Rattle.moo_cells.specs.{Shows.{ShowsRows}, Damage.{IsMet, IsNewer, Damage}};

/// Tables show at most one set of rows within the limits.
pub fn one_set_of_rows()
    ensures { (t : Tables) (m n : Maps) → ShowsRows t m → AreWithin m → ShowsRows t n → AreWithin n → m ≡ n }
{}

/// Tables that show the rows of a world aren't of a newer version, and no kind of damage is met in them.
pub fn shown_without_damage()
    // Such tables aren't of a newer version.
    ensures newer { (t : Tables) (m : Maps) → ShowsRows t m → IsGood m → ¬ (IsNewer t) }
    // No kind of damage is met in them.
    ensures damage { (t : Tables) (m : Maps) → ShowsRows t m → IsGood m → (kind : Kind) (key : Key) → ¬ (IsMet t kind key) }
{}

/// Tables have one damage at most: of one kind, and at one key.
pub fn one_damage()
    ensures { (t : Tables) (kind other : Kind) (key at : Key) → Damage t kind key → Damage t other at → (kind ≡ other) × (key ≡ at) }
{}
