//! How many lines are told in a second.

ghost use Rattle.std.specs.Prelude.{◌≡◌, ◌≢◌, ◌≤◌, ◌<◌, ◌+◌, ◌-◌, ◌^◌, true, false};

/// How many lines one second may have.
pub(crate) const MOST: u32 = 10;

/// How many lines were told in a second, and how many weren't told since the last one that was.
#[derive(Clone, Copy, Drop)]
pub(crate) struct Rate {
    pub(crate) second: u64,
    pub(crate) told: u32,
    pub(crate) untold: u32,
}

impl Rate {
    /// The rate before the first line.
    pub(crate) fn new() -> Rate
        ensures { (result.told ≡ 0) × (result.untold ≡ 0) }
    {
        Rate {
            second: 0,
            told: 0,
            untold: 0,
        }
    }

    /// The rate in this second. In another second than that of the last line none is told yet.
    pub(crate) fn at(self, second: u64) -> Rate
        ensures second { result.second ≡ second }
        ensures same { second ≡ self.second → result.told ≡ self.told }
        ensures other { second ≢ self.second → result.told ≡ 0 }
        ensures untold { result.untold ≡ self.untold }
    {
        Rate {
            second,
            told: if second == self.second { self.told } else { 0 },
            untold: self.untold,
        }
    }

    /// Whether one more line may be told in this second.
    pub(crate) fn has_room(self) -> bool
        ensures yes { result ≡ true → self.told < 10 }
        ensures no { result ≡ false → 10 ≤ self.told }
    {
        self.told < MOST
    }

    /// The rate after one more line is told.
    pub(crate) fn with_told(self) -> Rate
        requires { self.told < 10 }
        ensures { (result.second ≡ self.second) × (result.told ≡ self.told + 1) × (result.untold ≡ 0) }
    {
        Rate {
            second: self.second,
            told: self.told + 1,
            untold: 0,
        }
    }

    /// The rate after a connection that got no line. At most 4,294,967,295 of these are counted.
    pub(crate) fn with_untold(self) -> Rate
        ensures kept { (result.second ≡ self.second) × (result.told ≡ self.told) }
        ensures more { self.untold < 2 ^ 32 - 1 → result.untold ≡ self.untold + 1 }
    {
        Rate {
            second: self.second,
            told: self.told,
            untold: self.untold.saturating_add(1),
        }
    }
}
