//! The versions of the tables, and what each has.

ghost use Rattle.std.specs.Prelude.{◌≡◌, ◌↔◌, IsTrue};
ghost use Rattle.moo_tables_rows.specs.Version.{version_number, present, has_petitions, has_lettered_bits};

/// Which tables a database has.
///
/// The first version has the five tables `head`, `object`, `prop`, `slot` and `verb`. The second has three more: `slot2`,
/// which replaces `slot`, and `petition` and `petition_head`.
#[derive(Clone, Copy, PartialEq, Eq)]
pub enum Version {
    First,
    Second,
}

impl Version {
    /// The last version, which alone is written.
    pub const PRESENT: Version = Version::Second;

    /// The number that the row of `head` has in its column `version`.
    pub fn number(self) -> i64
        ensures { result ≡ version_number self }
    {
        match self {
            Version::First => 1,
            Version::Second => 2,
        }
    }

    /// Whether it is the present version, the one that is written (`IsCurrent` of tables in contracts). Tables of an earlier one are
    /// migrated when they are opened.
    pub fn is_present(self) -> bool
        ensures { IsTrue result ↔ self ≡ present }
    {
        self == Version::PRESENT
    }

    /// Whether the version has petitions, and the tables `petition` and `petition_head`.
    pub fn has_petitions(self) -> bool
        ensures { result ≡ has_petitions self }
    {
        match self {
            Version::First => false,
            Version::Second => true,
        }
    }

    /// Whether the slots are in the table `slot`, with letters for the rights on a property. Else they are in `slot2`, with a number for
    /// the rights.
    pub fn has_lettered_bits(self) -> bool
        ensures { result ≡ has_lettered_bits self }
    {
        match self {
            Version::First => true,
            Version::Second => false,
        }
    }
}
