//! The tables that are read, by name.

ghost use Rattle.std.specs.Prelude.{◌≡◌};
ghost use Rattle.moo_tables_rows.specs.Texts.{select_text};
ghost use Rattle.moo_tables.specs.Listing.{table_in};

use moo_tables_rows::{HEAD, OBJECT, PETITION, PETITION_HEAD, PROP, SLOT, SLOT2, VERB, Version};

/// One of the tables that are read.
#[derive(Clone, Copy)]
pub enum CellTable {
    Head,
    Object,
    Prop,
    /// The slots: the table `slot` or `slot2`, as the version has them.
    Slot,
    Verb,
    Petition,
    PetitionHead,
}

impl CellTable {
    /// The query of its rows, in the order of their keys.
    pub(crate) fn query(self, version: Version) -> &'static str
        ensures { result.now ≡ select_text (table_in version self) }
    {
        match self {
            CellTable::Head => HEAD.read,
            CellTable::Object => OBJECT.read,
            CellTable::Prop => PROP.read,
            CellTable::Slot if version.has_lettered_bits() => SLOT.read,
            CellTable::Slot => SLOT2.read,
            CellTable::Verb => VERB.read,
            CellTable::Petition => PETITION.read,
            CellTable::PetitionHead => PETITION_HEAD.read,
        }
    }
}
