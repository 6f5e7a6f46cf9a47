//! What the definition of changes promises.

ghost use Rattle.moo_memory.specs.Laws.{ChangesAreUnique, ChangesGiveTheRows, UndoneIsNoChange};

/// Two sets of rows determine the changes from one to the other, and one set and the changes determine the other. A row that is as it was
/// isn't among the changes.
pub fn changes_are_exact()
    // From some rows to others there are no two sets of changes.
    ensures unique { ChangesAreUnique }
    // From some rows the same changes lead to no two sets of rows.
    ensures rows { ChangesGiveTheRows }
    // If only the head differs, no row is in the changes.
    ensures undone { UndoneIsNoChange }
{}
