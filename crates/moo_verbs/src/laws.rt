//! What the definitions promise.

ghost use Rattle.moo_verbs.specs.Laws.{PhrasesAreRead, StarsMatch, NamesMatch};

/// Each phrase of a set of prepositions is read as that set.
pub fn phrases_hold()
    ensures { PhrasesAreRead }
{}

/// A name with a star matches the words that the manual says, and a name without a star the word that is the name, each in any case.
pub fn matching_holds()
    // A name with a star matches exactly the words that begin with the part before its first star, and whose rest begins the part after
    // it, or is anything if that part is empty; in any case.
    ensures stars { StarsMatch }
    // A name without a star matches exactly the word that is the name, in any case.
    ensures names { NamesMatch }
{}
