//! What holds of batch texts as wholes.

ghost use Rattle.std.specs.{Prelude.{◌≡◌, ◌≢◌, ◌↔◌, ◌++◌, ◌∷◌, [], ℕ, true, List, Option, Some}, Str.Lines.{lines}};
ghost use Rattle.moo_value.specs.{declared.value.ObjNo.{ObjNo}, Literal.{SpellsObject, InRange, an_object}};
ghost use Rattle.moo_world.specs.declared.call.Call.{Call};
ghost use Rattle.moo_text.specs.{Grammar.{SpellsHeader, SpellsCall}, LineReading.{header_of, object_of, call_of}, Items.{items}};
ghost use Rattle.moo_text.specs.{Cut.{Cuts}, Side.{Side, untouched}};
ghost use Rattle.moo_text.specs.Given.{ReaderGives, BreaksOff, ReadsNext, ReadsItems, ReadsAll, StopsBehind, GivesAll};
ghost use Rattle.moo_text.specs.{declared.fault.TextFault.{TextFault}, declared.header.Header.{Header}, declared.next.Next.{Next}};
ghost use Rattle.moo_text.specs.declared.next.Next.TheVariants.{End};

/// A line is read as the header that it spells, and as no other.
pub fn headers_are_spelled()
    ensures { (line : List ℕ) (header : Header) → (header_of line ≡ Some header) ↔ SpellsHeader header line }
{}

/// A word is read as the object that it spells, and as no other.
pub fn objects_are_spelled()
    ensures { (word : List ℕ) (object : ObjNo) → (object_of word ≡ Some object)
        ↔ (SpellsObject object.0 word × InRange an_object object.0) }
{}

/// A line is read as the call that it spells, and as no other.
pub fn calls_are_spelled()
    ensures { (line : List ℕ) (call : Call) → (call_of line ≡ Some call) ↔ SpellsCall call line }
{}

/// Every text is cut into its items, and into no others.
pub fn one_cut()
    // The lines of a text are cut into the items that are read from it.
    ensures cut { (text : List ℕ) → Cuts (lines text) (items text) }
    // The lines are cut into no other items.
    ensures only { (text : List ℕ) (others : List Next) → Cuts (lines text) others → items text ≡ others }
{}

/// The items that are read one after another are those of all bytes that the reader gave meanwhile; if it tells its bytes, it gave all of
/// them once it has ended. After a fault the items that were read stay the first ones.
///
/// A `Side` says how far a text was read: the bytes that its reader will still give, if it tells them (`left`), how many may still be
/// read (`room`), whether the reader has ended, and the bytes that it gave and that aren't used yet. `untouched`: nothing is read yet.
pub fn items_are_joined()
    // If nothing is read, no item is.
    ensures none { (a : Side) → ReadsItems a a [] }
    // One more item that is read, but the end, comes after the items that were read before.
    ensures more { (a b c : Side) (done : List Next) (item : Next) → ReadsItems a b done → ReadsNext b c item → item ≢ End →
        ReadsItems a c (done ++ item ∷ []) }
    // If the end is read next, the items that were read are all.
    ensures end { (a b c : Side) (done : List Next) → ReadsItems a b done → ReadsNext b c End → ReadsAll a c done }
    // At a fault the items that were read come first in the text, with any bytes that may follow.
    ensures stop { (left : Option (List ℕ)) (room : ℕ) (b c : Side) (done : List Next) (fault : TextFault) →
        ReadsItems (untouched left room) b done → BreaksOff b c fault → StopsBehind left room c done fault }
    // All items that are read from the start of a text are those of the bytes that the reader gave.
    ensures whole { (left : Option (List ℕ)) (room : ℕ) (c : Side) (all : List Next) (read : ReadsAll (untouched left room) c all) →
        items read.given ≡ all }
    // If the reader tells its bytes, it has given all of them once it has ended.
    ensures all { (left : Option (List ℕ)) (room : ℕ) (c : Side) (given : List ℕ) →
        ReaderGives (untouched left room) c given → c.ended ≡ true → GivesAll left given }
{}
