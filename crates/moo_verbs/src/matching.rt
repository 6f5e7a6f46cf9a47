//! Which words a verb's names match.

ghost use Rattle.std.specs.{Prelude.{◌≡◌, ◌==◌, ◌<◌, length, take, drop, IfSome}, List.{position}};
ghost use Rattle.moo_world.specs.Matching.{same_name, begins_with, matches_around, matches, one_matches};

/// Whether two names are equal but for the case of their ASCII letters.
#[tactic(auto, unfolding(moo_world::specs::Objects::same_text, moo_world::specs::Objects::folded))]
pub(crate) fn same_name(a: &[u8], b: &[u8]) -> bool
    ensures { result ≡ same_name a.now b.now }
{
    a.eq_ignore_ascii_case(b)
}

/// The place, from 0, at which a byte is first in a text; `None` if the text is without it.
pub(crate) fn first_byte(text: &[u8], byte: u8) -> Option<usize>
    ensures place { result ≡ position (λ b. b == byte) text.now }
    ensures within { IfSome result (λ i. i < length text.now) }
{
    text.iter().position(|other| *other == byte)
}

/// The first bytes of a text, as many as `front` has, or all if the text has fewer.
fn front_of<'a>(text: &'a [u8], front: &[u8]) -> &'a [u8]
    ensures { result.now ≡ take (length front.now) text.now }
{
    if text.len() < front.len() {
        text
    } else {
        &text[..front.len()]
    }
}

/// The bytes of a text after as many as `front` has; none if the text has fewer.
fn past_front<'a>(text: &'a [u8], front: &[u8]) -> &'a [u8]
    ensures { result.now ≡ drop (length front.now) text.now }
{
    if text.len() < front.len() {
        &[]
    } else {
        &text[front.len()..]
    }
}

/// Whether a text begins with `front`, in any case.
fn begins_with(text: &[u8], front: &[u8]) -> bool
    ensures { result ≡ begins_with text.now front.now }
{
    same_name(front_of(text, front), front)
}

/// Whether a word matches a name around its star: it begins with `front`, the text before the star, and its rest begins `behind`, the text
/// after the star, or is anything if `behind` is empty.
fn matches_around(front: &[u8], behind: &[u8], word: &[u8]) -> bool
    ensures { result ≡ matches_around front.now behind.now word.now }
{
    if !begins_with(word, front) {
        return false;
    }
    behind.is_empty() || begins_with(behind, past_front(word, front))
}

/// Whether a name of a verb matches a word, in any case. A name without a star matches itself alone. A name with a star matches a word
/// that begins with the text before the first star, and whose rest begins the text after that star, or is anything if that text is empty.
/// So `foo*bar` matches `foo`, `foob`, `fooba` and `foobar`.
///
/// LambdaMOO Programmer's Manual, 'Verbs on Objects' in the chapter on the database.
pub fn matches(name: &[u8], word: &[u8]) -> bool
    ensures { result ≡ matches name.now word.now }
{
    match first_byte(name, b'*') {
        None => same_name(name, word),
        Some(star) => matches_around(&name[..star], &name[star + 1..], word),
    }
}

/// Whether one of the names of a verb, which are between spaces, matches a word, as `matches` says.
pub fn one_matches(names: &[u8], word: &[u8]) -> bool
    ensures { result ≡ one_matches names.now word.now }
{
    names
        .split(|byte| *byte == b' ')
        .filter(|name| !name.is_empty())
        .any(|name| matches(name, word))
}
