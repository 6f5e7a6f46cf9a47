//! Guessing the name of a call that a word may have meant.

use moo_world::CallName;

/// The most bytes that may differ between a word and the name that it meant.
const MOST_CHANGED: usize = 2;

/// How many bytes in front two words have in common, in any case of letters.
fn common_front(left: &[u8], right: &[u8]) -> usize {
    left.iter()
        .zip(right.iter())
        .take_while(|pair| pair.0.eq_ignore_ascii_case(pair.1))
        .count()
}

/// How many bytes at the end two words have in common, in any case of letters.
fn common_back(left: &[u8], right: &[u8]) -> usize {
    left.iter()
        .rev()
        .zip(right.iter().rev())
        .take_while(|pair| pair.0.eq_ignore_ascii_case(pair.1))
        .count()
}

/// How many bytes of the longer of two words aren't common to both, in front or at the end.
fn distance(word: &[u8], name: &[u8]) -> usize {
    let longer = word.len().max(name.len());
    let shorter = word.len().min(name.len());
    let front = common_front(word, name);
    let back = common_back(word, name).min(shorter.saturating_sub(front));
    longer.saturating_sub(front.saturating_add(back))
}

/// The `distance` between a word and a name, if the word may have meant it: at most two bytes, and fewer than half of the word's length.
/// `None` if it is more.
pub(crate) fn near_distance(word: &[u8], name: &[u8]) -> Option<usize> {
    let changed = distance(word, name);
    if changed <= MOST_CHANGED && changed.saturating_mul(2) < word.len() {
        Some(changed)
    } else {
        None
    }
}

/// The name of a call that differs from a word in the fewest bytes; `None` if each differs in more than two.
pub(crate) fn nearest_name(word: &[u8]) -> Option<CallName> {
    let mut nearest = None;
    let mut least = MOST_CHANGED.saturating_add(1);
    for name in CallName::all().iter() {
        let distance = distance(word, name.spelling());
        if distance < least {
            nearest = Some(*name);
            least = distance;
        }
    }
    nearest
}
