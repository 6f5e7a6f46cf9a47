//! Why what was asked is refused, in sentences for people.

ghost use Rattle.std.specs.Prelude.{◌≡◌, drop, option_map};
ghost use Rattle.moo_http_response.specs.Whys.{whys_shown, first_why};

/// The sentence that is told in this place. None if none is told there, or the list is shorter.
pub(crate) fn why_of(whys: &[Option<String>], place: usize) -> Option<&str>
    ensures { option_map (λ w. w.now) result ≡ first_why (drop place (whys_shown whys.entry.now)) }
{
    match whys.get(place) {
        Some(why) => why.as_deref(),
        None => None,
    }
}
