//! Why a head is refused, in sentences for people.

ghost use Rattle.std.specs.Prelude.{◌≡◌, option_map};
ghost use Rattle.moo_http_response.specs.HeadWhys.{method_why, head_why, head_told};

use moo_http_request::{Endpoint, Mode, Refusal, Topic};

/// The sentence that tells which number a path of the topic wants. None if it wants none.
fn number_why(topic: Topic) -> Option<&'static str>
    ensures { option_map (λ why. why.now) result ≡ head_why (Refusal.NoNumber topic) }
{
    match topic {
        Topic::Object => Some("/object wants a number: /object/0"),
        Topic::Objects => Some("/objects wants a number: /objects/0"),
        Topic::Seq => None,
        Topic::Dump => None,
    }
}

/// The sentence that tells the method of the route of a topic.
fn topic_why(topic: Topic) -> &'static str
    ensures { result.now ≡ method_why (Endpoint.About topic) }
{
    match topic {
        Topic::Seq => "/seq is asked by GET",
        Topic::Object => "/object is asked by GET",
        Topic::Objects => "/objects is asked by GET",
        Topic::Dump => "/dump is asked by GET",
    }
}

/// The sentence that tells the method of a route.
fn method_why(endpoint: Endpoint) -> &'static str
    ensures { result.now ≡ method_why endpoint }
{
    match endpoint {
        Endpoint::Batch(Mode::Run) => "/batch is asked by POST",
        Endpoint::Batch(Mode::Ask) => "/ask is asked by POST",
        Endpoint::Each => "/each is asked by POST",
        Endpoint::About(topic) => topic_why(topic),
    }
}

/// The sentence that tells why a head is refused. None if the body is refused and not the head, or if there is no sentence for that
/// refusal.
fn head_why(refusal: Refusal) -> Option<&'static str>
    ensures { option_map (λ why. why.now) result ≡ head_why refusal }
{
    match refusal {
        Refusal::Coded => Some("chunked bodies aren't read: send content-length"),
        Refusal::NoLength => Some("content-length isn't one number"),
        Refusal::NotFound => Some("no route has this path"),
        Refusal::NoNumber(topic) => number_why(topic),
        Refusal::NotAllowed(endpoint) => Some(method_why(endpoint)),
        _ => None,
    }
}

/// The sentence that tells why a head is refused. None if this refusal has no sentence, or the request doesn't ask why.
pub(crate) fn head_told(asks_why: bool, refusal: Refusal) -> Option<&'static str>
    ensures { option_map (λ why. why.now) result ≡ head_told asks_why refusal }
{
    if asks_why { head_why(refusal) } else { None }
}
