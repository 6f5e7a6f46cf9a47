//! What holds of what is received.

ghost use Rattle.std.specs.Prelude.{◌≡◌, ℕ, List, [], Some, None, codes, map};
ghost use Rattle.moo_http_request.specs.{Request.{Receives}, Routes.{endpoint_of}, declared.request.Received.{Received}};
ghost use Rattle.moo_http_request.specs.declared.routes.Endpoint.TheVariants.{Batch, Each, About};
ghost use Rattle.moo_http_request.specs.{declared.asked.Mode.TheVariants.{Run, Ask}, declared.question.Topic.TheVariants.{Seq, Object}};
ghost use Rattle.moo_http_request.specs.Questions.{all_topics, sample_path};

/// The bytes of a connection ask one thing: they can't be received in two ways.
pub fn received_once()
    ensures { (input : List ℕ) (r q : Received) → Receives input r → Receives input q → r ≡ q }
{}

/// The route that a path names, computed for a path of each route, and for paths that have none.
pub fn routes_are_known()
    // These paths have a route.
    ensures batch { endpoint_of (codes "/batch") ≡ Some (Batch Run) }
    ensures ask { endpoint_of (codes "/ask") ≡ Some (Batch Ask) }
    ensures each { endpoint_of (codes "/each") ≡ Some Each }
    ensures seq { endpoint_of (codes "/seq") ≡ Some (About Seq) }
    ensures object { endpoint_of (codes "/object/12") ≡ Some (About Object) }
    // A path of each topic names that topic.
    ensures topics { map (λ topic. endpoint_of (sample_path topic)) all_topics ≡ map (λ topic. Some (About topic)) all_topics }
    // These paths have none.
    ensures deeper { endpoint_of (codes "/object/1/2") ≡ None }
    ensures bare { endpoint_of (codes "/object/") ≡ None }
    ensures unknown { endpoint_of (codes "/nothing") ≡ None }
    ensures root { endpoint_of (codes "/") ≡ None }
    ensures empty { endpoint_of [] ≡ None }
{}
