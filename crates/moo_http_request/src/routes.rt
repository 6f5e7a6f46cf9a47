//! The routes of the service.

ghost use Rattle.std.specs.Prelude.{◌≡◌, OnOk, codes};
ghost use Rattle.moo_http_request.specs.{declared.asked.Mode.TheVariants.{Run, Ask}, declared.routes.Endpoint.TheVariants.{Batch, Each}};
ghost use Rattle.moo_http_request.specs.{Routes.{service_rows, with_route, with_topics, endpoint_of}, Questions.{all_topics}};

use crate::asked::Mode;
use crate::question::Topic;
use matchit::Router;
use std::alloc::{AllocError, Global};

/// What a path names.
#[derive(Clone, Copy, Drop)]
pub enum Endpoint {
    /// Batches are sent to it.
    Batch(Mode),
    /// Calls are sent to it, each to be asked alone.
    Each,
    /// It answers a question.
    About(Topic),
}

/// The router of the service.
#[derive(Drop)]
pub struct Routes {
    router: Router<Endpoint>,
    ghost known: { ∥ router ≡ service_rows ∥₁ },
}

/// Adds the route of this text. AllocError if memory runs out: the router has no other error for the texts of the service, of which each is
/// a route, and no two clash.
fn add_route(
    router: &mut Router<Endpoint>,
    text: &str,
    endpoint: Endpoint,
) -> Result<(), AllocError>
    ensures { OnOk result (router.new ≡ with_route text.now endpoint router.old) }
{
    router.insert(text, endpoint).map_err(|_| AllocError)
}

/// Adds the route of each topic. AllocError if memory runs out.
fn add_topics(router: &mut Router<Endpoint>) -> Result<(), AllocError>
    ensures { OnOk result (router.new ≡ with_topics all_topics router.old) }
{
    for topic in Topic::all() {
        add_route(router, topic.pattern(), Endpoint::About(*topic))?;
    }
    Ok(())
}

/// Adds the two routes of batches, that of calls alone and that of each topic. AllocError if memory runs out.
fn add_routes(router: &mut Router<Endpoint>) -> Result<(), AllocError>
    ensures { OnOk result (router.new ≡ with_topics all_topics
        (with_route (codes "/each") Each
        (with_route (codes "/ask") (Batch Ask)
        (with_route (codes "/batch") (Batch Run) router.old)))) }
{
    add_route(router, "/batch", Endpoint::Batch(Mode::Run))?;
    add_route(router, "/ask", Endpoint::Batch(Mode::Ask))?;
    add_route(router, "/each", Endpoint::Each)?;
    add_topics(router)
}

impl Routes {
    /// The router of the two routes of batches, of calls alone and of each topic. AllocError if memory runs out.
    pub fn new(alloc: Global) -> Result<Routes, AllocError> {
        let mut router = Router::new(alloc);
        add_routes(&mut router)?;
        Ok(Routes { router })
    }

    /// The endpoint that a path names. None if it has no route.
    pub(crate) fn endpoint_of(&self, path: &str) -> Option<Endpoint>
        ensures { result ≡ endpoint_of path.now }
    {
        Some(*self.router.at(path).ok()?.value)
    }
}
