//! A refusal, and what is wrong with the body.

ghost use Rattle.std.specs.Prelude.{◌≡◌};

use crate::asked::Refusal;
use crate::wrong::BodyFault;
use std::marker::Model;

/// A refusal; of a body that is whole it carries what is wrong with that, of which contracts say nothing.
#[derive(Drop)]
pub struct Refused {
    refusal: Refusal,
    /// What is wrong with the body, if that is known.
    wrong: Option<BodyFault>,
}

impl Model for Refused {
    ghost use Rattle.moo_http_request.specs.declared.asked.Refusal.{Refusal};

    ghost Value = { Refusal };

    ghost view = { λ a. a.refusal };
}

impl Refused {
    /// A refusal for this reason, with what is wrong with the body, if that is known.
    pub(crate) fn new(refusal: Refusal, wrong: Option<BodyFault>) -> Refused
        ensures { result ≡ refusal }
    {
        Refused { refusal, wrong }
    }

    /// Why the request is refused.
    pub fn refusal(&self) -> Refusal
        ensures { result ≡ self.now }
    {
        self.refusal
    }

    /// What is wrong with a body that is whole. None if the head is refused, the body is cut off, or that isn't known.
    pub fn wrong(&self) -> Option<&BodyFault> {
        self.wrong.as_ref()
    }
}
