//! What a GET asks: the topics, each with its route, and the questions about them.

ghost use Rattle.std.specs.Prelude.{◌≡◌, drop};
ghost use Rattle.moo_http_request.specs.{Numbers.{number_of}, Questions.{all_topics, pattern as pattern_of, question_of}};

use crate::numbers::number_of;
use moo_value::ObjNo;
use std::fmt::{self, Display, Formatter};

/// What a GET asks about. Each topic has one route.
#[derive(Clone, Copy, Drop)]
pub enum Topic {
    /// The number of accepted batches.
    Seq,
    /// One object.
    Object,
    /// The objects from a number on.
    Objects,
    /// The whole world.
    Dump,
}

/// What a GET asks.
#[derive(Clone, Copy, Drop)]
pub enum Question {
    /// The number of accepted batches.
    Seq,
    /// What an object looks like.
    Object(ObjNo),
    /// The objects from a number on.
    Objects(ObjNo),
    /// All that the world holds.
    Dump,
}

/// Every topic.
const ALL: [Topic; 4] = [Topic::Seq, Topic::Object, Topic::Objects, Topic::Dump];

/// The number that a path has after `start` bytes. None if it has something else there.
fn number_after(path: &[u8], start: usize) -> Option<i32>
    ensures { result ≡ number_of (drop start path.now) }
{
    number_of(path.get(start..)?)
}

impl Topic {
    /// Every topic once.
    pub(crate) fn all() -> &'static [Topic]
        ensures { result.now ≡ all_topics }
    {
        &ALL
    }

    /// The pattern of the paths that name the topic.
    pub(crate) fn pattern(self) -> &'static str
        ensures { result.now ≡ pattern_of self }
    {
        match self {
            Topic::Seq => "/seq",
            Topic::Object => "/object/{n}",
            Topic::Objects => "/objects/{n}",
            Topic::Dump => "/dump",
        }
    }

    /// The question that a path of the topic asks. None if it needs a number, and the path has something else there.
    pub(crate) fn question(self, path: &[u8]) -> Option<Question>
        ensures { result ≡ question_of self path.now }
    {
        match self {
            Topic::Seq => Some(Question::Seq),
            Topic::Object => number_after(path, 8).map(|n| Question::Object(ObjNo(n))),
            Topic::Objects => number_after(path, 9).map(|n| Question::Objects(ObjNo(n))),
            Topic::Dump => Some(Question::Dump),
        }
    }
}

/// The path that asks the question.
impl Display for Question {
    fn fmt<W: fmt::Write>(&self, f: &mut Formatter<W>) -> fmt::Result {
        match self {
            Question::Seq => write!(f, "/seq"),
            Question::Object(number) => write!(f, "/object/{}", number.0),
            Question::Objects(number) => write!(f, "/objects/{}", number.0),
            Question::Dump => write!(f, "/dump"),
        }
    }
}
