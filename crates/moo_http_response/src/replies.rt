//! What calls are answered, each alone.

ghost use Rattle.std.specs.Prelude.{◌≡◌};

use moo_text::Reply;
use std::marker::Model;

/// The reply to a batch of each call alone, in the order of the calls; None if the text isn't a call.
#[derive(Drop)]
pub struct Replies {
    items: Vec<Option<Reply>>,
}

impl Model for Replies {
    ghost use Rattle.std.specs.Prelude.{List, Option};
    ghost use Rattle.moo_text.specs.declared.reply.Reply.{Reply};
    ghost use Rattle.moo_text.specs.contracts.reply.Reply as reply;
    ghost use Rattle.std.specs.Coded.{coded_list, coded_option};

    ghost Value = { List (Option Reply) };

    ghost coded = { coded_list (coded_option reply.the_row.coded) };

    ghost view = { λ a. a.items.items };
}

impl Replies {
    /// The replies to calls alone, in the order of the calls.
    pub fn from_vec(items: Vec<Option<Reply>>) -> Replies
        ensures { result ≡ items.items }
    {
        Replies { items }
    }

    /// The replies, in the order of the calls.
    pub fn items(&self) -> &[Option<Reply>]
        ensures { result.now ≡ self.now }
    {
        self.items.as_slice()
    }
}
