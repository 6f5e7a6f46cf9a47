//! The answers of a batch.

ghost use Rattle.std.specs.Prelude.{◌≡◌};

use moo_value::Value;
use std::marker::Model;

/// What the calls of an accepted batch answered, in order.
#[derive(Drop)]
pub struct Answers {
    items: Vec<Value>,
}

impl Model for Answers {
    ghost use Rattle.std.specs.Prelude.{List};
    ghost use Rattle.moo_value.specs.declared.value.Value.{Value as Element};
    ghost use Rattle.moo_value.specs.contracts.value.Value as element;
    ghost use Rattle.std.specs.Coded.{coded_list};

    ghost Value = { List Element };

    ghost coded = { coded_list element.the_row.coded };

    ghost view = { λ a. a.items.items };
}

impl Answers {
    /// The answers, given in the order of the calls. Takes no memory.
    pub fn from_vec(items: Vec<Value>) -> Answers
        ensures { result ≡ items.items }
    {
        Answers { items }
    }

    /// The values, in the order of the calls.
    pub fn items(&self) -> &[Value]
        ensures { result.now ≡ self.now }
    {
        self.items.as_slice()
    }
}
