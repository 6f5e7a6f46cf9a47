//! How a call names a verb.

use moo_value::MooStr;

/// What names a verb of an object: its number in the directory, from 1 on, or a word that one of its names matches.
#[derive(Drop)]
pub enum Desc {
    /// -9223372036854775808 to 9223372036854775807, of which 0 and less name no verb.
    Index(i64),
    Name(MooStr),
}
