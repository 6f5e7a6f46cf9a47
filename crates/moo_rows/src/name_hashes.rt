//! Hashes of names, by which properties are looked up.

ghost use Rattle.std.specs.Prelude.{◌≡◌};
ghost use Rattle.moo_rows.specs.Named.{name_hash};

use std::hash::{DefaultHasher, Hasher};

/// The hash of a name: SipHash-1-3 of it in lower case. Names that are equal but for ASCII case have one hash; other names may have it
/// too. Takes no memory.
pub fn name_hash(name: &[u8]) -> u64
    ensures { result ≡ name_hash name.now }
{
    let mut state = DefaultHasher::new();
    for byte in name {
        state.write_u8(byte.to_ascii_lowercase());
    }
    state.finish()
}
