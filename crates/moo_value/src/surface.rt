//! The program doesn't come this way. The project's requirements name this call. The program compares names by `same_name`, and folds none.

ghost use Rattle.std.specs.{Prelude.{◌≡◌, IfOk, map}, Char.{to_ascii_lowercase}};

use crate::text::MooStr;
use std::alloc::{AllocError, Global};

/// The name with its ASCII letters in lower case. The only error is a lack of memory.
pub fn fold_name(alloc: Global, name: &MooStr) -> Result<MooStr, AllocError>
    ensures { IfOk result (λ folded. folded ≡ map to_ascii_lowercase name.now) }
{
    let bytes = name.bytes().to_ascii_lowercase(alloc)?;
    Ok(MooStr::from_vec(bytes))
}
