//! Leave to look up more rows.

use crate::rows::Rows;
use std::alloc::AllocError;

/// `Ok` if more rows may be looked up, as `Rows::may_go_on` answers, and else an `Err`. Whoever goes over many rows asks between two of
/// them. Takes no memory.
pub fn go_on<R: Rows>(rows: &R) -> Result<(), AllocError> {
    if rows.may_go_on() {
        Ok(())
    } else {
        Err(AllocError)
    }
}
