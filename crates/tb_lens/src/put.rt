//! The call that writes a text.

use crate::status::{Status, Trouble};
use tb_edge::{Failed, Sink};

/// Writes a text, and returns the status if that succeeds.
pub(crate) fn put<O: Sink>(text: &[u8], status: Status, out: &mut O) -> Result<Status, Trouble> {
    match out.put(text) {
        Ok(()) => Ok(status),
        Err(Failed) => Err(Trouble::Out),
    }
}
