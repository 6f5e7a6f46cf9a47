//! The first bytes of a database file, as SQLite's file format has them.

use std::fs::{self, File};
use std::io::Read;

/// The text that a database begins with.
const MAGIC: &[u8] = b"SQLite format 3\0";

/// What the first bytes of a database file say.
#[derive(Drop)]
pub(crate) struct FileFront {
    /// In bytes, from 512 to 65,536.
    pub(crate) page_size: u32,
    /// Whether pages that become free are given up, so that some pages map others.
    pub(crate) has_auto_vacuum: bool,
}

impl FileFront {
    /// What the first 56 bytes of a database file say: the size of a page in bytes 16 and 17, where 1 is 65,536, and the greatest root page
    /// in bytes 52 to 55, which is 0 without auto_vacuum.
    fn new(bytes: &[u8; 56]) -> FileFront {
        let size = u32::from(bytes[16]) * 256 + u32::from(bytes[17]);
        FileFront {
            page_size: if size == 1 { 65_536 } else { size },
            has_auto_vacuum: bytes[52] | bytes[53] | bytes[54] | bytes[55] != 0,
        }
    }
}

/// Reads what the first bytes of the file of a path say. None if it can't be read, or isn't a database. Nothing is read of what isn't a
/// file, as a pipe.
pub(crate) fn read_front(rt: &HostRuntime, path: &str) -> Option<FileFront> {
    if !fs::metadata(rt, path).is_ok_and(|data| data.is_file()) {
        return None;
    }
    let mut file = File::open(rt, path).ok()?;
    let mut bytes = [0u8; 56];
    file.read_exact(&mut bytes).ok()?;
    if bytes.starts_with(MAGIC) {
        Some(FileFront::new(&bytes))
    } else {
        None
    }
}

/// Whether there is a rollback journal with any bytes beside the file of a path.
pub(crate) fn has_journal(rt: &HostRuntime, path: &str) -> bool {
    match format!(in rt.alloc(); "{path}-journal") {
        Ok(journal) => fs::metadata(rt, journal.as_str()).is_ok_and(|data| data.len() > 0),
        Err(_) => false,
    }
}
