//! Recognizing databases of LambdaMOO, which are text, and aren't dumps of this server.

use std::fs::{self, File};
use std::io::Read;

/// How the first line of a LambdaMOO database begins.
const FRONT: &[u8] = b"** LambdaMOO Database, ";

/// What is said of a LambdaMOO database.
pub const WHAT_TO_DO: &str =
    "a LambdaMOO database: tools/from_lambdamoo.py makes a dump of it for `moo load`";

/// Whether a text begins as a LambdaMOO database does.
pub fn is_lambdamoo(text: &[u8]) -> bool {
    text.starts_with(FRONT)
}

/// Whether the file of a path begins as a LambdaMOO database does. False if it can't be read. What isn't a file, as a pipe, isn't opened.
pub fn holds_lambdamoo(rt: &HostRuntime, path: &str) -> bool {
    match fs::metadata(rt, path) {
        Ok(data) if data.is_file() => {}
        _ => return false,
    }
    let Ok(mut file) = File::open(rt, path) else {
        return false;
    };
    let mut front = [0u8; 64];
    match file.read(&mut front) {
        Ok(count) => is_lambdamoo(front.get(..count).unwrap_or(&[])),
        Err(_) => false,
    }
}
