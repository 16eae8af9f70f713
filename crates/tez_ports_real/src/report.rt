//! What the user is told of a failure.

use std::io;

/// Writes one line to standard error: what failed, by its path, and the system's reason. Where that
/// cannot be written, nothing is told.
pub(crate) fn report<R: Eprint>(rt: &R, path: &str, error: &io::Error) {
    let _ = eprintln!(rt; "tez: {path}: {error}");
}
