//! What threads share: rows, keys, writes and commits may be handed to other threads, and read by several at once.
use crate::{Commit, ElemId, Shared, Stored};

/// A value of a type that may be handed to other threads, and read by several at once.
fn crosses_threads<T: Send + Sync>(_value: &T) {}

/// What threads share is of such types.
pub fn shared_by_threads(commit: &Shared<Commit>, stored: &Stored, element: &ElemId) {
    crosses_threads(commit);
    crosses_threads(stored);
    crosses_threads(element);
}
