//! What is left if an allocation fails, or if a worker thread cannot be started.
//!
//! With ample memory nothing fails here. `tests/refusals.sh` runs each of these tests with the first allocation
//! failing, then with the second, and so on, until a run in which none fails. It does the same with the starts of
//! worker threads. At most one of them fails in a run, so a second try must succeed.
mod dictionary;
mod documents;
mod index;
