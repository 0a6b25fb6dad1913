//! What the tests of several areas share:
//!
//! - [`Recorder`] is a gate that counts the pieces that pass it. At one that is a meeting, two workers have to meet, so it shows
//!   that two threads run at the same time.
//! - [`Numbers`] is a job whose output for piece `i` is `i`, up to a first faulty piece.
//! - [`text`] makes a text of a term.

mod gates;
mod jobs;
mod texts;

pub(crate) use gates::Recorder;
pub(crate) use jobs::Numbers;
pub(crate) use texts::text;
