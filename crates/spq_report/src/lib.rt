//! Writes messages to standard error: why a run failed and where, and notes after a run without a failure.
//!
//! [`report`] writes the message for a failed run: a first line `spq: PLACE: REASON`, for text input the line
//! with a caret, and at most one hint. For a malformed document it writes such a message for each of the first twenty
//! malformed lines, and then a summary of all. It is called after the run has ended. The status is then known, and
//! standard output is written. If an allocation fails, a message is shorter. For a run without a failure, `report`
//! writes only the notes. docs/DIAGNOSTICS.md lists the messages.
//!
//! [`Input`] and [`Output`] are the devices of a run. They keep the first error of the system, whose text the
//! message shows, and call a [`Meter`] as they read and write. [`Console`] is the meter of the program. A thread of
//! its own writes the message about the first malformed line as soon as that is known, and at a terminal the progress
//! of a run that takes more than a second. A run does not wait for standard error.
//!
//! Reading order: `devices`, `account` (what is known about a run), `failures` (a message for each fault), `malformed`
//! (malformed lines), `console` (during a run), `notes` (on a query), `reports`. Tests: tests/messages.py, and tests/examples.py.
//!
//! Not guaranteed: that standard error accepts the message.
#![tactic(auto)]

mod account;
mod console;
mod devices;
mod failures;
mod grouped;
mod malformed;
mod notes;
mod reports;

pub use account::Account;
pub use console::{Console, Terminals};
pub use devices::{Input, Meter, NoMeter, Output};
pub use reports::report;
