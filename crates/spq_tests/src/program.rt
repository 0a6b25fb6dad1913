//! Tests of what the program spq does not show from outside. tests/examples.py, tests/failures.py and tests/messages.py run
//! the program itself: its results, its messages, and what it does if a call of the system fails.
//!
//! - `devices` runs command lines over devices in memory, which count no failures.
//! - `workers` shows that two pieces of a document are read at the same time.
//! - `faults` has a fault, and `lines` the message about a line with a line break in it, which no line of a document has.

mod devices;
mod faults;
mod lines;
mod workers;
