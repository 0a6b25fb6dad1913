//! The place in a malformed line of which perhaps only the first bytes are kept.
ghost use Rattle.std.specs.Prelude.{◌≡◌, ℕ, List, true, IfNone, IfSome};
ghost use Rattle.line_diagnosis.specs.Explained.{IsExplained};
ghost use Rattle.line_diagnosis.specs.Place.{IsPlace, IsWellFormed};
ghost use Rattle.malformed_lines.specs.Malformed.{IsKeptOf};

use crate::document_list::MalformedLine;
use line_diagnosis::{Diagnosis, diagnose};

/// The largest number of bytes of a character in UTF-8.
const MOST_OF_A_CHARACTER: usize = 4;

impl MalformedLine {
    /// Returns the diagnosis of the bytes that are kept, if its place is that of the whole line. It is if the line is
    /// whole, or if four kept bytes or more follow the place. Otherwise the place may depend on the other bytes, and the
    /// result is None.
    pub fn diagnosis(&self) -> Option<Diagnosis>
        ensures place { IfSome result
            (λ d. (line : List ℕ) → IsKeptOf line self.now → IsPlace line d.offset) }
        ensures explained { IfSome result (IsExplained self.now.bytes.items) }
        ensures known { IfNone result
            (self.now.is_whole ≡ true → IsWellFormed self.now.bytes.items) }
    {
        let diagnosis = diagnose(&self.bytes)?;
        if !self.is_whole && self.bytes.len() < diagnosis.offset + MOST_OF_A_CHARACTER {
            return None;
        }
        Some(diagnosis)
    }
}
