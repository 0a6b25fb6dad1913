//! The reason of a malformed line, without what was found in the line. Lines are counted by it.

ghost use Rattle.line_diagnosis.specs.Summary.{DifferInFound};
ghost use Rattle.line_diagnosis.specs.declared.reason.Reason.TheVariants.{Unexpected};

use crate::reason::{Found, Next, Reason, expected, missing_dot, write_char};
use std::fmt;

/// The reason of a malformed line, without what was found in the line.
///
/// Two lines have one summary if their messages differ at most in what was found, as in `found a literal`. The
/// character that an IRI may not have, and the format of a compressed file, are parts of the summary. So there are
/// fewer than a hundred.
#[derive(Clone, Copy, PartialEq, Eq)]
pub struct Summary {
    /// The reason, with one representative for all that may be found.
    pub reason: Reason,
}

/// Returns one of the things that may be found in place of a part, for all with the same words.
fn representative(next: Next, found: Found) -> Found {
    let words = expected(next, found);
    for other in [Found::Char(' '), Found::Iri] {
        if expected(next, other) == words {
            return other;
        }
    }
    Found::LineEnd
}

/// Returns the reason for something in place of a part, one for all with the same words. A missing dot has one reason, with
/// a graph name before it or without.
fn unexpected(next: Next, found: Found) -> Reason
    ensures same { DifferInFound (Unexpected next found) result }
{
    match missing_dot(next, found) {
        Some(_) => Reason::Unexpected(Next::Graph, found),
        None => Reason::Unexpected(next, representative(next, found)),
    }
}

/// Returns words without those that announce what was found.
fn without_found(words: &str) -> &str {
    for end in [", found ", ": found ", ": byte 0x"] {
        if let Some(front) = words.strip_suffix(end) {
            return front;
        }
    }
    words
}

impl Reason {
    /// Returns the reason without what was found in the line.
    pub fn summary(self) -> Summary
        ensures same { DifferInFound self result.reason }
    {
        let any = Found::LineEnd;
        let reason = match self {
            Reason::InvalidUtf8(_) => Reason::InvalidUtf8(0),
            Reason::Unexpected(next, found) => unexpected(next, found),
            Reason::NoScheme(_) => Reason::NoScheme(any),
            Reason::UnknownEscape(_) => Reason::UnknownEscape(any),
            Reason::NoDigit(_) => Reason::NoDigit(any),
            Reason::NoColon(_) => Reason::NoColon(any),
            Reason::LabelStart(_) => Reason::LabelStart(any),
            Reason::NoTag(_) => Reason::NoTag(any),
            Reason::NoSubtag(_) => Reason::NoSubtag(any),
            Reason::OneCaret(_) => Reason::OneCaret(any),
            _ => self,
        };
        Summary { reason }
    }
}

impl fmt::Display for Summary {
    fn fmt<W: fmt::Write>(&self, f: &mut fmt::Formatter<W>) -> fmt::Result {
        let words = without_found(self.reason.words());
        match self.reason {
            Reason::Unexpected(next, found) => f.write_str(missing_dot(next, found).unwrap_or(
                words,
            )),
            Reason::IriChar(c) => {
                write_char(f, c)?;
                f.write_str(words)
            }
            Reason::Packed(packing) => write!(f, "{words}{packing}"),
            _ => f.write_str(words),
        }
    }
}
