//! The states between two characters of a line. Each state occurs, and some well-formed line
//! continues from it.

ghost use Rattle.std.specs.Prelude.{◌≡◌};
ghost use Rattle.line_diagnosis.specs.Rest.{after};

use crate::reason::Next;

/// The position of a term in a statement.
#[derive(Clone, Copy)]
pub enum Part {
    Subject,
    Predicate,
    Object,
    Datatype,
    Graph,
}

/// The part of an IRI's scheme that is read (RFC 3987, section 2.2).
#[derive(Clone, Copy)]
pub enum Scheme {
    /// Its first letter comes next
    Unread,
    /// A part of it, without the colon
    Begun,
    /// All of it, with the colon
    Read,
}

/// The digits of a [12] UCHAR before its last one.
#[derive(Clone, Copy)]
pub struct Digits {
    /// The number that the digits denote so far.
    pub value: u64,
    /// The number of digits that follow the next one.
    pub more: u32,
}

/// A state between two characters of a line.
#[derive(Clone, Copy)]
pub enum State {
    /// Before or between terminals, where this part or blanks may come
    Between(Next),
    /// After a string and optional blanks, where a language tag or a datatype may come as well
    AfterString,
    /// In a comment
    Comment,
    /// In an IRI
    Iri(Part, Scheme),
    /// After a backslash in an IRI
    IriBackslash(Part, Scheme),
    /// In the digits of an escape in an IRI
    IriDigits(Part, Scheme, Digits),
    /// In a string
    String,
    /// After a backslash in a string
    StringBackslash,
    /// In the digits of an escape in a string
    StringDigits(Digits),
    /// After one `^`
    Caret,
    /// After `@`
    At,
    /// In the first part of a language tag
    Tag,
    /// After a hyphen of a language tag
    Hyphen,
    /// In a later part of a language tag
    Subtag,
    /// After `_`
    Underscore(Part),
    /// After `_:`
    LabelStart(Part),
    /// In a label
    Label(Part),
    /// After the first dot that follows a label or is a part of it
    LabelDot(Part),
    /// After further dots
    LabelDots(Part),
}

/// Returns the part that may come after a term at this position.
pub fn after(part: Part) -> Next
    ensures { result ≡ after part }
{
    match part {
        Part::Subject => Next::Predicate,
        Part::Predicate => Next::Object,
        Part::Object | Part::Datatype => Next::Graph,
        Part::Graph => Next::Dot,
    }
}
