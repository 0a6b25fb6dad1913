//! The place of a malformed line, and the reason.

ghost use Rattle.std.specs.Prelude.{◌≡◌, ◌∷◌, ◌<◌, ◌^◌, ℕ, true, false, List, length, IfNone, IfSome, MatchResult, OnSome};
ghost use Rattle.std.specs.Str.{IsUtf8, NonePass, chars};
ghost use Rattle.nquads_core.specs.Grammar.{IsMalformed};
ghost use Rattle.line_diagnosis.specs.Place.{IsWellFormed};
ghost use Rattle.line_diagnosis.specs.Column.{column_of};
ghost use Rattle.line_diagnosis.specs.Explained.{IsExplained};
ghost use Rattle.line_diagnosis.specs.Front.{IsEndReason, IsFirstReason, IsLongestText, IsTextEnd, IsWalk};
ghost use Rattle.line_diagnosis.specs.Reasons.{IsReason};
ghost use Rattle.line_diagnosis.specs.Rest.{Accepts, IsStep, Steps};
ghost use Rattle.line_diagnosis.specs.Says.{Explains, Says};
ghost use Rattle.line_diagnosis.specs.StateAfter.{is_line_break};
ghost use Rattle.line_diagnosis.specs.declared.diagnosis.Counted.TheVariants.{Bytes, Characters};

use crate::between::{step_after_string, step_between};
use crate::iris::{step_backslash, step_escape, step_iri};
use crate::labels::{step_label, step_label_dot, step_label_dots};
use crate::likeness::{begins_with_mark, is_utf16, packing_of};
use crate::literals::{step_string, step_string_backslash, step_string_escape};
use crate::reason::{Found, Next, Reason};
use crate::state::{Part, Scheme, State, after};
use crate::tags::{step_subtag, step_tag};
use excerpt::count_of;
use rdf_core::lexical::{first_char, is_iri_char, is_label_start, is_string_char};

/// The unit of a column.
#[derive(Clone, Copy)]
pub enum Counted {
    /// The unit if the line is UTF-8
    Characters,
    /// The unit if the line is not UTF-8
    Bytes,
}

/// The place at which a line is malformed, and the reason.
#[derive(Clone, Copy)]
pub struct Diagnosis {
    /// The number of bytes of the line before the place. At the end of the line it is the length of
    /// the line; then a well-formed line begins with the whole line.
    pub offset: usize,
    /// The column of the place, from 1.
    pub column: usize,
    /// The unit of the column.
    pub counted: Counted,
    /// The reason why the character at the place is not allowed, or what the bytes are instead.
    pub reason: Reason,
}

/// The part of a text that is read.
#[derive(Clone, Copy)]
struct Walk {
    /// The number of bytes before the first character that is not allowed at its place, or the
    /// length of the text if there is none.
    offset: usize,
    /// The state before that character.
    state: State,
    /// The reason why that character is not allowed.
    reason: Option<Reason>,
}

/// Returns the state after a character, if the character is allowed.
fn expect(is_allowed: bool, state: State, reason: Reason) -> Result<State, Reason>
    ensures allowed { MatchResult result (λ new. (is_allowed ≡ true) × (new ≡ state))
        (λ error. is_allowed ≡ false) }
    ensures says { MatchResult result (λ new. Unit {0}) (λ error. error ≡ reason) }
{
    if is_allowed { Ok(state) } else { Err(reason) }
}

/// Reads a character other than LF and CR (RDF 1.1 N-Quads, section 4).
///
/// # Errors
/// The reason why no well-formed line continues with this character in this state.
fn step_plain(state: State, c: char) -> Result<State, Reason>
    ensures steps { Steps (Accepts state) c result }
    ensures says { Explains state c result }
{
    let found = Found::Char(c);
    match state {
        State::Between(next) => step_between(next, c),
        State::AfterString => step_after_string(c),
        State::Comment => Ok(state),
        State::Iri(part, scheme) => step_iri(part, scheme, c),
        State::IriBackslash(part, scheme) => step_backslash(part, scheme, c),
        State::IriDigits(part, scheme, digits) => step_escape(part, scheme, digits, c),
        State::String => step_string(c),
        State::StringBackslash => step_string_backslash(c),
        State::StringDigits(digits) => step_string_escape(digits, c),
        State::Caret => expect(
            c == '^',
            State::Between(Next::Datatype),
            Reason::OneCaret(found),
        ),
        State::At => expect(c.is_ascii_alphabetic(), State::Tag, Reason::NoTag(found)),
        State::Tag => step_tag(c),
        State::Subtag => step_subtag(c),
        State::Hyphen => expect(
            c.is_ascii_alphanumeric(),
            State::Subtag,
            Reason::NoSubtag(found),
        ),
        State::Underscore(part) => expect(
            c == ':',
            State::LabelStart(part),
            Reason::NoColon(found),
        ),
        State::LabelStart(part) => expect(
            is_label_start(c),
            State::Label(part),
            Reason::LabelStart(found),
        ),
        State::Label(part) => step_label(part, c),
        State::LabelDot(part) => step_label_dot(part, c),
        State::LabelDots(part) => step_label_dots(part, c),
    }
}

/// Reads a character.
///
/// # Errors
/// The reason why no well-formed line continues with this character in this state.
fn step(state: State, c: char) -> Result<State, Reason>
    ensures steps { MatchResult result
        (λ new. (is_line_break c ≡ false) × IsStep (Accepts state) c new)
        (λ reason. (cs : List ℕ) → NonePass is_line_break (c ∷ cs) → Accepts state (c ∷ cs) → ⊥) }
    ensures says { Explains state c result }
{
    if c == '\n' || c == '\r' {
        return Err(Reason::LineBreak);
    }
    step_plain(state, c)
}

/// Returns the reason why a line may not end in a state, or None if it may.
fn reason_at_end(state: State) -> Option<Reason>
    ensures { IsEndReason state result }
{
    let reason = match state {
        State::Between(Next::Subject | Next::End) | State::Comment => return None,
        State::Between(next) => Reason::Unexpected(next, Found::LineEnd),
        State::AfterString | State::Tag | State::Subtag => {
            Reason::Unexpected(Next::Graph, Found::LineEnd)
        }
        State::Iri(_, _) | State::IriBackslash(_, _) | State::IriDigits(_, _, _) => Reason::OpenIri,
        State::String | State::StringBackslash | State::StringDigits(_) => Reason::OpenLiteral,
        State::Caret => Reason::OneCaret(Found::LineEnd),
        State::At => Reason::NoTag(Found::LineEnd),
        State::Hyphen => Reason::NoSubtag(Found::LineEnd),
        State::Underscore(_) => Reason::NoColon(Found::LineEnd),
        State::LabelStart(_) => Reason::LabelStart(Found::LineEnd),
        State::Label(part) => Reason::Unexpected(after(part), Found::LineEnd),
        State::LabelDot(Part::Object | Part::Datatype | Part::Graph) => return None,
        State::LabelDot(_) | State::LabelDots(_) => Reason::LabelDot,
    };
    Some(reason)
}

/// Returns whether a character is seen to leave the reader in its state, as most characters of IRIs and strings do.
///
/// `false` says nothing.
#[inline(always)]
fn stays(state: State, c: char) -> bool
    ensures { result ≡ true → (is_line_break c ≡ false) × IsStep (Accepts state) c state }
{
    match state {
        State::Iri(_, scheme) => match scheme {
            Scheme::Read => is_iri_char(c),
            Scheme::Unread | Scheme::Begun => false,
        },
        State::String => is_string_char(c),
        _ => false,
    }
}

/// Reads a text up to the first character that is not allowed at its place.
fn read_front(text: &str) -> Walk
    ensures { IsWalk text.now result }
{
    let mut state = State::Between(Next::Subject);
    let mut rest = text;
    while let Some((c, after)) = first_char(rest) {
        if stays(state, c) {
            rest = after;
            continue;
        }
        match step(state, c) {
            Ok(next) => {
                state = next;
                rest = after;
            }
            Err(reason) => {
                return Walk {
                    offset: text.len() - rest.len(),
                    state,
                    reason: Some(reason),
                };
            }
        }
    }
    Walk {
        offset: text.len(),
        state,
        reason: None,
    }
}

/// Returns the longest valid UTF-8 text that the bytes begin with, and the reason why the bytes
/// after it are not a character.
fn text_of(line: &[u8]) -> (&str, Option<Reason>)
    ensures longest { IsLongestText line.now result.0.now }
    ensures broken { IsTextEnd line.now result.0.now result.1 }
{
    match str::from_utf8(line) {
        Ok(text) => (text, None),
        Err(error) => {
            let end = error.valid_up_to();
            let reason = match error.error_len() {
                Some(_) => Reason::InvalidUtf8(line[end]),
                None => Reason::CutCharacter,
            };
            match str::from_utf8(&line[..end]) {
                Ok(text) => (text, Some(reason)),
                Err(_) => ("", Some(reason)),
            }
        }
    }
}

/// Returns the reason at the end of a walk over the text of a line, given the reason why the bytes after the text are not
/// a character. Returns None if the line is well-formed.
fn reason_of(walk: Walk, broken: Option<Reason>) -> Option<Reason>
    ensures { IsFirstReason walk broken result }
{
    match walk.reason {
        Some(reason) => Some(reason),
        None => match broken {
            Some(reason) => Some(reason),
            None => reason_at_end(walk.state),
        },
    }
}

/// Returns a reason from the bytes of the whole line if they say more than the character at the
/// place.
fn refined(line: &[u8], offset: usize, reason: Reason) -> Reason
    ensures { IsReason line.now offset reason → IsReason line.now offset result }
{
    if offset == 0 {
        if let Some(packing) = packing_of(line) {
            return Reason::Packed(packing);
        }
        if begins_with_mark(line) {
            return Reason::ByteOrderMark;
        }
    }
    if offset <= 1 && is_utf16(line) {
        return Reason::Utf16;
    }
    reason
}

/// Returns the number of characters of bytes that are UTF-8.
pub(crate) fn count_of_bytes(front: &[u8]) -> usize
    requires utf8 { IsUtf8 front.now }
    ensures value { result ≡ length (chars front.now) }
    ensures small { result < 2 ^ 63 }
{
    match str::from_utf8(front) {
        Ok(text) => count_of(text),
        Err(_) => 0,
    }
}

/// Returns the column after a beginning of the line, and its unit.
fn column_of(line: &[u8], front: &[u8]) -> (usize, Counted)
    requires small { length front.now < 2 ^ 63 }
    requires utf8 { IsUtf8 front.now }
    ensures column { result.0 ≡ column_of result.1 front.now }
    ensures characters { (result.1 ≡ Characters) → IsUtf8 line.now }
    ensures bytes { (result.1 ≡ Bytes) → IsUtf8 line.now → ⊥ }
{
    match str::from_utf8(line) {
        Ok(_) => (count_of_bytes(front) + 1, Counted::Characters),
        Err(_) => (front.len() + 1, Counted::Bytes),
    }
}

/// Returns the diagnosis of a line for the place after a beginning of it.
fn placed(line: &[u8], front: &[u8], reason: Reason) -> Diagnosis
    requires small { length front.now < 2 ^ 63 }
    requires utf8 { IsUtf8 front.now }
    ensures reason { result.reason ≡ reason }
    ensures offset { result.offset ≡ length front.now }
    ensures column { result.column ≡ column_of result.counted front.now }
    ensures characters { (result.counted ≡ Characters) → IsUtf8 line.now }
    ensures bytes { (result.counted ≡ Bytes) → IsUtf8 line.now → ⊥ }
{
    let (column, counted) = column_of(line, front);
    Diagnosis {
        offset: front.len(),
        column,
        counted,
        reason,
    }
}

/// Returns the place and the reason of a malformed line, given without its line end. Returns None
/// for a well-formed one (RDF 1.1 N-Quads, section 4).
///
/// Some well-formed line begins with the bytes before the place, and none with the character at the
/// place as well.
pub fn diagnose(line: &[u8]) -> Option<Diagnosis>
    ensures well_formed { IfNone result (IsWellFormed line.now) }
    ensures bad { OnSome result (IsMalformed line.now) }
    ensures explained { IfSome result (IsExplained line.now) }
{
    let (text, broken) = text_of(line);
    let walk = read_front(text);
    let first = reason_of(walk, broken)?;
    let reason = refined(line, walk.offset, first);
    Some(placed(line, &line[..walk.offset], reason))
}
