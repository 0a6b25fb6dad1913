//! Labels, and language tags in lower case, checked from left to right without a copy.

ghost use Rattle.std.specs.Prelude.{◌≡◌, ◌==◌, ◌||◌, ℕ, List, ◌∷◌, true, IfSome};
ghost use Rattle.std.specs.Str.{chars};
ghost use Rattle.rdf_core.specs.Characters.{is_label_char};
ghost use Rattle.nquads_core.specs.Terminal.{is_label, is_label_tail};
ghost use Rattle.nquads_scan.specs.Plain.{tag_left};

use rdf_core::lexical::{first_char, is_label_char, is_label_start};

/// Returns whether a label may have this character after its first one. It may not end with a dot.
fn is_label_part(c: char) -> bool
    ensures { result ≡ (c == 46 || is_label_char c) }
{
    c == '.' || is_label_char(c)
}

/// Returns whether these may be the characters of a label after the first one.
fn is_label_tail(text: &str) -> bool
    ensures { result ≡ true → is_label_tail (chars text.now) ≡ true }
{
    let mut after_dot = false;
    let mut rest = text;
    while let Some((c, after)) = first_char(rest) {
        if !is_label_part(c) {
            return false;
        }
        after_dot = c == '.';
        rest = after;
    }
    !after_dot
}

/// Returns whether this is a blank node label, without `_:` ([141s] `BLANK_NODE_LABEL`).
pub fn is_label(text: &str) -> bool
    ensures { result ≡ true → is_label (chars text.now) ≡ true }
{
    match first_char(text) {
        Some((c, after)) => is_label_start(c) && is_label_tail(after),
        None => false,
    }
}

/// Returns the state of a tag after this byte, or None if a tag in lower case cannot have the byte there. The state is
/// whether no hyphen came yet, and whether a hyphen or the beginning is directly before.
#[inline(always)]
fn after_tag_byte(primary: bool, fresh: bool, b: u8) -> Option<(bool, bool)>
    ensures { IfSome result (λ s. (cs : List ℕ) → tag_left s.0 s.1 cs ≡ true
        → tag_left primary fresh (b ∷ cs) ≡ true) }
{
    if b == b'-' {
        return if fresh { None } else { Some((false, true)) };
    }
    if b.is_ascii_lowercase() || (b.is_ascii_digit() && !primary) {
        Some((primary, false))
    } else {
        None
    }
}

/// Returns whether this is a language tag in lower case, without `@` ([144s] `LANGTAG`).
pub fn is_lower_tag(bytes: &[u8]) -> bool
    ensures { result ≡ true → tag_left true true bytes.now ≡ true }
{
    let mut primary = true;
    let mut fresh = true;
    for b in bytes {
        let Some(state) = after_tag_byte(primary, fresh, *b) else {
            return false;
        };
        primary = state.0;
        fresh = state.1;
    }
    !fresh
}
