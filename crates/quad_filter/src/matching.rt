//! The statements that a filter wants, by their slices.
ghost use Rattle.std.specs.Prelude.{◌≡◌, true, option_copied};
ghost use Rattle.std.specs.List.{list_any};
ghost use Rattle.std.specs.Str.{bytes_eq};
ghost use Rattle.rdf_core.specs.QuadParts.{QuadParts};
ghost use Rattle.quad_filter.specs.Filter.{keeps};
ghost use Rattle.quad_filter.specs.Slices.{HasSlices, has_texts, is_wanted_label, is_wanted_text, wants};

use crate::filter::{QuadFilter, Shape, Wanted, WantedGraph};
use nquads_core::RawStatement;

/// Returns whether two texts have the same last byte, or are both empty.
#[inline(always)]
fn ends_alike(text: &[u8], other: &[u8]) -> bool
    ensures same { bytes_eq text.now other.now ≡ true → result ≡ true }
{
    match text {
        [.., last] => match other {
            [.., other_last] => *last == *other_last,
            [] => false,
        },
        [] => other.is_empty(),
    }
}

/// Returns whether two texts are equal.
///
/// Many IRIs of a document begin alike. So the lengths and the bytes before the closing bracket are compared first.
#[inline(always)]
fn is_same(text: &[u8], other: &[u8]) -> bool
    ensures value { result ≡ bytes_eq text.now other.now }
{
    text.len() == other.len() && ends_alike(text, other) && text == other
}

/// Returns whether the text is one of these.
fn is_among(forms: &[Vec<u8>], text: &[u8]) -> bool
    ensures value { result ≡ list_any (λ form. bytes_eq text.now form.items) forms.now }
{
    for form in forms {
        if is_same(text, form.as_slice()) {
            return true;
        }
    }
    false
}

/// Returns whether a slice is wanted.
#[inline(always)]
fn is_wanted(wanted: &Wanted, slice: &str) -> bool
    ensures value { result ≡ is_wanted_text wanted.now slice.now }
{
    match wanted {
        Wanted::Any => true,
        Wanted::OneOf(forms) => is_among(forms.as_slice(), slice.as_bytes()),
    }
}

/// Returns whether a graph label is wanted, or that there is none.
#[inline(always)]
fn is_wanted_label(wanted: &WantedGraph, label: Option<&str>) -> bool
    ensures value { result ≡ is_wanted_label wanted.now (option_copied label.entry) }
{
    match wanted {
        WantedGraph::Default => label.is_none(),
        WantedGraph::Named(names) => match label {
            Some(label) => is_wanted(names, label),
            None => false,
        },
    }
}

/// Returns whether the slices of a statement are wanted by a shape.
#[inline(always)]
fn has_texts(shape: &Shape, raw: &RawStatement<'_>) -> bool
    ensures value { result ≡ has_texts raw.now shape.now }
{
    is_wanted_label(&shape.graph, raw.graph)
        && is_wanted(&shape.predicate, raw.predicate)
        && is_wanted(&shape.subject, raw.subject)
        && is_wanted(&shape.object, raw.object)
}

/// Returns whether the slices of a statement are wanted by one of these shapes.
fn has_texts_of_any(shapes: &[Shape], raw: &RawStatement<'_>) -> bool
    ensures value { result ≡ list_any (has_texts raw.now) shapes.now }
{
    for shape in shapes {
        if has_texts(shape, raw) {
            return true;
        }
    }
    false
}

/// Returns whether the slices of a statement are wanted by a filter.
fn is_wanted_by(filter: &QuadFilter, raw: &RawStatement<'_>) -> bool
    ensures value { result ≡ wants filter.now raw.now }
{
    match filter {
        QuadFilter::All => true,
        QuadFilter::AnyOf(shapes) => has_texts_of_any(shapes.as_slice(), raw),
    }
}

impl QuadFilter {
    /// Returns whether the filter keeps the quad whose terms have the slices of a statement as their N-Quads forms.
    ///
    /// Compares bytes. Reads no term, and allocates nothing.
    pub fn wants(&self, raw: &RawStatement<'_>) -> bool
        ensures value { (q : QuadParts) → HasSlices raw.now q → result ≡ keeps self.now q }
    {
        is_wanted_by(self, raw)
    }
}
