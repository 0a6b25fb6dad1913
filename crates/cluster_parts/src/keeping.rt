//! The terms of a block that are new in the document.
ghost use Rattle.std.specs.Prelude.{◌≡◌, ◌==◌, ◌+◌, ◌^◌, ◌<◌, ◌≤◌, ◌++◌, ◌∷◌, [], List, ℕ, true, false, codes, get_or, if◌then◌else◌, length, map, IfErr, IfNone, IfOk, IfSome, OnOk, OnSome};
ghost use Rattle.nquads_core.specs.Lines.{lines};
ghost use Rattle.cluster_parts.specs.Seal.{IsFaultOf, all_sealed, sealed};
ghost use Rattle.cluster_parts.specs.Terms.{is_marked, line_list, marked_lines};
ghost use Rattle.cluster_parts.specs.Known.{AreTaken, HasNoMark, IsDamageOf, texts_of};
ghost use Rattle.cluster_parts.specs.Output.{IsKept};
ghost use Rattle.cluster_parts.specs.Input.{AreListAndMarks};
ghost use Rattle.cluster_parts.specs.declared.sealing.SealFault.TheVariants.{Damaged};

use crate::hashing::hash_of;
use crate::sealing::{SealFault, first_sealed, length_of, sealed_texts};
use nquads_core::first_line;
use std::alloc::{AllocError, Global};

/// Returns whether the mark at a place is that of a new line, or None if there is no mark.
fn mark_at(marks: &[u8], place: usize) -> Option<bool>
    ensures value { IfSome result (λ is_new. is_new ≡ (get_or marks.now place 0 == 1)) }
    ensures none { IfNone result (length marks.now ≤ place) }
    ensures small { OnSome result (place + 1 < 2 ^ 64) }
{
    if place >= marks.len() {
        return None;
    }
    Some(marks[place] == 1)
}

/// Takes the next mark of the partition of a line. `taken` are the numbers of marks that were taken of the partitions.
///
/// # Errors
/// `Damaged` if the partition has no more marks.
fn take_mark(marks: &[&[u8]], taken: &mut Vec<usize>, line: &[u8]) -> Result<bool, SealFault>
    requires some { 0 < length marks.now }
    requires all { length taken.old.items ≡ length marks.now }
    ensures all { length taken.new.items ≡ length marks.now }
    ensures mark { IfOk result (λ is_new. (before : List (List ℕ)) → AreTaken (length marks.now) before taken.old.items
        → is_new ≡ is_marked (texts_of marks.now) before line.now) }
    ensures taken { OnOk result ((before : List (List ℕ)) → AreTaken (length marks.now) before taken.old.items
        → AreTaken (length marks.now) (before ++ line.now ∷ []) taken.new.items) }
    ensures left { IfErr result (λ fault. (fault ≡ Damaged) × ((before : List (List ℕ))
        → AreTaken (length marks.now) before taken.old.items → HasNoMark (texts_of marks.now) before line.now)) }
{
    let number = (hash_of(line) % marks.len() as u64) as usize;
    let place = taken[number];
    let Some(is_new) = mark_at(marks[number], place) else {
        return Err(SealFault::Damaged);
    };
    taken[number] = place + 1;
    Ok(is_new)
}

/// Appends a text on a line of its own, if it is new.
fn push_if_new(out: &mut Vec<u8>, line: &[u8], is_new: bool) -> Result<(), AllocError>
    ensures appended { OnOk result (out.new.items ≡ out.old.items
        ++ (if is_new then line.now ++ codes "\n" else [])) }
{
    if is_new {
        out.extend_from_slice(line)?;
        out.extend_from_slice(b"\n")?;
    }
    Ok(())
}

/// Returns whether all marks were taken.
fn are_taken(marks: &[&[u8]], taken: &[usize]) -> bool
    requires all { length taken.now ≡ length marks.now }
    ensures each { result ≡ true → (n : ℕ) → n < length marks.now
        → length (get_or (texts_of marks.now) n []) ≡ get_or taken.now n 0 }
    ensures left { result ≡ false → ((n : ℕ) → n < length marks.now
        → length (get_or (texts_of marks.now) n []) ≡ get_or taken.now n 0) → ⊥ }
{
    for n in 0..marks.len() {
        if marks[n].len() != taken[n] {
            return false;
        }
    }
    true
}

/// Returns the lines of a list that have the mark of a new line.
fn kept_of(alloc: Global, list: &[u8], marks: &[&[u8]]) -> Result<Vec<u8>, SealFault>
    ensures kept { IfOk result (λ text. IsKept list.now (texts_of marks.now) text.items) }
    ensures damage { IfErr result (IsDamageOf ((text : List ℕ) × IsKept list.now (texts_of marks.now) text)) }
{
    if marks.is_empty() {
        return Err(SealFault::Damaged);
    }
    let mut taken = vec![in alloc; 0usize; marks.len()]?;
    let mut out = Vec::new(alloc);
    let mut rest = list;
    while !rest.is_empty() {
        let (line, after) = first_line(rest);
        let is_new = take_mark(marks, &mut taken, line)?;
        push_if_new(&mut out, line, is_new)?;
        rest = after;
    }
    if !are_taken(marks, taken.as_slice()) {
        return Err(SealFault::Damaged);
    }
    Ok(out)
}

/// Returns the new lines of the first sealed text, each on a line of its own. The sealed texts after it are the marks that
/// [`first_terms`](crate::first_terms) returns for the partitions, in order (`IsKept`).
///
/// # Errors
/// - `Version` if a text begins with another head, or if there is no text.
/// - `Damaged` if a text is shorter than its length says, or has another checksum, if there is no partition, or if a
///   partition does not have one mark for each of its lines.
/// - `Memory` if an allocation fails.
///
/// With `Version` and `Damaged`, the bytes are not a list with its marks (`AreListAndMarks`).
pub fn keep_terms(alloc: Global, bytes: &[u8]) -> Result<Vec<u8>, SealFault>
    ensures kept { IfOk result (λ text. (list : List ℕ) × (marks : List (List ℕ))
        × (bytes.now ≡ sealed list ++ all_sealed marks) × IsKept list marks text.items) }
    ensures fault { IfErr result (IsFaultOf (AreListAndMarks bytes.now) bytes.now) }
{
    let _len = length_of(bytes);
    let (list, rest) = first_sealed(bytes)?;
    let marks = sealed_texts(alloc, rest)?;
    let text = kept_of(alloc, list, marks.as_slice())?;
    Ok(text)
}
