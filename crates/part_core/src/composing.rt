//! The output of a command for its input.
ghost use Rattle.std.specs.Prelude.{◌≡◌, ◌<◌, ◌++◌, codes, decimal, IfErr, IfOk, OnOk};
ghost use Rattle.part_core.specs.Faults.{IsFault};
ghost use Rattle.part_core.specs.Output.{HasPartitions, IsAgain, IsCounted, IsFirstOf, IsKeptOf, IsOutput, IsRepeatedIn, IsPlanned, IsQuadSplit, IsSplit, IsTermSplit, IsUnsealed, limit_word, merge_line};
ghost use Rattle.part_core.specs.declared.command.Command.TheVariants.{Again, Count, First, Keep, Merge, Plan, Repeated, SplitCheck, SplitQuads, SplitTerms, Unseal};
ghost use Rattle.result_merge.specs.Merging.{IsMerged};

use crate::command::{Command, Merging};
use crate::fault::PartFault;
use crate::needing::needed;
use cluster_parts::{
    QuadKey, count_lines, first_lists, first_terms, join_sealed, keep_terms, repeated_hashes,
    split_again, split_for_check, split_for_terms, split_quads,
};
use itoa::Buffer;
use query_plan::{PartsPlan, plan};
use query_split::Split;
use result_merge::merge;
use std::alloc::{AllocError, Global};
use std::hash::RandomState;

/// Returns a number as a line.
fn number_line(alloc: Global, n: u64) -> Result<Vec<u8>, AllocError>
    ensures line { IfOk result (λ line. line.items ≡ decimal n ++ codes "\n") }
{
    let mut line = Vec::new(alloc);
    push_decimal(&mut line, n)?;
    line.extend_from_slice(b"\n")?;
    Ok(line)
}

/// Composes the output of `count`.
fn counted(alloc: Global, state: RandomState, input: &[u8]) -> Result<Vec<u8>, PartFault>
    ensures output { IfOk result (λ output. IsCounted input.now output.items) }
    ensures fault { IfErr result (IsFault Count input.now) }
{
    let count = match count_lines(alloc, state, input) {
        Ok(count) => count,
        Err(fault) => return Err(PartFault::of_seal(fault)),
    };
    match number_line(alloc, count) {
        Ok(line) => Ok(line),
        Err(_) => Err(PartFault::Memory),
    }
}

/// Composes the output of `repeated`.
fn repeated(alloc: Global, state: RandomState, input: &[u8]) -> Result<Vec<u8>, PartFault>
    ensures output { IfOk result (λ output. IsRepeatedIn input.now output.items) }
    ensures fault { IfErr result (IsFault Repeated input.now) }
{
    match repeated_hashes(alloc, state, input) {
        Ok(out) => Ok(out),
        Err(fault) => Err(PartFault::of_seal(fault)),
    }
}

/// Composes the output of `again`.
fn again(
    alloc: Global,
    state: RandomState,
    input: &[u8],
    partitions: u64,
) -> Result<Vec<u8>, PartFault>
    requires some { 0 < partitions }
    ensures output { IfOk result (λ output. IsAgain partitions input.now output.items) }
    ensures fault { IfErr result (IsFault (Again partitions) input.now) }
{
    let (hashes, block) = match first_lists(alloc, input, partitions) {
        Ok(parts) => parts,
        Err(fault) => return Err(PartFault::of_seal(fault)),
    };
    match split_again(alloc, state, &hashes, block, partitions) {
        Ok(out) => Ok(out),
        Err(fault) => Err(PartFault::of_piece(fault)),
    }
}

/// Composes the output of `split check`.
fn split(
    alloc: Global,
    state: RandomState,
    input: &[u8],
    partitions: u64,
) -> Result<Vec<u8>, PartFault>
    requires some { 0 < partitions }
    ensures output { IfOk result (λ output. IsSplit partitions input.now output.items) }
    ensures fault { IfErr result (IsFault (SplitCheck partitions) input.now) }
{
    match split_for_check(alloc, state, input, partitions) {
        Ok(out) => Ok(out),
        Err(fault) => Err(PartFault::of_piece(fault)),
    }
}

/// Composes the output of `split terms`.
fn split_terms(
    alloc: Global,
    state: RandomState,
    input: &[u8],
    partitions: u64,
) -> Result<Vec<u8>, PartFault>
    requires some { 0 < partitions }
    ensures output { IfOk result (λ output. IsTermSplit partitions input.now output.items) }
    ensures fault { IfErr result (IsFault (SplitTerms partitions) input.now) }
{
    match split_for_terms(alloc, state, input, partitions) {
        Ok(out) => Ok(out),
        Err(fault) => Err(PartFault::of_piece(fault)),
    }
}

/// Composes the output of `split subject` and `split graph`.
fn split_by_key(
    alloc: Global,
    state: RandomState,
    input: &[u8],
    key: &QuadKey,
    partitions: u64,
) -> Result<Vec<u8>, PartFault>
    requires some { 0 < partitions }
    ensures output { IfOk result (λ output. IsQuadSplit key.now partitions input.now output.items) }
    ensures fault { IfErr result (IsFault (SplitQuads key.now partitions) input.now) }
{
    match split_quads(alloc, state, input, key, partitions) {
        Ok(out) => Ok(out),
        Err(fault) => Err(PartFault::of_piece(fault)),
    }
}

/// Composes the output of `unseal`.
fn unsealed_text(alloc: Global, input: &[u8]) -> Result<Vec<u8>, PartFault>
    ensures output { IfOk result (λ output. IsUnsealed input.now output.items) }
    ensures fault { IfErr result (IsFault Unseal input.now) }
{
    match join_sealed(alloc, input) {
        Ok(joined) => Ok(joined),
        Err(fault) => Err(PartFault::of_seal(fault)),
    }
}

/// Composes the output of `first`.
fn firsts(alloc: Global, state: RandomState, input: &[u8]) -> Result<Vec<u8>, PartFault>
    ensures output { IfOk result (λ output. IsFirstOf input.now output.items) }
    ensures fault { IfErr result (IsFault First input.now) }
{
    match first_terms(alloc, state, input) {
        Ok(out) => Ok(out),
        Err(fault) => Err(PartFault::of_seal(fault)),
    }
}

/// Composes the output of `keep`.
fn kept(alloc: Global, input: &[u8]) -> Result<Vec<u8>, PartFault>
    ensures output { IfOk result (λ output. IsKeptOf input.now output.items) }
    ensures fault { IfErr result (IsFault Keep input.now) }
{
    match keep_terms(alloc, input) {
        Ok(out) => Ok(out),
        Err(fault) => Err(PartFault::of_seal(fault)),
    }
}

/// Appends a number.
fn push_decimal(out: &mut Vec<u8>, n: u64) -> Result<(), AllocError>
    ensures number { OnOk result (out.new.items ≡ out.old.items ++ decimal n) }
{
    let mut buffer = Buffer::new();
    out.extend_from_slice(buffer.format(n).as_bytes())
}

/// Appends the word of a LIMIT.
fn push_limit(out: &mut Vec<u8>, limit: Option<u64>) -> Result<(), AllocError>
    ensures word { OnOk result (out.new.items ≡ out.old.items ++ limit_word limit) }
{
    match limit {
        Some(limit) => push_decimal(out, limit),
        None => out.extend_from_slice(b"none"),
    }
}

/// Appends the line of a merge.
fn push_merge(
    out: &mut Vec<u8>,
    distinct: bool,
    offset: u64,
    limit: Option<u64>,
) -> Result<(), AllocError>
    ensures line { OnOk result (out.new.items ≡ out.old.items ++ merge_line distinct offset limit) }
{
    let rows: &[u8] = if distinct {
        b"merge distinct "
    } else {
        b"merge all "
    };
    out.extend_from_slice(rows)?;
    push_decimal(out, offset)?;
    out.extend_from_slice(b" ")?;
    push_limit(out, limit)?;
    out.extend_from_slice(b"\n")?;
    Ok(())
}

/// Returns what `plan` writes.
fn plan_text(alloc: Global, plan: &PartsPlan) -> Result<Vec<u8>, AllocError>
    ensures text { IfOk result (λ out. out.items
        ≡ merge_line plan.now.merge.distinct plan.now.merge.offset plan.now.merge.limit
        ++ (merge_line plan.now.merge.distinct 0 plan.now.merge.kept ++ plan.now.query.items)) }
{
    let merge = &plan.merge;
    let mut out = Vec::new(alloc);
    push_merge(&mut out, merge.distinct, merge.offset, merge.limit)?;
    push_merge(&mut out, merge.distinct, 0, merge.kept)?;
    out.extend_from_slice(&plan.query)?;
    Ok(out)
}

/// Composes the output of `plan`.
fn planned(alloc: Global, input: &[u8], split: &Split) -> Result<Vec<u8>, PartFault>
    ensures output { IfOk result (λ output. IsPlanned split.now input.now output.items) }
    ensures fault { IfErr result (IsFault (Plan split.now) input.now) }
{
    let Ok(text) = str::from_utf8(input) else {
        return Err(PartFault::Query);
    };
    match plan(alloc, text, split) {
        Ok(found) => match plan_text(alloc, &found) {
            Ok(out) => Ok(out),
            Err(_) => Err(PartFault::Memory),
        },
        Err(fault) => Err(PartFault::of_plan(fault)),
    }
}

/// Composes the output of `merge`.
fn merged(alloc: Global, input: &[u8], merging: &Merging) -> Result<Vec<u8>, PartFault>
    ensures output { IfOk result (λ output.
        IsMerged merging.now.distinct merging.now.offset merging.now.limit input.now output.items) }
    ensures fault { IfErr result (IsFault (Merge merging.now) input.now) }
{
    match merge(
        alloc,
        input,
        merging.distinct,
        merging.offset,
        merging.limit,
    ) {
        Ok(out) => Ok(out),
        Err(fault) => Err(PartFault::of_merge(fault)),
    }
}

/// Composes the output of a command for its input.
///
/// # Requires
/// The command has at least one partition.
///
/// # Errors
/// - `BadLine(k)` if line k of the block, counted from 0, is the first that is malformed.
/// - `Version` if the input is not what the command reads (`IsWhole`), and what follows some sealed texts does not begin with the
///   head of this version.
/// - `Damaged` if the input is not what the command reads.
/// - `Query` if a rule rejects the query of `plan` or `needed`, or it is not UTF-8.
/// - `Split` if the query of `plan` does not meet the condition of the split.
/// - `Sum` if the sum of its OFFSET and LIMIT is above the largest number.
/// - `Offset` if its text could not be rewritten for the parts.
/// - `Memory` if an allocation fails.
pub fn compose(
    alloc: Global,
    state: RandomState,
    command: &Command,
    input: &[u8],
) -> Result<Vec<u8>, PartFault>
    requires partitions { HasPartitions command.now }
    ensures output { IfOk result (λ output. IsOutput command.now input.now output.items) }
    ensures fault { IfErr result (IsFault command.now input.now) }
{
    match command {
        Command::SplitCheck(partitions) => split(alloc, state, input, *partitions),
        Command::Count => counted(alloc, state, input),
        Command::Repeated => repeated(alloc, state, input),
        Command::Again(partitions) => again(alloc, state, input, *partitions),
        Command::SplitTerms(partitions) => split_terms(alloc, state, input, *partitions),
        Command::SplitQuads(key, partitions) => {
            split_by_key(alloc, state, input, key, *partitions)
        }
        Command::Needed(count) => needed(alloc, state, input, *count),
        Command::Unseal => unsealed_text(alloc, input),
        Command::First => firsts(alloc, state, input),
        Command::Keep => kept(alloc, input),
        Command::Plan(split) => planned(alloc, input, split),
        Command::Merge(merging) => merged(alloc, input, merging),
    }
}
