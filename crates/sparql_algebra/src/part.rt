//! The translation of the first elements of a group.
ghost use Rattle.std.specs.Prelude.{◌≡◌, [], ◌++◌, IfOk, None, Some, map, option_map, true};
ghost use Rattle.algebra_model.specs.Algebra.{Algebra, LeftJoin};
ghost use Rattle.algebra_model.specs.Call.{boolean_term};
ghost use Rattle.expression_values.specs.ExpressionOf.{expression_of};
ghost use Rattle.sparql_algebra.specs.Added.{applied};
ghost use Rattle.sparql_algebra.specs.AlgebraOf.{algebra_of};
ghost use Rattle.sparql_algebra.specs.PartOf.{part_of};
ghost use Rattle.sparql_algebra.specs.Translation.{closed, closed_as, condition_of, empty_pattern, finished, joined_filters, with_pattern};

use crate::constructors::{boxed, empty_pattern};
use crate::names::Names;
use crate::operation::Operation;
use crate::operator::Operator;
use crate::pattern::basic_pattern;
use expression_values::Expr;
use rdf_core::vocabulary::XSD_BOOLEAN;
use rdf_core::{Term, Text};
use sparql_tree::Triple;
use std::alloc::{AllocError, Global};

/// The operator before the open basic graph pattern, the triples of that pattern, and the filters
/// so far, combined with `&&`.
pub struct Part<'a> {
    pub before: Box<Operator>,
    pub triples: Vec<&'a Triple>,
    pub filters: Option<Box<Expr>>,
}

impl<'a> Drop for Part<'a> {
    /// Written by hand (docs/PROOF.md).
    fn drop(self) {
        let Part {
            before: _,
            triples: _,
            filters: _,
        } = self;
    }
}

impl<'a> Part<'a> {
    /// Creates the part of a group before its first element: the empty pattern.
    pub fn new(alloc: Global) -> Result<Part<'a>, AllocError>
        ensures part { IfOk result (λ part.
            part_of part ≡ record { before = empty_pattern; triples = []; filters = None }) }
    {
        Ok(Part {
            before: empty_pattern(alloc)?,
            triples: Vec::new(alloc),
            filters: None,
        })
    }

    /// Adds the triples to the open basic graph pattern.
    pub fn with_triples(self, triples: &'a [Triple]) -> Result<Part<'a>, AllocError>
        ensures part { IfOk result (λ part. part_of part ≡ record {
          before = (part_of self.entry).before;
          triples = (part_of self.entry).triples ++ triples.entry.now;
          filters = (part_of self.entry).filters;
        }) }
    {
        let Part {
            before,
            triples: others,
            filters,
        } = self;
        Ok(Part {
            before,
            triples: with_more(others, triples)?,
            filters,
        })
    }

    /// Adds a filter. The basic graph pattern stays open.
    pub fn with_filter(self, alloc: Global, filter: Box<Expr>) -> Result<Part<'a>, AllocError>
        ensures part { IfOk result (λ part. part_of part ≡ record {
          before = (part_of self.entry).before;
          triples = (part_of self.entry).triples;
          filters = joined_filters (part_of self.entry).filters (expression_of filter.value);
        }) }
    {
        let Part {
            before,
            triples,
            filters,
        } = self;
        Ok(Part {
            before,
            triples,
            filters: Some(with_conjunct(alloc, filters, filter)?),
        })
    }

    /// Ends the open basic graph pattern, and applies the operation to the part.
    pub fn with_operation(
        self,
        alloc: Global,
        names: &Names,
        operation: Operation,
    ) -> Result<Part<'a>, AllocError>
        ensures part { IfOk result (λ part. part_of part ≡ closed_as (part_of self.entry)
            (applied (closed names.now (part_of self.entry)) operation)) }
    {
        let Part {
            before,
            triples,
            filters,
        } = self;
        let left = closed(alloc, names, before, triples)?;
        Ok(Part {
            before: operation.applied(alloc, left)?,
            triples: Vec::new(alloc),
            filters,
        })
    }

    /// Translates the whole group: the filters are applied at its end.
    pub fn finish(self, alloc: Global, names: &Names) -> Result<Box<Operator>, AllocError>
        ensures finished { IfOk result
            (λ made. algebra_of made.value ≡ finished names.now (part_of self.entry)) }
    {
        let Part {
            before,
            triples,
            filters,
        } = self;
        let inner = closed(alloc, names, before, triples)?;
        match filters {
            Some(condition) => {
                let condition = Box::into_inner(condition);
                boxed(alloc, Operator::Filter { condition, inner })
            }
            None => Ok(inner),
        }
    }

    /// Returns the OPTIONAL with this group. Its condition is the filters directly in the group, or
    /// `true` if it has none.
    pub fn into_optional(self, alloc: Global, names: &Names) -> Result<Operation, AllocError>
        ensures optional { IfOk result (λ operation. (left : Algebra) → applied left operation
            ≡ LeftJoin left (closed names.now (part_of self.entry)) (condition_of (part_of self.entry).filters)) }
    {
        let Part {
            before,
            triples,
            filters,
        } = self;
        let right = closed(alloc, names, before, triples)?;
        Ok(Operation::Optional(right, condition(alloc, filters)?))
    }
}

/// Joins the open basic graph pattern with the operator before it.
fn closed(
    alloc: Global,
    names: &Names,
    left: Box<Operator>,
    triples: Vec<&Triple>,
) -> Result<Box<Operator>, AllocError>
    ensures closed { IfOk result (λ made. algebra_of made.value
        ≡ with_pattern names.now (algebra_of left.value) (map (λ t. t.now) triples.entry.items)) }
{
    if triples.is_empty() {
        return Ok(left);
    }
    let right = basic_pattern(alloc, names, &triples)?;
    boxed(alloc, Operator::Join { left, right })
}

fn with_more<'a>(others: Vec<&'a Triple>, more: &'a [Triple]) -> Result<Vec<&'a Triple>, AllocError>
    ensures triples { IfOk result
        (λ all. map (λ t. t.now) all.items ≡ map (λ t. t.now) others.entry.items ++ more.entry.now) }
{
    let mut all = others;
    for triple in more {
        all.push(triple)?;
    }
    Ok(all)
}

fn with_conjunct(
    alloc: Global,
    filters: Option<Box<Expr>>,
    filter: Box<Expr>,
) -> Result<Box<Expr>, AllocError>
    ensures joined { IfOk result (λ joined. Some (expression_of joined.value)
        ≡ joined_filters (option_map (λ e. expression_of e.value) filters) (expression_of filter.value)) }
{
    match filters {
        None => Ok(filter),
        Some(others) => Ok(Box::new(
            alloc,
            Expr::And {
                left: others,
                right: filter,
            },
        )?),
    }
}

/// Returns the condition of an OPTIONAL: its filters, or `true` if it has none.
fn condition(alloc: Global, filters: Option<Box<Expr>>) -> Result<Box<Expr>, AllocError>
    ensures condition { IfOk result (λ made.
        expression_of made.value ≡ condition_of (option_map (λ e. expression_of e.value) filters)) }
{
    match filters {
        Some(condition) => Ok(condition),
        None => Ok(Box::new(alloc, Expr::Constant(boolean_true(alloc)?))?),
    }
}

fn boolean_true(alloc: Global) -> Result<Term, AllocError>
    ensures term { IfOk result (λ term. term ≡ boolean_term true) }
{
    Ok(Term::Literal {
        lexical: Text::from_string(String::from_str(alloc, "true")?),
        datatype: Text::from_string(String::from_str(alloc, XSD_BOOLEAN)?),
        tag: None,
    })
}
