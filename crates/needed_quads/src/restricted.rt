//! Variables whose terms VALUES lists (SPARQL 1.1 Query Language, section 10.2).
ghost use Rattle.std.specs.Prelude.{◌≡◌, ◌∷◌, [], Some, map, IfOk, IfSome, OnOk};
ghost use Rattle.rdf_core.specs.declared.term.Term.{Term};
ghost use Rattle.rdf_core.specs.Serialization.{serialization};
ghost use Rattle.algebra_model.specs.Algebra.{Table};
ghost use Rattle.sparql_algebra.specs.AlgebraOf.{algebra_of};
ghost use Rattle.needed_quads.specs.Restriction.{allows, restrictions};
ghost use Rattle.needed_quads.specs.Building.{AreForms, AreRestricted, AreWanted};

use crate::forms::{copy_wanted, form_of};
use quad_filter::Wanted;
use rdf_core::Term;
use sparql_algebra::Operator;
use std::alloc::{AllocError, Global};

/// The most terms that a restricted variable can have. A slice of a document is compared with each of them.
const MOST_TERMS: usize = 16;

/// A variable, and the terms that it can have.
pub(crate) struct Restricted {
    pub(crate) variable: usize,
    pub(crate) terms: Wanted,
}

impl Drop for Restricted {
    /// Frees the forms of the terms. Written by hand (docs/PROOF.md).
    fn drop(self) {
        let Restricted {
            variable: _,
            terms: _,
        } = self;
    }
}

/// Returns the wanted terms of a variable: those of its first restriction, or every term.
pub(crate) fn wanted_variable(
    alloc: Global,
    known: &[Restricted],
    variable: usize,
) -> Result<Wanted, AllocError>
    ensures wanted { IfOk result (λ wanted. AreWanted known.now (λ R t. allows R variable t) wanted) }
{
    for restricted in known {
        if restricted.variable == variable {
            return copy_wanted(alloc, &restricted.terms);
        }
    }
    Ok(Wanted::Any)
}

/// Adds the variables that a tree restricts. In each of its solutions such a variable has one of its terms.
pub(crate) fn add_restricted(
    alloc: Global,
    tree: &Operator,
    known: &mut Vec<Restricted>,
) -> Result<(), AllocError>
    ensures restricted { OnOk result
        (AreRestricted (restrictions (algebra_of tree.now)) known.old.items known.new.items) }
{
    match tree {
        Operator::Join { left, right } => {
            add_restricted(alloc, left, known)?;
            add_restricted(alloc, right, known)
        }
        Operator::Table { variables, rows } => {
            add_table(alloc, variables.as_slice(), rows.as_slice(), known)
        }
        _ => Ok(()),
    }
}

/// Adds the variable of a table with one variable, if the table has few rows and none of them is UNDEF.
fn add_table(
    alloc: Global,
    variables: &[usize],
    rows: &[Vec<Option<Term>>],
    known: &mut Vec<Restricted>,
) -> Result<(), AllocError>
    ensures restricted { OnOk result
        (AreRestricted (restrictions (Table variables.now (map (λ row. row.items) rows.now)))
        known.old.items known.new.items) }
{
    if variables.len() != 1 || rows.len() > MOST_TERMS {
        return Ok(());
    }
    match forms_of(alloc, rows)? {
        Some(forms) => {
            known.push(Restricted {
                variable: variables[0],
                terms: Wanted::OneOf(forms),
            })?;
            Ok(())
        }
        None => Ok(()),
    }
}

/// Returns the N-Quads forms of the terms of a table with one variable. Returns None if a row is UNDEF.
fn forms_of(alloc: Global, rows: &[Vec<Option<Term>>]) -> Result<Option<Vec<Vec<u8>>>, AllocError>
    ensures forms { IfOk result (λ found.
        IfSome found (λ forms. AreForms (map (λ row. row.items) rows.now) forms.items)) }
{
    let mut forms = Vec::new(alloc);
    for row in rows {
        match only_form(alloc, row.as_slice())? {
            Some(form) => forms.push(form)?,
            None => return Ok(None),
        }
    }
    Ok(Some(forms))
}

/// Returns the N-Quads form of the term of a row with one cell. Returns None for another row.
fn only_form(alloc: Global, row: &[Option<Term>]) -> Result<Option<Vec<u8>>, AllocError>
    ensures form { IfOk result (λ found. IfSome found (λ form. (t : Term)
        × (row.now ≡ Some t ∷ []) × (form.items ≡ serialization t))) }
{
    if row.len() != 1 {
        return Ok(None);
    }
    match &row[0] {
        Some(term) => Ok(Some(form_of(alloc, term)?)),
        None => Ok(None),
    }
}
