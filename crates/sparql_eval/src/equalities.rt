//! The equalities that a condition requires, by which rows are paired.
ghost use Rattle.std.specs.Prelude.{◌≡◌, true, IfOk, IfSome, OnOk};
ghost use Rattle.rdf_core.specs.declared.term.Term.{Term};
ghost use Rattle.algebra_model.specs.Call.{str};
ghost use Rattle.algebra_model.specs.Expression.{Expression, call, holds};
ghost use Rattle.algebra_model.specs.Solution.{Solution};
ghost use Rattle.expression_values.specs.ExpressionOf.{expression_of};
ghost use Rattle.sparql_eval.specs.Fitting.{fits};
ghost use Rattle.sparql_eval.specs.Required.{AreRequired, Implies, IsKeyedBy, IsRequiredEqual};

use expression_errors::is_float;
use rdf_core::Term;
use sparql_algebra::{Comparison, Expr, Function};
use std::alloc::{AllocError, Global};

/// The number of equalities that a condition is searched for.
const MOST_EQUALITIES: usize = 64;

/// The number of equalities by which rows are paired. The limit keeps the keys short.
pub(crate) const MOST_KEYS: usize = 4;

/// An operand of an equality: a variable, or STR of a variable.
#[derive(Clone, Copy)]
pub(crate) struct Operand {
    pub(crate) variable: usize,
    pub(crate) is_text: bool,
}

impl Operand {
    /// Returns whether the equality may be an error over this term of the variable and a term with
    /// another key: STR of a blank node is one, and so is `=` of an xsd:double and another literal.
    pub(crate) fn may_fail(self, term: &Term) -> bool {
        if self.is_text {
            matches!(term, Term::Blank(_))
        } else {
            is_float(term)
        }
    }
}

/// Two operands that are equal in each row for which a condition is true. So the terms of their
/// variables have one key.
#[derive(Clone, Copy)]
pub(crate) struct Equality {
    pub(crate) left: Operand,
    pub(crate) right: Operand,
}

/// Returns the equalities that hold in each row for which the condition is true. They are `=` and
/// sameTerm of variables, and of STR of variables, joined by `&&`.
pub(crate) fn equalities(alloc: Global, condition: &Expr) -> Result<Vec<Equality>, AllocError>
    ensures required { IfOk result (λ found.
        AreRequired (expression_of condition.now) found.items) }
{
    let mut found = Vec::new(alloc);
    add_equalities(condition, &mut found)?;
    Ok(found)
}

/// Adds the equalities that a condition requires. The left operands of `&&` are read in a loop, so a
/// long chain needs no more stack than a short one.
fn add_equalities(condition: &Expr, found: &mut Vec<Equality>) -> Result<(), AllocError>
    ensures required { OnOk result ((e : Expression) → Implies e (expression_of condition.now)
        → AreRequired e found.old.items → AreRequired e found.new.items) }
{
    let mut rest = condition;
    'operands: while let Expr::And { left, right } = rest {
        add_equalities(right, found)?;
        rest = left;
    }
    add_equality(rest, found)
}

/// Returns the equalities of the condition, followed by the given ones.
#[tactic(auto, using(crate::proofs::FittingSteps::fits_all))]
pub(crate) fn with_equalities(
    alloc: Global,
    condition: &Expr,
    pairs: &[Equality],
) -> Result<Vec<Equality>, AllocError>
    ensures required { IfOk result (λ all. (ρ : Solution Term)
        → holds (expression_of condition.now) ρ ≡ true → fits pairs.now ρ ≡ true
        → fits all.items ρ ≡ true) }
{
    let mut all = equalities(alloc, condition)?;
    all.extend_from_slice(pairs)?;
    Ok(all)
}

/// Adds the equality that an operand of `&&` is.
fn add_equality(operand: &Expr, found: &mut Vec<Equality>) -> Result<(), AllocError>
    ensures required { OnOk result ((e : Expression) → Implies e (expression_of operand.now)
        → AreRequired e found.old.items → AreRequired e found.new.items) }
{
    match operand {
        Expr::Compare {
            operator,
            left,
            right,
        } => match operator {
            Comparison::Equal => add_operands(left, right, found),
            _ => Ok(()),
        },
        Expr::SameTerm { left, right } => add_operands(left, right, found),
        _ => Ok(()),
    }
}

/// Adds two operands that are compared.
fn add_operands(left: &Expr, right: &Expr, found: &mut Vec<Equality>) -> Result<(), AllocError>
    ensures required { OnOk result ((e : Expression)
        → IsRequiredEqual e (expression_of left.now) (expression_of right.now)
        → AreRequired e found.old.items → AreRequired e found.new.items) }
{
    if let Some(left) = operand_of(left) {
        if let Some(right) = operand_of(right) {
            if found.len() < MOST_EQUALITIES {
                found.push(Equality { left, right })?;
            }
        }
    }
    Ok(())
}

/// Returns the operand if the expression is a variable or STR of one.
fn operand_of(expr: &Expr) -> Option<Operand>
    ensures keyed { IfSome result (λ operand. IsKeyedBy (expression_of expr.now) operand.variable) }
{
    match expr {
        Expr::Variable(variable) => Some(Operand {
            variable: *variable,
            is_text: false,
        }),
        Expr::Call { function, argument } => match function {
            Function::Str => text_operand(argument),
            _ => None,
        },
        _ => None,
    }
}

/// Returns the operand that is STR of this expression, if that is a variable.
fn text_operand(argument: &Expr) -> Option<Operand>
    ensures keyed { IfSome result
        (λ operand. IsKeyedBy (call str (expression_of argument.now)) operand.variable) }
{
    match argument {
        Expr::Variable(variable) => Some(Operand {
            variable: *variable,
            is_text: true,
        }),
        _ => None,
    }
}

/// Returns whether a condition is the equality of two variables.
pub(crate) fn is_equality(condition: &Expr) -> bool {
    match condition {
        Expr::Compare {
            operator: Comparison::Equal,
            left,
            right,
        } => is_variable(left) && is_variable(right),
        Expr::SameTerm { left, right } => is_variable(left) && is_variable(right),
        _ => false,
    }
}

fn is_variable(operand: &Expr) -> bool {
    matches!(operand, Expr::Variable(_))
}
