//! Expressions of a query's syntax tree as expressions over numbered variables.
ghost use Rattle.std.specs.Prelude.{◌≡◌, IfOk, map};
ghost use Rattle.sparql_tree.specs.ExpressionTree.{expression_of as tree_of};
ghost use Rattle.expression_values.specs.ExpressionOf.{expression_of};
ghost use Rattle.sparql_algebra.specs.Translation.{translate_expression};

use crate::names::Names;
use expression_values::Expr;
use sparql_tree::Expression;
use std::alloc::{AllocError, Global};

#[cycle(conversion)]
fn convert(alloc: Global, names: &Names, tree: &Expression) -> Result<Expr, AllocError>
    ensures expression { IfOk result
        (λ expr. expression_of expr ≡ translate_expression names.now (tree_of tree.now)) }
{
    match tree {
        Expression::Or(left, right) => Ok(Expr::Or {
            left: convert_boxed(alloc, names, left)?,
            right: convert_boxed(alloc, names, right)?,
        }),
        Expression::And(left, right) => Ok(Expr::And {
            left: convert_boxed(alloc, names, left)?,
            right: convert_boxed(alloc, names, right)?,
        }),
        Expression::Not(inner) => Ok(Expr::Not(convert_boxed(alloc, names, inner)?)),
        Expression::Compare(operator, left, right) => Ok(Expr::Compare {
            operator: *operator,
            left: convert_boxed(alloc, names, left)?,
            right: convert_boxed(alloc, names, right)?,
        }),
        Expression::In(item, list) => {
            let list = convert_list(alloc, names, list)?;
            let item = convert_boxed(alloc, names, item)?;
            Ok(Expr::In { item, list })
        }
        Expression::Call(function, argument) => Ok(Expr::Call {
            function: *function,
            argument: convert_boxed(alloc, names, argument)?,
        }),
        Expression::Bound(variable) => Ok(Expr::Bound(names.number(variable))),
        Expression::SameTerm(left, right) => Ok(Expr::SameTerm {
            left: convert_boxed(alloc, names, left)?,
            right: convert_boxed(alloc, names, right)?,
        }),
        Expression::Variable(variable) => Ok(Expr::Variable(names.number(variable))),
        Expression::Constant(term) => Ok(Expr::Constant(term.copy(alloc)?)),
    }
}

/// Converts an expression: its variables become numbers. Its terms are copied.
///
/// # Errors
/// `AllocError` if an allocation fails.
#[cycle(conversion)]
pub fn convert_boxed(
    alloc: Global,
    names: &Names,
    tree: &Expression,
) -> Result<Box<Expr>, AllocError>
    ensures expression { IfOk result
        (λ expr. expression_of expr.value ≡ translate_expression names.now (tree_of tree.now)) }
{
    Ok(Box::new(alloc, convert(alloc, names, tree)?)?)
}

#[cycle(conversion)]
fn convert_list(alloc: Global, names: &Names, trees: &[Expression]) -> Result<Vec<Expr>, AllocError>
    ensures expressions { IfOk result (λ list. map expression_of list.items
        ≡ map (λ tree. translate_expression names.now (tree_of tree)) trees.now) }
{
    let mut list = Vec::new(alloc);
    for tree in trees {
        list.push(convert(alloc, names, tree)?)?;
    }
    Ok(list)
}
