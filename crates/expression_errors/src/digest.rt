//! Digests of expressions, by which an evaluation finds the counts of an expression.
use expression_values::Expr;
use std::alloc::{AllocError, Global};
use std::hash::{DefaultHasher, Hash, Hasher};

/// The operator that an expression belongs to.
#[derive(Clone, Copy)]
pub enum Owner {
    Filter,
    LeftJoin,
    /// Extend of the variable with this number.
    Extend(usize),
}

/// Returns the digest of an operator's expression. Equal expressions of equal owners have equal
/// digests; others have different ones, but for a chance of about one in 2^64.
///
/// # Errors
/// `AllocError` if an allocation fails.
pub fn digest_of(alloc: Global, owner: Owner, expr: &Expr) -> Result<u64, AllocError> {
    let mut hasher = DefaultHasher::new();
    owner_number(owner).hash(&mut hasher);
    let mut rest = Vec::new(alloc);
    rest.push(expr)?;
    for _ in 0..u64::MAX {
        let Some(part) = rest.pop() else {
            break;
        };
        add(&mut hasher, part);
        push_operands(&mut rest, part)?;
    }
    Ok(hasher.finish())
}

fn owner_number(owner: Owner) -> (u8, usize) {
    match owner {
        Owner::Filter => (0, 0),
        Owner::LeftJoin => (1, 0),
        Owner::Extend(variable) => (2, variable),
    }
}

/// Adds the root of an expression, with the number of its operands.
fn add(hasher: &mut DefaultHasher, part: &Expr) {
    root_number(part).hash(hasher);
    if let Expr::Constant(term) = part {
        term.hash(hasher);
    }
}

/// Returns the number of the root's kind, and what is known of the root besides its operands and its term.
fn root_number(part: &Expr) -> (u8, usize) {
    match part {
        Expr::Variable(variable) => (0, *variable),
        Expr::Constant(_) => (1, 0),
        Expr::Or { .. } => (2, 0),
        Expr::And { .. } => (3, 0),
        Expr::Not(_) => (4, 0),
        Expr::Compare { operator, .. } => (5, *operator as usize),
        Expr::In { list, .. } => (6, list.len()),
        Expr::Call { function, .. } => (7, *function as usize),
        Expr::Bound(variable) => (8, *variable),
        Expr::SameTerm { .. } => (9, 0),
    }
}

/// Returns the first two operands of an expression, if it has them, and the further ones.
fn operands_of(part: &Expr) -> (Option<&Expr>, Option<&Expr>, &[Expr]) {
    match part {
        Expr::Variable(_) | Expr::Constant(_) | Expr::Bound(_) => (None, None, &[]),
        Expr::Or { left, right }
        | Expr::And { left, right }
        | Expr::Compare { left, right, .. }
        | Expr::SameTerm { left, right } => (Some(left), Some(right), &[]),
        Expr::Not(inner) => (Some(inner), None, &[]),
        Expr::Call { argument, .. } => (Some(argument), None, &[]),
        Expr::In { item, list } => (Some(item), None, list),
    }
}

/// Appends the operands of an expression.
fn push_operands<'a>(rest: &mut Vec<&'a Expr>, part: &'a Expr) -> Result<(), AllocError> {
    let (first, second, others) = operands_of(part);
    if let Some(operand) = first {
        rest.push(operand)?;
    }
    if let Some(operand) = second {
        rest.push(operand)?;
    }
    for operand in others {
        rest.push(operand)?;
    }
    Ok(())
}
