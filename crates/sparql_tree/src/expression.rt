//! The tree of an expression (SPARQL 1.1 Query Language, section 19.8, from [110] `Expression` on).

use rdf_core::{Term, Text};

/// The operators that compare two values ([114] `RelationalExpression`).
#[derive(Clone, Copy)]
pub enum Comparison {
    Equal,
    NotEqual,
    Less,
    Greater,
    LessOrEqual,
    GreaterOrEqual,
}

/// The functions of one argument ([121] `BuiltInCall`).
#[derive(Clone, Copy)]
pub enum Function {
    Str,
    Lang,
    Datatype,
    IsIri,
    IsBlank,
    IsLiteral,
}

/// An expression ([110] `Expression`). `x NOT IN (..)` is represented as `Not` of `In`, which has
/// the same meaning.
pub enum Expression {
    /// `left || right` ([111] `ConditionalOrExpression`)
    Or(Box<Expression>, Box<Expression>),
    /// `left && right` ([112] `ConditionalAndExpression`)
    And(Box<Expression>, Box<Expression>),
    /// `!inner` ([118] `UnaryExpression`)
    Not(Box<Expression>),
    /// `left = right` and the other comparisons ([114] `RelationalExpression`)
    Compare(Comparison, Box<Expression>, Box<Expression>),
    /// `value IN (..)`, with the members in their order ([114] `RelationalExpression`)
    In(Box<Expression>, Vec<Expression>),
    /// `STR(inner)` and the other functions of one argument ([121] `BuiltInCall`)
    Call(Function, Box<Expression>),
    /// `BOUND(?name)`, by the name without `?` or `$`
    Bound(Text),
    /// `sameTerm(left, right)`
    SameTerm(Box<Expression>, Box<Expression>),
    /// `?name`, by the name without `?` or `$` ([108] `Var`)
    Variable(Text),
    /// An IRI or a literal
    Constant(Term),
}

impl Drop for Expression {
    /// Drops the left operands of `||` and `&&` in a loop, so that a long chain needs no deep
    /// stack.
    fn drop(mut self) {
        loop {
            match self {
                Expression::Or(left, _right) | Expression::And(left, _right) => {
                    self = Box::into_inner(left);
                }
                Expression::Not(_)
                | Expression::Compare(_, _, _)
                | Expression::In(_, _)
                | Expression::Call(_, _)
                | Expression::Bound(_)
                | Expression::SameTerm(_, _)
                | Expression::Variable(_)
                | Expression::Constant(_) => return,
            }
        }
    }
}
