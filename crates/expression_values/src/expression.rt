//! Expressions over numbered variables (SPARQL 1.1 Query Language, section 17).
use rdf_core::Term;
use sparql_tree::{Comparison, Function};

/// An expression. Its variables are numbers of the variables of the plan.
#[derive(Drop)]
pub enum Expr {
    /// The number of a variable.
    Variable(usize),
    Constant(Term),
    /// `left || right` ([111] `ConditionalOrExpression`).
    Or {
        left: Box<Expr>,
        right: Box<Expr>,
    },
    /// `left && right` ([112] `ConditionalAndExpression`).
    And {
        left: Box<Expr>,
        right: Box<Expr>,
    },
    /// `!inner` ([118] `UnaryExpression`).
    Not(Box<Expr>),
    /// A comparison, such as `left < right` ([114] `RelationalExpression`).
    Compare {
        operator: Comparison,
        left: Box<Expr>,
        right: Box<Expr>,
    },
    /// `item IN (list)` ([114] `RelationalExpression`). NOT IN is its `Not`.
    In {
        item: Box<Expr>,
        list: Vec<Expr>,
    },
    /// A call of a function with one argument, such as STR ([121] `BuiltInCall`).
    Call {
        function: Function,
        argument: Box<Expr>,
    },
    /// BOUND of the variable with this number ([121] `BuiltInCall`).
    Bound(usize),
    /// sameTerm of both ([121] `BuiltInCall`).
    SameTerm {
        left: Box<Expr>,
        right: Box<Expr>,
    },
}
