//! The tree of a plan (SPARQL 1.1 Query Language, section 18.2).
use expression_values::Expr;
use rdf_core::Term;

/// A place of a triple pattern: a variable of the plan, a blank node label of the pattern, or a
/// term.
pub enum PatternTerm {
    /// The number of a variable of the plan.
    Variable(usize),
    /// The number of a blank node label of the pattern.
    Label(usize),
    /// A term, which matches only itself.
    Term(Term),
}

impl Drop for PatternTerm {
    /// Written by hand (docs/PROOF.md).
    fn drop(self) {
        match self {
            PatternTerm::Variable(_) | PatternTerm::Label(_) | PatternTerm::Term(_) => {}
        }
    }
}

/// A triple pattern of a basic graph pattern.
#[derive(Drop)]
pub struct TriplePattern {
    /// The term, variable or label at the subject.
    pub subject: PatternTerm,
    /// The term, variable or label at the predicate.
    pub predicate: PatternTerm,
    /// The term, variable or label at the object.
    pub object: PatternTerm,
}

/// The name after GRAPH: an IRI, or a variable that ranges over the names of all named graphs.
pub enum GraphName {
    /// The number of a variable of the plan.
    Variable(usize),
    /// The name of one graph.
    Iri(Term),
}

impl Drop for GraphName {
    /// Implemented by hand, like the `Drop` of [`PatternTerm`].
    fn drop(self) {
        match self {
            GraphName::Variable(_) | GraphName::Iri(_) => {}
        }
    }
}

/// An operator of the algebra with its inputs. Each variant has the name that SPARQL gives it.
#[derive(Drop)]
pub enum Operator {
    /// A basic graph pattern with its number of blank node labels.
    Pattern {
        labels: usize,
        triples: Vec<TriplePattern>,
    },
    /// The merges of the compatible pairs of solutions.
    Join {
        left: Box<Operator>,
        right: Box<Operator>,
    },
    /// The merges that pass the condition, and the left solutions without one.
    LeftJoin {
        left: Box<Operator>,
        right: Box<Operator>,
        condition: Expr,
    },
    /// The solutions of both sides.
    Union {
        left: Box<Operator>,
        right: Box<Operator>,
    },
    /// The left solutions that no right solution removes.
    Minus {
        left: Box<Operator>,
        right: Box<Operator>,
    },
    /// The solutions of the inner tree in one named graph, or in each of them.
    Graph {
        name: GraphName,
        inner: Box<Operator>,
    },
    /// The solutions for which the condition is true.
    Filter {
        condition: Expr,
        inner: Box<Operator>,
    },
    /// Binds the variable to the value of the expression.
    Extend {
        variable: usize,
        expression: Expr,
        inner: Box<Operator>,
    },
    /// Keeps the listed variables.
    Project {
        variables: Vec<usize>,
        inner: Box<Operator>,
    },
    /// Each solution once.
    Distinct {
        inner: Box<Operator>,
    },
    /// The rows of VALUES over these variables; UNDEF is None.
    Table {
        variables: Vec<usize>,
        rows: Vec<Vec<Option<Term>>>,
    },
}
