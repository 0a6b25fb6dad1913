//! The symbols of a machine with a stack, which reads the grammar of sparql_grammar one terminal at
//! a time (SPARQL 1.1 Query Language, section 19.8).

/// A symbol of the stack.
#[derive(Clone, Copy)]
pub enum Symbol {
    // The query: [2] Query, [4] Prologue, [7] SelectQuery, [9] SelectClause
    Query,
    Namespace,
    Reference,
    Distinct,
    Selection,
    Variables,
    Where,
    // [18] SolutionModifier, [25] LimitOffsetClauses
    Modifiers,
    MoreLimit,
    MoreOffset,
    Count,
    // [53] GroupGraphPattern
    Group,
    Body,
    AfterTriples,
    AfterElement,
    MoreUnion,
    GraphName,
    // [75] TriplesSameSubject
    Property,
    Object,
    MoreObjects,
    MoreProperties,
    AfterSemicolon,
    LiteralTail,
    Name,
    // [61] InlineData
    DataBlock,
    Heading,
    Rows,
    Cells,
    Column,
    // [110] Expression
    Condition,
    Bracket,
    Expression,
    Unary,
    Primary,
    MoreRelation,
    MoreLogic,
    In,
    Members,
    FirstMember,
    MoreMembers,
    // One terminal
    Open,
    Close,
    OpenBrace,
    Comma,
    As,
    Variable,
}

/// The step of a symbol for a terminal.
#[derive(Clone, Copy)]
pub enum Step {
    /// The symbol takes the terminal. The symbols of the first list and then those of the second
    /// replace it.
    Take(&'static [Symbol], &'static [Symbol]),
    /// The symbol derives the empty text before this terminal, and is removed from the stack.
    Skip,
    /// The symbol neither takes the terminal nor derives the empty text.
    Stop,
}
