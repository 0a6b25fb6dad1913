//! The grammar as tables: the terminals that each symbol takes, and the symbols that replace it
//! (SPARQL 1.1 Query Language, section 19.8).

ghost use Rattle.std.specs.Prelude.{◌≡◌, true, false};
ghost use Rattle.query_diagnosis.specs.Symbols.{is_optional};
ghost use Rattle.query_diagnosis.specs.declared.symbol.Step.TheVariants.{Skip, Stop};

use crate::completion::end_of;
use crate::symbol::{Step, Symbol};
use sparql_lexer::{Keyword, Kind, Sign};

/// A class of terminals.
#[derive(Clone, Copy)]
enum Class {
    /// The terminals of one kind
    Only(Kind),
    /// [136] iri: an [139] IRIREF or a prefixed name
    Name,
    /// [130] NumericLiteral and [134] BooleanLiteral
    Number,
    /// [135] String
    Text,
    /// The names of the functions in [121] BuiltInCall that have one expression
    Function,
    /// The comparison operators of [114] RelationalExpression
    Comparison,
}

/// The terminals of [136] iri.
const NAMES: &[Kind] = &[Kind::IriRef, Kind::PrefixedName, Kind::PrefixedNamespace];

/// The terminals of [130] NumericLiteral and [134] BooleanLiteral.
const NUMBERS: &[Kind] = &[
    Kind::Integer,
    Kind::Decimal,
    Kind::Double,
    Kind::SignedInteger,
    Kind::SignedDecimal,
    Kind::SignedDouble,
    Kind::Keyword(Keyword::True),
    Kind::Keyword(Keyword::False),
];

/// The terminals of [135] String.
const STRINGS: &[Kind] = &[Kind::ShortString, Kind::LongString];

/// The names of functions with one expression.
const FUNCTIONS: &[Kind] = &[
    Kind::Keyword(Keyword::Str),
    Kind::Keyword(Keyword::Lang),
    Kind::Keyword(Keyword::Datatype),
    Kind::Keyword(Keyword::IsIri),
    Kind::Keyword(Keyword::IsBlank),
    Kind::Keyword(Keyword::IsLiteral),
];

/// The comparison operators.
const COMPARISONS: &[Kind] = &[
    Kind::Sign(Sign::Equal),
    Kind::Sign(Sign::NotEqual),
    Kind::Sign(Sign::Less),
    Kind::Sign(Sign::Greater),
    Kind::Sign(Sign::LessOrEqual),
    Kind::Sign(Sign::GreaterOrEqual),
];

/// Terminals that a symbol takes, and the symbols that replace it.
type Rule = (Class, &'static [Symbol]);

/// Rules, and the symbols that follow those of each rule.
type Rules = (&'static [Rule], &'static [Symbol]);

/// [2] Query: [6] PrefixDecl and [7] SelectQuery.
const QUERY: &[Rule] = &[
    (
        Class::Only(Kind::Keyword(Keyword::Prefix)),
        &[Symbol::Namespace, Symbol::Reference, Symbol::Query],
    ),
    (
        Class::Only(Kind::Keyword(Keyword::Select)),
        &[Symbol::Distinct],
    ),
];

/// DISTINCT.
const DISTINCT: &[Rule] = &[(
    Class::Only(Kind::Keyword(Keyword::Distinct)),
    &[Symbol::Selection],
)];

/// [9] SelectClause, after SELECT and DISTINCT.
const SELECTION: &[Rule] = &[
    (Class::Only(Kind::Sign(Sign::Star)), &[Symbol::Where]),
    (Class::Only(Kind::Variable), &[Symbol::Variables]),
];

/// A variable of [9] SelectClause.
const VARIABLES: &[Rule] = &[(Class::Only(Kind::Variable), &[Symbol::Variables])];

/// [17] WhereClause, and what follows it.
const WHERE: &[Rule] = &[
    (
        Class::Only(Kind::Keyword(Keyword::Where)),
        &[Symbol::Group, Symbol::Modifiers],
    ),
    (
        Class::Only(Kind::Sign(Sign::OpenBrace)),
        &[Symbol::Body, Symbol::Modifiers],
    ),
];

/// [25] LimitOffsetClauses.
const MODIFIERS: &[Rule] = &[
    (
        Class::Only(Kind::Keyword(Keyword::Limit)),
        &[Symbol::Count, Symbol::MoreOffset],
    ),
    (
        Class::Only(Kind::Keyword(Keyword::Offset)),
        &[Symbol::Count, Symbol::MoreLimit],
    ),
];

/// [26] LimitClause.
const LIMIT: &[Rule] = &[(Class::Only(Kind::Keyword(Keyword::Limit)), &[Symbol::Count])];

/// [27] OffsetClause.
const OFFSET: &[Rule] = &[(
    Class::Only(Kind::Keyword(Keyword::Offset)),
    &[Symbol::Count],
)];

/// [53] GroupGraphPattern.
const GROUP: &[Rule] = &[(Class::Only(Kind::Sign(Sign::OpenBrace)), &[Symbol::Body])];

/// The end of a group.
const END: &[Rule] = &[(Class::Only(Kind::Sign(Sign::CloseBrace)), &[])];

/// The dot after triples or another element.
const DOT: &[Rule] = &[(Class::Only(Kind::Sign(Sign::Dot)), &[Symbol::Body])];

/// [56] GraphPatternNotTriples.
const ELEMENT: &[Rule] = &[
    (
        Class::Only(Kind::Sign(Sign::OpenBrace)),
        &[Symbol::Body, Symbol::MoreUnion],
    ),
    (
        Class::Only(Kind::Keyword(Keyword::Optional)),
        &[Symbol::Group],
    ),
    (Class::Only(Kind::Keyword(Keyword::Minus)), &[Symbol::Group]),
    (
        Class::Only(Kind::Keyword(Keyword::Graph)),
        &[Symbol::GraphName, Symbol::Group],
    ),
    (
        Class::Only(Kind::Keyword(Keyword::Filter)),
        &[Symbol::Condition],
    ),
    (
        Class::Only(Kind::Keyword(Keyword::Bind)),
        &[
            Symbol::Open,
            Symbol::Expression,
            Symbol::As,
            Symbol::Variable,
            Symbol::Close,
        ],
    ),
    (
        Class::Only(Kind::Keyword(Keyword::Values)),
        &[Symbol::DataBlock],
    ),
];

/// A further group of a [67] GroupOrUnionGraphPattern.
const UNION: &[Rule] = &[(
    Class::Only(Kind::Keyword(Keyword::Union)),
    &[Symbol::Group, Symbol::MoreUnion],
)];

/// [107] VarOrIri.
const VARIABLE_OR_NAME: &[Rule] = &[(Class::Only(Kind::Variable), &[]), (Class::Name, &[])];

/// [78] Verb.
const VERB: &[Rule] = &[
    (Class::Only(Kind::Variable), &[]),
    (Class::Name, &[]),
    (Class::Only(Kind::Keyword(Keyword::A)), &[]),
];

/// [109] GraphTerm without blank nodes.
const CONSTANT: &[Rule] = &[
    (Class::Name, &[]),
    (Class::Number, &[]),
    (Class::Text, &[Symbol::LiteralTail]),
];

/// [106] VarOrTerm, if it is a variable or a blank node.
const NODE: &[Rule] = &[
    (Class::Only(Kind::Variable), &[]),
    (Class::Only(Kind::BlankLabel), &[]),
    (Class::Only(Kind::Anonymous), &[]),
];

/// A further object of an [79] ObjectList.
const MORE_OBJECTS: &[Rule] = &[(
    Class::Only(Kind::Sign(Sign::Comma)),
    &[Symbol::Object, Symbol::MoreObjects],
)];

/// A further verb of a [77] PropertyListNotEmpty.
const MORE_PROPERTIES: &[Rule] = &[(
    Class::Only(Kind::Sign(Sign::Semicolon)),
    &[Symbol::AfterSemicolon],
)];

/// The end of an [129] RDFLiteral, after the string.
const LITERAL_TAIL: &[Rule] = &[
    (Class::Only(Kind::LanguageTag), &[]),
    (Class::Only(Kind::Sign(Sign::Carets)), &[Symbol::Name]),
];

/// [136] iri.
const NAME: &[Rule] = &[(Class::Name, &[])];

/// [62] DataBlock.
const DATA_BLOCK: &[Rule] = &[
    (
        Class::Only(Kind::Variable),
        &[Symbol::OpenBrace, Symbol::Column],
    ),
    (
        Class::Only(Kind::Sign(Sign::OpenParenthesis)),
        &[Symbol::Heading],
    ),
];

/// The list of variables of an [64] InlineDataFull.
const HEADING: &[Rule] = &[
    (Class::Only(Kind::Variable), &[Symbol::Heading]),
    (
        Class::Only(Kind::Sign(Sign::CloseParenthesis)),
        &[Symbol::OpenBrace, Symbol::Rows],
    ),
];

/// The rows of an [64] InlineDataFull.
const ROWS: &[Rule] = &[
    (Class::Only(Kind::Sign(Sign::CloseBrace)), &[]),
    (
        Class::Only(Kind::Sign(Sign::OpenParenthesis)),
        &[Symbol::Cells, Symbol::Rows],
    ),
];

/// UNDEF.
const UNDEF: &[Rule] = &[(Class::Only(Kind::Keyword(Keyword::Undef)), &[])];

/// [120] BrackettedExpression.
const BRACKET: &[Rule] = &[(
    Class::Only(Kind::Sign(Sign::OpenParenthesis)),
    &[Symbol::Expression, Symbol::Close],
)];

/// [121] BuiltInCall.
const CALL: &[Rule] = &[
    (Class::Function, &[Symbol::Bracket]),
    (
        Class::Only(Kind::Keyword(Keyword::Bound)),
        &[Symbol::Open, Symbol::Variable, Symbol::Close],
    ),
    (
        Class::Only(Kind::Keyword(Keyword::SameTerm)),
        &[
            Symbol::Open,
            Symbol::Expression,
            Symbol::Comma,
            Symbol::Expression,
            Symbol::Close,
        ],
    ),
];

/// [118] UnaryExpression with `!`.
const NOT: &[Rule] = &[(Class::Only(Kind::Sign(Sign::Not)), &[Symbol::Primary])];

/// [108] Var.
const VARIABLE: &[Rule] = &[(Class::Only(Kind::Variable), &[])];

/// The second operand of a [114] RelationalExpression.
const RELATION: &[Rule] = &[
    (Class::Comparison, &[Symbol::Unary]),
    (Class::Only(Kind::Keyword(Keyword::In)), &[Symbol::Members]),
    (Class::Only(Kind::Keyword(Keyword::Not)), &[Symbol::In]),
];

/// A further operand of a [111] ConditionalOrExpression or [112] ConditionalAndExpression.
const LOGIC: &[Rule] = &[
    (Class::Only(Kind::Sign(Sign::And)), &[Symbol::Expression]),
    (Class::Only(Kind::Sign(Sign::Or)), &[Symbol::Expression]),
];

/// IN, after NOT.
const IN: &[Rule] = &[(Class::Only(Kind::Keyword(Keyword::In)), &[Symbol::Members])];

/// [72] ExpressionList.
const MEMBERS: &[Rule] = &[(
    Class::Only(Kind::Sign(Sign::OpenParenthesis)),
    &[Symbol::FirstMember],
)];

/// A further expression of an [72] ExpressionList.
const MORE_MEMBERS: &[Rule] = &[(
    Class::Only(Kind::Sign(Sign::Comma)),
    &[Symbol::Expression, Symbol::MoreMembers],
)];

/// `(`.
const OPEN: &[Rule] = &[(Class::Only(Kind::Sign(Sign::OpenParenthesis)), &[])];

/// `)`.
const CLOSE: &[Rule] = &[(Class::Only(Kind::Sign(Sign::CloseParenthesis)), &[])];

/// `{`.
const OPEN_BRACE: &[Rule] = &[(Class::Only(Kind::Sign(Sign::OpenBrace)), &[])];

/// `,`.
const COMMA: &[Rule] = &[(Class::Only(Kind::Sign(Sign::Comma)), &[])];

/// AS.
const AS: &[Rule] = &[(Class::Only(Kind::Keyword(Keyword::As)), &[])];

/// [140] PNAME_NS.
const NAMESPACE: &[Rule] = &[(Class::Only(Kind::PrefixedNamespace), &[])];

/// [139] IRIREF.
const REFERENCE: &[Rule] = &[(Class::Only(Kind::IriRef), &[])];

/// [146] INTEGER.
const COUNT: &[Rule] = &[(Class::Only(Kind::Integer), &[])];

/// The rules of each symbol. No two rules of a symbol are for the same terminal.
const OF_QUERY: &[Rules] = &[(QUERY, &[])];

const OF_NAMESPACE: &[Rules] = &[(NAMESPACE, &[])];

const OF_REFERENCE: &[Rules] = &[(REFERENCE, &[])];

const OF_DISTINCT: &[Rules] = &[(DISTINCT, &[]), (SELECTION, &[])];

const OF_SELECTION: &[Rules] = &[(SELECTION, &[])];

const OF_VARIABLES: &[Rules] = &[(VARIABLES, &[]), (WHERE, &[])];

const OF_WHERE: &[Rules] = &[(WHERE, &[])];

const OF_MODIFIERS: &[Rules] = &[(MODIFIERS, &[])];

const OF_MORE_LIMIT: &[Rules] = &[(LIMIT, &[])];

const OF_MORE_OFFSET: &[Rules] = &[(OFFSET, &[])];

const OF_COUNT: &[Rules] = &[(COUNT, &[])];

const OF_GROUP: &[Rules] = &[(GROUP, &[])];

const OF_BODY: &[Rules] = &[
    (
        NODE,
        &[
            Symbol::Property,
            Symbol::MoreProperties,
            Symbol::AfterTriples,
        ],
    ),
    (
        CONSTANT,
        &[
            Symbol::Property,
            Symbol::MoreProperties,
            Symbol::AfterTriples,
        ],
    ),
    (END, &[]),
    (ELEMENT, &[Symbol::AfterElement]),
];

const OF_AFTER_TRIPLES: &[Rules] = &[(DOT, &[]), (END, &[]), (ELEMENT, &[Symbol::AfterElement])];

const OF_AFTER_ELEMENT: &[Rules] = &[
    (DOT, &[]),
    (
        NODE,
        &[
            Symbol::Property,
            Symbol::MoreProperties,
            Symbol::AfterTriples,
        ],
    ),
    (
        CONSTANT,
        &[
            Symbol::Property,
            Symbol::MoreProperties,
            Symbol::AfterTriples,
        ],
    ),
    (END, &[]),
    (ELEMENT, &[Symbol::AfterElement]),
];

const OF_MORE_UNION: &[Rules] = &[(UNION, &[])];

const OF_GRAPH_NAME: &[Rules] = &[(VARIABLE_OR_NAME, &[])];

const OF_PROPERTY: &[Rules] = &[(VERB, &[Symbol::Object, Symbol::MoreObjects])];

const OF_OBJECT: &[Rules] = &[(NODE, &[]), (CONSTANT, &[])];

const OF_MORE_OBJECTS: &[Rules] = &[(MORE_OBJECTS, &[])];

const OF_MORE_PROPERTIES: &[Rules] = &[(MORE_PROPERTIES, &[])];

const OF_AFTER_SEMICOLON: &[Rules] = &[
    (
        VERB,
        &[Symbol::Object, Symbol::MoreObjects, Symbol::MoreProperties],
    ),
    (MORE_PROPERTIES, &[]),
];

const OF_LITERAL_TAIL: &[Rules] = &[(LITERAL_TAIL, &[])];

const OF_NAME: &[Rules] = &[(NAME, &[])];

const OF_DATA_BLOCK: &[Rules] = &[(DATA_BLOCK, &[])];

const OF_HEADING: &[Rules] = &[(HEADING, &[])];

const OF_ROWS: &[Rules] = &[(ROWS, &[])];

const OF_CELLS: &[Rules] = &[
    (CLOSE, &[]),
    (UNDEF, &[Symbol::Cells]),
    (CONSTANT, &[Symbol::Cells]),
];

const OF_COLUMN: &[Rules] = &[
    (END, &[]),
    (UNDEF, &[Symbol::Column]),
    (CONSTANT, &[Symbol::Column]),
];

const OF_CONDITION: &[Rules] = &[(BRACKET, &[]), (CALL, &[])];

const OF_BRACKET: &[Rules] = &[(BRACKET, &[])];

const OF_EXPRESSION: &[Rules] = &[
    (NOT, &[Symbol::MoreRelation, Symbol::MoreLogic]),
    (BRACKET, &[Symbol::MoreRelation, Symbol::MoreLogic]),
    (CALL, &[Symbol::MoreRelation, Symbol::MoreLogic]),
    (VARIABLE, &[Symbol::MoreRelation, Symbol::MoreLogic]),
    (CONSTANT, &[Symbol::MoreRelation, Symbol::MoreLogic]),
];

const OF_UNARY: &[Rules] = &[
    (NOT, &[]),
    (BRACKET, &[]),
    (CALL, &[]),
    (VARIABLE, &[]),
    (CONSTANT, &[]),
];

const OF_PRIMARY: &[Rules] = &[
    (BRACKET, &[]),
    (CALL, &[]),
    (VARIABLE, &[]),
    (CONSTANT, &[]),
];

const OF_MORE_RELATION: &[Rules] = &[(RELATION, &[])];

const OF_MORE_LOGIC: &[Rules] = &[(LOGIC, &[])];

const OF_IN: &[Rules] = &[(IN, &[])];

const OF_MEMBERS: &[Rules] = &[(MEMBERS, &[])];

const OF_FIRST_MEMBER: &[Rules] = &[
    (CLOSE, &[]),
    (
        NOT,
        &[Symbol::MoreRelation, Symbol::MoreLogic, Symbol::MoreMembers],
    ),
    (
        BRACKET,
        &[Symbol::MoreRelation, Symbol::MoreLogic, Symbol::MoreMembers],
    ),
    (
        CALL,
        &[Symbol::MoreRelation, Symbol::MoreLogic, Symbol::MoreMembers],
    ),
    (
        VARIABLE,
        &[Symbol::MoreRelation, Symbol::MoreLogic, Symbol::MoreMembers],
    ),
    (
        CONSTANT,
        &[Symbol::MoreRelation, Symbol::MoreLogic, Symbol::MoreMembers],
    ),
];

const OF_MORE_MEMBERS: &[Rules] = &[(CLOSE, &[]), (MORE_MEMBERS, &[])];

const OF_OPEN: &[Rules] = &[(OPEN, &[])];

const OF_CLOSE: &[Rules] = &[(CLOSE, &[])];

const OF_OPEN_BRACE: &[Rules] = &[(OPEN_BRACE, &[])];

const OF_COMMA: &[Rules] = &[(COMMA, &[])];

const OF_AS: &[Rules] = &[(AS, &[])];

const OF_VARIABLE: &[Rules] = &[(VARIABLE, &[])];

/// Returns the rules of a symbol.
fn rules_of(symbol: Symbol) -> &'static [Rules] {
    match symbol {
        Symbol::Query => OF_QUERY,
        Symbol::Namespace => OF_NAMESPACE,
        Symbol::Reference => OF_REFERENCE,
        Symbol::Distinct => OF_DISTINCT,
        Symbol::Selection => OF_SELECTION,
        Symbol::Variables => OF_VARIABLES,
        Symbol::Where => OF_WHERE,
        Symbol::Modifiers => OF_MODIFIERS,
        Symbol::MoreLimit => OF_MORE_LIMIT,
        Symbol::MoreOffset => OF_MORE_OFFSET,
        Symbol::Count => OF_COUNT,
        Symbol::Group => OF_GROUP,
        Symbol::Body => OF_BODY,
        Symbol::AfterTriples => OF_AFTER_TRIPLES,
        Symbol::AfterElement => OF_AFTER_ELEMENT,
        Symbol::MoreUnion => OF_MORE_UNION,
        Symbol::GraphName => OF_GRAPH_NAME,
        Symbol::Property => OF_PROPERTY,
        Symbol::Object => OF_OBJECT,
        Symbol::MoreObjects => OF_MORE_OBJECTS,
        Symbol::MoreProperties => OF_MORE_PROPERTIES,
        Symbol::AfterSemicolon => OF_AFTER_SEMICOLON,
        Symbol::LiteralTail => OF_LITERAL_TAIL,
        Symbol::Name => OF_NAME,
        Symbol::DataBlock => OF_DATA_BLOCK,
        Symbol::Heading => OF_HEADING,
        Symbol::Rows => OF_ROWS,
        Symbol::Cells => OF_CELLS,
        Symbol::Column => OF_COLUMN,
        Symbol::Condition => OF_CONDITION,
        Symbol::Bracket => OF_BRACKET,
        Symbol::Expression => OF_EXPRESSION,
        Symbol::Unary => OF_UNARY,
        Symbol::Primary => OF_PRIMARY,
        Symbol::MoreRelation => OF_MORE_RELATION,
        Symbol::MoreLogic => OF_MORE_LOGIC,
        Symbol::In => OF_IN,
        Symbol::Members => OF_MEMBERS,
        Symbol::FirstMember => OF_FIRST_MEMBER,
        Symbol::MoreMembers => OF_MORE_MEMBERS,
        Symbol::Open => OF_OPEN,
        Symbol::Close => OF_CLOSE,
        Symbol::OpenBrace => OF_OPEN_BRACE,
        Symbol::Comma => OF_COMMA,
        Symbol::As => OF_AS,
        Symbol::Variable => OF_VARIABLE,
    }
}

/// Returns whether a terminal is in a class.
fn is_in(class: Class, kind: Kind) -> bool {
    match class {
        Class::Only(own) => own == kind,
        Class::Name => NAMES.contains(&kind),
        Class::Number => NUMBERS.contains(&kind),
        Class::Text => STRINGS.contains(&kind),
        Class::Function => FUNCTIONS.contains(&kind),
        Class::Comparison => COMPARISONS.contains(&kind),
    }
}

/// Returns the symbols of the rule for a terminal of this kind, or None if there is no such rule.
fn replacement(rules: &[Rule], kind: Kind) -> Option<&'static [Symbol]> {
    for rule in rules {
        if is_in(rule.0, kind) {
            return Some(rule.1);
        }
    }
    None
}

/// Returns the step of a symbol for a terminal of this kind.
pub fn step(symbol: Symbol, kind: Kind) -> Step
    ensures skips { result ≡ Skip → is_optional symbol ≡ true }
    ensures stops { result ≡ Stop → is_optional symbol ≡ false }
{
    for rules in rules_of(symbol) {
        if let Some(first) = replacement(rules.0, kind) {
            return Step::Take(first, rules.1);
        }
    }
    if end_of(symbol).is_empty() {
        Step::Skip
    } else {
        Step::Stop
    }
}
