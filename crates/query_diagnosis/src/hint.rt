//! The hints for a rejected query.

use std::fmt;

/// What a user can write instead.
#[derive(Clone, Copy)]
pub enum Hint {
    OrderBy,
    Aggregate,
    Reduced,
    SelectExpression,
    Path,
    Function,
    IsUri,
    LangMatches,
    Arithmetic,
    From,
    Base,
    Ask,
    Construct,
    Describe,
    Update,
    Subquery,
    NotExists,
    Exists,
    TrailingValues,
    PropertyList,
    Collection,
    Service,
    Cast,
    SpaceAfterLess,
    NoIri,
    QuotedTriple,
    NoCommas,
    Parentheses,
    EmptyQuery,
    ByteOrderMark,
    Declare,
    WholeIri,
    OtherVariable,
    VariableForBlank,
    AngleBrackets,
    StraightQuotes,
    Prologue,
    QuestionMark,
    Logic,
    OneEqual,
    NotEqual,
    HyphenInTag,
    Union,
    Dot,
}

const ORDER_BY: &str =
    "ORDER BY is not supported; rows are always ordered by the selected variables";

const AGGREGATE: &str =
    "COUNT, GROUP BY and other aggregates are not supported; select the rows and count them, for instance with jq '.results.bindings | length'";

const REDUCED: &str = "REDUCED is not supported; leave it out, or write DISTINCT";

const SELECT_EXPRESSION: &str =
    "expressions in SELECT are not supported; write BIND (expression AS ?name) in the group";

const PATH: &str =
    "property paths are not supported; write a path of fixed length as triples, as in ?x <p> ?y . ?y <q> ?z";

const FUNCTION: &str =
    "REGEX and functions on strings, numbers and dates are not supported; select the values and filter the results, for instance with jq";

const IS_URI: &str = "isURI is not supported; write isIRI";

const LANG_MATCHES: &str = "langMatches is not supported; write LANG(?x) = \"en\"";

const ARITHMETIC: &str =
    "arithmetic is not supported; select the values and compute with the results, for instance with jq";

const FROM: &str =
    "FROM is not supported; the dataset is standard input, and GRAPH <name> { .. } selects a graph";

const BASE: &str = "BASE is not supported; write whole IRIs, or declare a prefix";

const ASK: &str = "ASK is not supported; write SELECT * { .. } LIMIT 1";

const CONSTRUCT: &str =
    "CONSTRUCT is not supported; write SELECT with the variables of the template";

const DESCRIBE: &str = "DESCRIBE is not supported; write SELECT ?p ?o { <iri> ?p ?o }";

const UPDATE: &str = "updates are not supported; spq only reads";

const SUBQUERY: &str =
    "subqueries are not supported; write the patterns of the subquery into the group";

const NOT_EXISTS: &str = "NOT EXISTS is not supported; write MINUS { .. }";

const EXISTS: &str =
    "EXISTS is not supported; write its pattern into the group, and SELECT DISTINCT";

const TRAILING_VALUES: &str =
    "VALUES after the pattern is not supported; write it inside the group";

const PROPERTY_LIST: &str =
    "[ .. ] with properties is not supported; write a blank node label, as in _:b <p> ?o";

const COLLECTION: &str =
    "collections ( .. ) are not supported; write their triples with rdf:first and rdf:rest";

const SERVICE: &str = "SERVICE is not supported; the dataset is standard input alone";

const CAST: &str =
    "casts and other calls by IRI are not supported; numbers are compared by value without a cast";

const SPACE_AFTER_LESS: &str = "this is read as an IRI; write a space after '<'";

const NO_IRI: &str =
    "this '<' begins no IRI: an IRI has no spaces, quotes or braces before its '>'";

const QUOTED_TRIPLE: &str = "quoted triples (RDF-star) are not supported";

const NO_COMMAS: &str = "write the variables without commas";

const PARENTHESES: &str = "put the condition in parentheses, as in FILTER (!BOUND(?x))";

const EMPTY_QUERY: &str =
    "the query is empty: with --query \"$(cat FILE)\", check that FILE exists";

const BYTE_ORDER_MARK: &str = "remove this byte order mark (save the file as UTF-8 without one)";

const DECLARE: &str = "declare it before SELECT, as in PREFIX ex: <http://example.org/>";

const WHOLE_IRI: &str = "there is no BASE: write the whole IRI, as <http://example.org/name>";

const OTHER_VARIABLE: &str = "write another variable after AS";

const VARIABLE_FOR_BLANK: &str = "write a variable in place of the label";

const ANGLE_BRACKETS: &str = "write an IRI in angle brackets, as <http://example.org/name>";

const STRAIGHT_QUOTES: &str = "write a string in straight quotes, as \"text\"";

const PROLOGUE: &str =
    "a declaration has no '@' and no '.' or ';' at its end: PREFIX ex: <http://example.org/>";

const QUESTION_MARK: &str = "a variable begins with '?'";

const LOGIC: &str = "write && for AND, || for OR, and ! for NOT";

const ONE_EQUAL: &str = "write a single '=' for equality";

const NOT_EQUAL: &str = "write != for inequality";

const HYPHEN_IN_TAG: &str = "a language tag has hyphens, as in @en-US";

const UNION: &str = "UNION is between two groups: { .. } UNION { .. }";

const DOT: &str = "write '.' between two triples";

impl Hint {
    fn words(self) -> &'static str {
        match self {
            Hint::OrderBy => ORDER_BY,
            Hint::Aggregate => AGGREGATE,
            Hint::Reduced => REDUCED,
            Hint::SelectExpression => SELECT_EXPRESSION,
            Hint::Path => PATH,
            Hint::Function => FUNCTION,
            Hint::IsUri => IS_URI,
            Hint::LangMatches => LANG_MATCHES,
            Hint::Arithmetic => ARITHMETIC,
            Hint::From => FROM,
            Hint::Base => BASE,
            Hint::Ask => ASK,
            Hint::Construct => CONSTRUCT,
            Hint::Describe => DESCRIBE,
            Hint::Update => UPDATE,
            Hint::Subquery => SUBQUERY,
            Hint::NotExists => NOT_EXISTS,
            Hint::Exists => EXISTS,
            Hint::TrailingValues => TRAILING_VALUES,
            Hint::PropertyList => PROPERTY_LIST,
            Hint::Collection => COLLECTION,
            Hint::Service => SERVICE,
            Hint::Cast => CAST,
            Hint::SpaceAfterLess => SPACE_AFTER_LESS,
            Hint::NoIri => NO_IRI,
            Hint::QuotedTriple => QUOTED_TRIPLE,
            Hint::NoCommas => NO_COMMAS,
            Hint::Parentheses => PARENTHESES,
            Hint::EmptyQuery => EMPTY_QUERY,
            Hint::ByteOrderMark => BYTE_ORDER_MARK,
            Hint::Declare => DECLARE,
            Hint::WholeIri => WHOLE_IRI,
            Hint::OtherVariable => OTHER_VARIABLE,
            Hint::VariableForBlank => VARIABLE_FOR_BLANK,
            Hint::AngleBrackets => ANGLE_BRACKETS,
            Hint::StraightQuotes => STRAIGHT_QUOTES,
            Hint::Prologue => PROLOGUE,
            Hint::QuestionMark => QUESTION_MARK,
            Hint::Logic => LOGIC,
            Hint::OneEqual => ONE_EQUAL,
            Hint::NotEqual => NOT_EQUAL,
            Hint::HyphenInTag => HYPHEN_IN_TAG,
            Hint::Union => UNION,
            Hint::Dot => DOT,
        }
    }
}

impl fmt::Display for Hint {
    fn fmt<W: fmt::Write>(&self, f: &mut fmt::Formatter<W>) -> fmt::Result {
        f.write_str(self.words())
    }
}
