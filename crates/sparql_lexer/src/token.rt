//! The terminals of a query (SPARQL 1.1 Query Language, section 19.8).

/// A sign of one or two characters.
#[derive(Clone, Copy, PartialEq, Eq)]
pub enum Sign {
    OpenBrace,
    CloseBrace,
    OpenParenthesis,
    CloseParenthesis,
    Dot,
    Semicolon,
    Comma,
    Star,
    Equal,
    NotEqual,
    Less,
    Greater,
    LessOrEqual,
    GreaterOrEqual,
    Not,
    And,
    Or,
    Carets,
}

/// A keyword. Its case does not matter, except that `A` is the lower case `a`.
#[derive(Clone, Copy, PartialEq, Eq)]
pub enum Keyword {
    A,
    As,
    Bind,
    Bound,
    Datatype,
    Distinct,
    False,
    Filter,
    Graph,
    In,
    IsBlank,
    IsIri,
    IsLiteral,
    Lang,
    Limit,
    Minus,
    Not,
    Offset,
    Optional,
    Prefix,
    SameTerm,
    Select,
    Str,
    True,
    Undef,
    Union,
    Values,
    Where,
}

/// The kind of a terminal.
#[derive(Clone, Copy, PartialEq, Eq)]
pub enum Kind {
    /// [139] IRIREF, as `<http://example.org/>`.
    IriRef,
    /// [143] VAR1 or [144] VAR2, as `?name` or `$name`.
    Variable,
    /// [140] PNAME_NS, as `name:` or `:`.
    PrefixedNamespace,
    /// [141] PNAME_LN, as `name:local` or `:local`.
    PrefixedName,
    /// [142] BLANK_NODE_LABEL, as `_:label`.
    BlankLabel,
    /// [163] ANON, as `[ ]`.
    Anonymous,
    /// [145] LANGTAG, as `@en-gb`.
    LanguageTag,
    /// [146] INTEGER, as `1`.
    Integer,
    /// [147] DECIMAL, as `1.5`.
    Decimal,
    /// [148] DOUBLE, as `1e5`.
    Double,
    /// [149] INTEGER_POSITIVE or [152] INTEGER_NEGATIVE, as `+1` or `-1`.
    SignedInteger,
    /// [150] DECIMAL_POSITIVE or [153] DECIMAL_NEGATIVE, as `+1.5` or `-1.5`.
    SignedDecimal,
    /// [151] DOUBLE_POSITIVE or [154] DOUBLE_NEGATIVE, as `+1e5` or `-1e5`.
    SignedDouble,
    /// [156] STRING_LITERAL1 or [157] STRING_LITERAL2, with one quote on each side.
    ShortString,
    /// [158] STRING_LITERAL_LONG1 or [159] STRING_LITERAL_LONG2, with three quotes on each side.
    LongString,
    /// A keyword, as `SELECT`.
    Keyword(Keyword),
    /// A word that is not a keyword.
    Word,
    /// A sign, as `{`.
    Sign(Sign),
}

/// A terminal: its kind, and its characters as in the text.
#[derive(Clone, Copy)]
pub struct Token<'a> {
    /// The kind of the terminal.
    pub kind: Kind,
    /// The characters of the terminal, with its delimiters and escapes.
    pub text: &'a [char],
}
