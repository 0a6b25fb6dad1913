//! What is wrong with terms that cannot be compared, or that have no effective boolean value.
ghost use Rattle.std.specs.Prelude.{◌≡◌, ◌&&◌, ◌||◌, IfOk, None, false, not, true};
ghost use Rattle.algebra_model.specs.Comparison.{equals, is_literal};
ghost use Rattle.rdf_core.specs.Equality.{term_eq};
ghost use Rattle.expression_errors.specs.Causes.{Explains, ExplainsTruth, HasDatatype, is_common};
ghost use Rattle.expression_errors.specs.Classes.{IsClassOf, IsKindOf, has_tag, is_float, is_float_kind, is_float_type, is_ill_formed_kind, is_ill_typed, is_name_kind, is_tagged_kind};

use rdf_core::vocabulary::{XSD_BOOLEAN, XSD_DOUBLE, XSD_FLOAT, XSD_STRING};
use rdf_core::{Term, Text};
use sparql_tree::Comparison;
use std::alloc::{AllocError, Global};
use term_values::{compare, truth};

/// Why an expression is an error.
#[derive(PartialEq, Eq)]
pub enum Cause {
    /// The variable with this number is unbound.
    Unbound(usize),
    /// A variable is unbound: in some rows the one with this number, in some rows another one. Only
    /// tallies have it.
    SomeUnbound(usize),
    /// A function was called with a term that has no such property, such as LANG of an IRI.
    Call,
    /// An IRI or a blank node was compared by order, or used as a truth value.
    NotLiteral,
    /// A literal with a language tag was compared with a literal that is another term.
    Tagged,
    /// Two literals of kinds that have no common values, such as a string and an integer.
    Kinds,
    /// A literal of this datatype, whose values are not compared here.
    Datatype(Text),
    /// The lexical form of a literal is none of this datatype.
    IllFormed(Text),
    /// A literal of this datatype has no effective boolean value.
    NoTruth(Text),
}

impl Drop for Cause {
    /// Written by hand (docs/PROOF.md).
    fn drop(self) {
        match self {
            Cause::Unbound(_)
            | Cause::SomeUnbound(_)
            | Cause::Call
            | Cause::NotLiteral
            | Cause::Tagged
            | Cause::Kinds
            | Cause::Datatype(_)
            | Cause::IllFormed(_)
            | Cause::NoTruth(_) => {}
        }
    }
}

impl Cause {
    /// Returns an equal cause that owns its texts.
    ///
    /// # Errors
    /// `AllocError` if an allocation fails.
    pub fn copy(&self, alloc: Global) -> Result<Cause, AllocError>
        ensures equal { IfOk result (λ cause. cause ≡ self.now) }
    {
        match self {
            Cause::Unbound(variable) => Ok(Cause::Unbound(*variable)),
            Cause::SomeUnbound(variable) => Ok(Cause::SomeUnbound(*variable)),
            Cause::Call => Ok(Cause::Call),
            Cause::NotLiteral => Ok(Cause::NotLiteral),
            Cause::Tagged => Ok(Cause::Tagged),
            Cause::Kinds => Ok(Cause::Kinds),
            Cause::Datatype(iri) => Ok(Cause::Datatype(iri.copy(alloc)?)),
            Cause::IllFormed(iri) => Ok(Cause::IllFormed(iri.copy(alloc)?)),
            Cause::NoTruth(iri) => Ok(Cause::NoTruth(iri.copy(alloc)?)),
        }
    }

    /// Returns whether queries meet this cause on purpose, as `OPTIONAL` makes unbound variables. It
    /// is worth a note only if every row has an error.
    pub fn is_common(&self) -> bool
        ensures common { result ≡ is_common self.now }
    {
        match self {
            Cause::Unbound(_) | Cause::SomeUnbound(_) | Cause::Call | Cause::NotLiteral => true,
            Cause::Tagged
            | Cause::Kinds
            | Cause::Datatype(_)
            | Cause::IllFormed(_)
            | Cause::NoTruth(_) => false,
        }
    }
}

/// What a term is in a comparison.
#[derive(Clone, Copy, PartialEq, Eq)]
enum Kind {
    /// An IRI or a blank node.
    Name,
    Tagged,
    /// A string or a boolean.
    Plain,
    Number,
    /// An xsd:float or xsd:double.
    Float,
    /// An ill-formed number or boolean.
    IllFormed,
    /// A literal of another datatype.
    Other,
}

/// Returns the kind of a literal without a language tag.
fn kind_of_literal(term: &Term, datatype: &str) -> Kind
    ensures literal { is_name_kind result ≡ false }
    ensures tag { is_tagged_kind result ≡ false }
    ensures float { is_float_kind result ≡ is_float_type datatype.now }
    ensures ill_typed { is_ill_formed_kind result ≡ true → is_ill_typed term.now ≡ true }
{
    if datatype == XSD_STRING {
        Kind::Plain
    } else if is_float_type(datatype) {
        Kind::Float
    } else if truth(term).is_none() {
        Kind::Other
    } else if compare(Comparison::Less, term, term).is_none() {
        Kind::IllFormed
    } else if datatype == XSD_BOOLEAN {
        Kind::Plain
    } else {
        Kind::Number
    }
}

/// What the errors of a term's comparisons depend on: its kind, and the datatype of a literal without a
/// language tag. Why `=` of two terms is an error follows from their classes.
#[derive(Clone, Copy, PartialEq, Eq)]
pub struct TermClass<'a> {
    kind: Kind,
    datatype: &'a str,
}

impl<'a> TermClass<'a> {
    /// Returns the class of a term.
    pub fn new(term: &'a Term) -> TermClass<'a>
        ensures class { IsClassOf result term.now }
    {
        let kind = kind_of(term);
        let datatype = match term {
            Term::Literal {
                datatype,
                tag: None,
                ..
            } => datatype.as_str(),
            Term::Literal { tag: Some(_), .. } | Term::Iri(_) | Term::Blank(_) => "",
        };
        TermClass { kind, datatype }
    }

    /// Returns whether `=` of different terms of these classes is an error that counts, whatever their
    /// lexical forms are: one is an xsd:float or xsd:double, and the other is a literal.
    pub fn is_error_with(self, other: TermClass<'_>) -> bool
        ensures counts { (a b : Term) → IsClassOf self.entry a → IsClassOf other.entry b
            → result ≡ (is_float a && is_literal b || is_float b && is_literal a) }
        ensures error { (a b : Term) → IsClassOf self.entry a → IsClassOf other.entry b
            → term_eq a b ≡ false → result ≡ true → equals a b ≡ None }
    {
        self.is_float_and_literal(other) || other.is_float_and_literal(self)
    }

    /// Returns whether this is a class of floats, and the other one of literals.
    fn is_float_and_literal(self, other: TermClass<'_>) -> bool
        ensures value { result ≡ (is_float_kind self.entry.kind && not (is_name_kind other.entry.kind)) }
    {
        self.kind == Kind::Float && other.kind != Kind::Name
    }
}

/// Returns whether a term is an xsd:float or xsd:double.
pub fn is_float(term: &Term) -> bool
    ensures float { result ≡ is_float term.now }
{
    match term {
        Term::Literal {
            datatype,
            tag: None,
            ..
        } => is_float_type(datatype.as_str()),
        Term::Literal { tag: Some(_), .. } | Term::Iri(_) | Term::Blank(_) => false,
    }
}

fn is_float_type(datatype: &str) -> bool
    ensures float { result ≡ is_float_type datatype.now }
{
    datatype == XSD_DOUBLE || datatype == XSD_FLOAT
}

/// Returns the kind of a term.
fn kind_of(term: &Term) -> Kind
    ensures kind { IsKindOf result term.now }
{
    match term {
        Term::Literal {
            datatype,
            tag: None,
            ..
        } => kind_of_literal(term, datatype.as_str()),
        Term::Literal { tag: Some(_), .. } => Kind::Tagged,
        Term::Iri(_) | Term::Blank(_) => Kind::Name,
    }
}

/// Returns whether a query processor that knows all datatypes of XML Schema compares values of these
/// kinds, of which one is not compared here.
fn are_comparable_elsewhere(left: Kind, right: Kind, same_datatype: bool) -> bool {
    match left {
        Kind::Float => right == Kind::Float || right == Kind::Number,
        Kind::Number => right == Kind::Float,
        Kind::Other => right == Kind::Other && same_datatype,
        Kind::Name | Kind::Tagged | Kind::Plain | Kind::IllFormed => false,
    }
}

/// Returns the datatype of a term, or the text of an IRI or a blank node.
fn datatype_of(alloc: Global, term: &Term) -> Result<Text, AllocError>
    ensures datatype { IfOk result (λ iri. is_literal term.now ≡ true → HasDatatype term.now iri) }
{
    match term {
        Term::Literal { datatype, .. } => datatype.copy(alloc),
        Term::Iri(text) | Term::Blank(text) => text.copy(alloc),
    }
}

fn has_same_datatype(left: &Term, right: &Term) -> bool {
    match left {
        Term::Literal { datatype: one, .. } => match right {
            Term::Literal {
                datatype: other,
                ..
            } => one == other,
            Term::Iri(_) | Term::Blank(_) => false,
        },
        Term::Iri(_) | Term::Blank(_) => false,
    }
}

/// Returns why the comparison of two terms is an error.
///
/// # Errors
/// `AllocError` if an allocation fails.
pub(crate) fn comparison_cause(
    alloc: Global,
    left: &Term,
    right: &Term,
) -> Result<Cause, AllocError>
    ensures explained { IfOk result (λ cause. Explains cause left.now right.now) }
{
    let (one, other) = (kind_of(left), kind_of(right));
    if one == Kind::Name || other == Kind::Name {
        Ok(Cause::NotLiteral)
    } else if one == Kind::Tagged || other == Kind::Tagged {
        Ok(Cause::Tagged)
    } else if one == Kind::IllFormed {
        Ok(Cause::IllFormed(datatype_of(alloc, left)?))
    } else if other == Kind::IllFormed {
        Ok(Cause::IllFormed(datatype_of(alloc, right)?))
    } else if !are_comparable_elsewhere(one, other, has_same_datatype(left, right)) {
        Ok(Cause::Kinds)
    } else if one == Kind::Number {
        Ok(Cause::Datatype(datatype_of(alloc, right)?))
    } else {
        Ok(Cause::Datatype(datatype_of(alloc, left)?))
    }
}

/// Returns why a term has no effective boolean value.
///
/// # Errors
/// `AllocError` if an allocation fails.
pub(crate) fn truth_cause(alloc: Global, term: &Term) -> Result<Cause, AllocError>
    ensures explained { IfOk result (λ cause. ExplainsTruth cause term.now) }
{
    match term {
        Term::Literal { datatype, .. } => Ok(Cause::NoTruth(datatype.copy(alloc)?)),
        Term::Iri(_) | Term::Blank(_) => Ok(Cause::NotLiteral),
    }
}

/// Returns whether two literals have the same lexical form.
fn has_same_form(left: &Term, right: &Term) -> bool {
    match left {
        Term::Literal { lexical: one, .. } => match right {
            Term::Literal { lexical: other, .. } => one == other,
            Term::Iri(_) | Term::Blank(_) => false,
        },
        Term::Iri(_) | Term::Blank(_) => false,
    }
}

/// Returns whether a term is a literal with a language tag.
fn has_tag(term: &Term) -> bool
    ensures tag { result ≡ has_tag term.now }
{
    match term {
        Term::Literal { tag, .. } => tag.is_some(),
        Term::Iri(_) | Term::Blank(_) => false,
    }
}

/// Returns whether the writer of a query expects two terms whose equality is an error to differ: both
/// have a language tag, or their lexical forms differ and neither is a float. So an error of `=` costs
/// nothing that `false` would not cost.
pub(crate) fn are_expected_to_differ(left: &Term, right: &Term) -> bool
    ensures tagged { has_tag left.now ≡ true → has_tag right.now ≡ true → result ≡ true }
    ensures float { is_float left.now ≡ true → result ≡ false }
    ensures other_float { is_float right.now ≡ true → result ≡ false }
{
    if has_tag(left) && has_tag(right) {
        return true;
    }
    !is_float(left) && !is_float(right) && !has_same_form(left, right)
}
