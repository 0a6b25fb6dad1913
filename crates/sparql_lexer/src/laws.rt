//! Laws of the terminals. Each is a function without effect, whose contract is the law.

ghost use Rattle.std.specs.Prelude.{◌≡◌, ℕ, List};
ghost use Rattle.sparql_lexer.specs.Laws.{OneLanguageTag, ValuesAreWritten};
ghost use Rattle.sparql_lexer.specs.Scan.{Reads, Scans};
ghost use Rattle.sparql_lexer.specs.Terminal.{Terminal};
ghost use Rattle.sparql_lexer.specs.declared.token.Kind.{Kind};

/// No text is a terminal of two kinds.
pub fn one_kind()
    ensures { (k l : Kind) (text rest : List ℕ) → Reads k text rest → Reads l text rest → k ≡ l }
{}

/// A text has at most one list of terminals, and the list ends at one place.
pub fn one_scan()
    ensures { (text end end' : List ℕ) (ts ts' : List Terminal) → Scans text ts end → Scans text ts' end' → (ts ≡ ts') × (end ≡ end') }
{}

/// The value of an IRI or a string is the text that its characters and escapes write (SPARQL 1.1
/// Query Language, sections 19.2 and 19.7). It has no value if they write none.
pub fn values_are_written()
    ensures law { ValuesAreWritten }
{}

/// Queries and N-Quads have the same language tags ([145] LANGTAG of SPARQL 1.1 Query Language,
/// section 19.8, and [144s] LANGTAG of RDF 1.1 N-Quads, section 4).
pub fn one_language_tag()
    ensures law { OneLanguageTag }
{}
