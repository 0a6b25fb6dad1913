//! Readers of terms and expressions of a SPARQL query. They take tokens, and return trees and the
//! tokens after them.
//!
//! [`read_disjunction`] reads an expression, [`read_bracket`] and [`read_call`] the constraint of a
//! FILTER, and [`read_term`] a constant term. Each returns a value that the grammar derives from
//! the start of the tokens. It returns [`ParseFault::Syntax`] only if the grammar derives no value
//! whose next terminal cannot continue it (`Parses` of specs/ParseResult.antt). Each of them
//! consumes at least one token. Tokens are borrowed, never copied.
//!
//! Readers of larger productions use [`tokens::accept`] and its siblings. Each accepts the first terminal
//! if and only if it is of its class (specs/Front.antt). Their proofs use proofs/Steps.antt, which
//! has one lemma for each step of a production (`took`, `then_read`, `skipped`, `done`, ..).
//!
//! Standard: SPARQL 1.1 Query Language, section 19.8.
//!
//! Reading order: specs/ParseResult.antt, specs/Front.antt, `tokens::front`, `tokens::decoding` (the values of
//! terminals), `tokens::classes`, `terms`, `expressions`.
//!
//! Example: `?a || ?b && ?c` is `Or(?a, And(?b, ?c))`. A row of tests/examples/query_terminals.toml has
//! its value. The other tests are in query_accepted.toml and query_syntax.toml there.
//!
//! Not guaranteed: a limit on the depth of calls. A caller first checks how deep the brackets of a
//! text nest.
#![tactic(auto)]

mod expressions;
mod fault;
mod terms;
pub mod tokens;

pub use expressions::{is_call_next, read_bracket, read_call, read_disjunction};
pub use fault::ParseFault;
pub use terms::{read_literal, read_term};
