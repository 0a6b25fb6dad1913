//! The depth of nested brackets.

ghost use Rattle.std.specs.Prelude.{◌≡◌, ◌≤◌};
ghost use Rattle.sparql_lexer.specs.Terminal.{terminals};
ghost use Rattle.sparql_read.specs.Depth.{is_too_deep, max_depth, open_after};

use sparql_lexer::{Kind, Sign, Token};

/// The maximum number of brackets that may be open at once.
const MAX_DEPTH: usize = 100;

/// Returns the number of open brackets after a terminal, given the number before it.
fn open_after(kind: Kind, depth: usize) -> usize
    requires room { depth ≤ max_depth }
    ensures value { result ≡ open_after kind depth }
{
    match kind {
        Kind::Sign(Sign::OpenBrace) | Kind::Sign(Sign::OpenParenthesis) => depth + 1,
        Kind::Sign(Sign::CloseBrace) | Kind::Sign(Sign::CloseParenthesis) => depth.saturating_sub(
            1,
        ),
        _ => depth,
    }
}

/// Returns whether more than 100 brackets are open at some place. `{` and `(` open one, and `}` and
/// `)` close one if there is one to close.
pub fn is_too_deep(tokens: &[Token<'_>]) -> bool
    ensures value { result ≡ is_too_deep (terminals tokens.now) }
{
    let mut depth: usize = 0;
    for token in tokens {
        depth = open_after(token.kind, depth);
        if depth > MAX_DEPTH {
            return true;
        }
    }
    false
}
