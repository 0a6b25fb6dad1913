//! The first terminal of a list.

ghost use Rattle.std.specs.Prelude.{◌≡◌, ◌<◌, length};
ghost use Rattle.std.specs.Option.{IfSome};
ghost use Rattle.sparql_lexer.specs.Terminal.{terminals};
ghost use Rattle.sparql_lexer.specs.declared.token.Kind.TheVariants as kind;
ghost use Rattle.sparql_grammar.specs.Class.{exactly, comparison};
ghost use Rattle.sparql_grammar.specs.Class as the_class;
ghost use Rattle.sparql_grammar.specs.Values.{Names};
ghost use Rattle.sparql_expression.specs.Front.{Accepts, IsNextToken, accepted, followed};

use sparql_lexer::{Keyword, Kind, Sign, Token};

/// Returns the kind and the characters of the first token, and the tokens after it. Returns None if
/// there is no token.
pub fn next<'t, 'a>(tokens: &'t [Token<'a>]) -> Option<(Kind, &'a [char], &'t [Token<'a>])>
    ensures next { IsNextToken tokens.now result }
    ensures shorter { IfSome result (λ p. length p.2.now < length tokens.now) }
{
    let (first, after) = tokens.split_first()?;
    Some((first.kind, first.text, after))
}

/// Returns the tokens after this sign, or None if it is not the first token.
pub fn accept<'t, 'a>(tokens: &'t [Token<'a>], sign: Sign) -> Option<&'t [Token<'a>]>
    ensures accepts { (names : Names) → Accepts names (exactly (kind.Sign sign)) (terminals tokens.now) (followed result) }
    ensures shorter { IfSome result (λ after. length after.now < length tokens.now) }
{
    match next(tokens) {
        Some((Kind::Sign(found), _, after)) if found == sign => Some(after),
        _ => None,
    }
}

/// Returns the tokens after this keyword, or None if it is not the first token.
pub fn accept_word<'t, 'a>(tokens: &'t [Token<'a>], word: Keyword) -> Option<&'t [Token<'a>]>
    ensures accepts { (names : Names) → Accepts names (exactly (kind.Keyword word)) (terminals tokens.now) (followed result) }
    ensures shorter { IfSome result (λ after. length after.now < length tokens.now) }
{
    match next(tokens) {
        Some((Kind::Keyword(found), _, after)) if found == word => Some(after),
        _ => None,
    }
}
