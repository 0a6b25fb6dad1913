//! Checks a query that the grammar derives.

ghost use Rattle.std.specs.Prelude.{◌≡◌};
ghost use Rattle.sparql_lexer.specs.Terminal.{terminals};
ghost use Rattle.sparql_tree.specs.GroupTree.{group_of};
ghost use Rattle.sparql_grammar.specs.Prologue.{declarations};
ghost use Rattle.sparql_read.specs.Checked.{IsChecked};

use crate::fault::QueryFault;
use crate::iris::has_relative_iri;
use crate::labels::reuses_blank;
use crate::prologue::has_undefined_prefix;
use crate::scope::breaks_bind_scope;
use sparql_grammar::Declarations;
use sparql_lexer::Token;
use sparql_tree::Element;
use std::alloc::Global;

/// Checks the terminals, the declarations and the outermost group of a query.
///
/// # Errors
/// - The first of `UndefinedPrefix`, `RelativeIri`, `BindScope` and `BlankReuse` that applies.
/// - `Memory` if an allocation fails.
pub(crate) fn check_rules(
    alloc: Global,
    names: &Declarations,
    tokens: &[Token<'_>],
    group: &[Element],
) -> Result<(), QueryFault>
    requires names { names.now ≡ declarations (terminals tokens.now) }
    ensures checked { IsChecked (terminals tokens.now) (group_of group.now) result }
{
    if has_undefined_prefix(alloc, names, tokens)? {
        return Err(QueryFault::UndefinedPrefix);
    }
    if has_relative_iri(alloc, tokens)? {
        return Err(QueryFault::RelativeIri);
    }
    if breaks_bind_scope(alloc, group)? {
        return Err(QueryFault::BindScope);
    }
    if reuses_blank(alloc, group)? {
        return Err(QueryFault::BlankReuse);
    }
    Ok(())
}
