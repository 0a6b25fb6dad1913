//! Wanted terms, by their N-Quads forms.
ghost use Rattle.std.specs.Prelude.{◌≡◌, Option, true, map, IfOk};
ghost use Rattle.rdf_core.specs.declared.term.Term.{Term};
ghost use Rattle.rdf_core.specs.Equality.{term_eq};
ghost use Rattle.rdf_core.specs.Serialization.{serialization};
ghost use Rattle.quad_filter.specs.Filter.{is_wanted, is_wanted_graph};

use quad_filter::{Wanted, WantedGraph};
use rdf_core::{Term, write_term};
use std::alloc::{AllocError, Global};

/// Returns the N-Quads form of a term.
pub(crate) fn form_of(alloc: Global, term: &Term) -> Result<Vec<u8>, AllocError>
    ensures form { IfOk result (λ form. form.items ≡ serialization term.now) }
{
    let mut form = Vec::new(alloc);
    write_term(term, &mut form)?;
    Ok(form)
}

/// Returns a term as the only one that is wanted.
pub(crate) fn only(alloc: Global, term: &Term) -> Result<Wanted, AllocError>
    ensures wanted { IfOk result (λ wanted. (t : Term)
        → term_eq term.now t ≡ true → is_wanted wanted t ≡ true) }
{
    let form = form_of(alloc, term)?;
    let mut forms = Vec::new(alloc);
    forms.push(form)?;
    Ok(Wanted::OneOf(forms))
}

/// Returns a copy of a list of forms.
fn copy_forms(alloc: Global, forms: &[Vec<u8>]) -> Result<Vec<Vec<u8>>, AllocError>
    ensures same { IfOk result (λ copy.
        map (λ form. form.items) copy.items ≡ map (λ form. form.items) forms.now) }
{
    let mut copy = Vec::with_capacity(alloc, forms.len())?;
    for form in forms {
        copy.push(Vec::from_slice(alloc, form.as_slice())?)?;
    }
    Ok(copy)
}

/// Returns a copy, by which the same terms are wanted.
pub(crate) fn copy_wanted(alloc: Global, wanted: &Wanted) -> Result<Wanted, AllocError>
    ensures same { IfOk result (λ copy. (t : Term) → is_wanted copy t ≡ is_wanted wanted.now t) }
{
    match wanted {
        Wanted::Any => Ok(Wanted::Any),
        Wanted::OneOf(forms) => Ok(Wanted::OneOf(copy_forms(alloc, forms.as_slice())?)),
    }
}

/// Returns a copy, by which the same graphs are wanted.
pub(crate) fn copy_graph(alloc: Global, graph: &WantedGraph) -> Result<WantedGraph, AllocError>
    ensures same { IfOk result (λ copy. (g : Option Term)
        → is_wanted_graph copy g ≡ is_wanted_graph graph.now g) }
{
    match graph {
        WantedGraph::Default => Ok(WantedGraph::Default),
        WantedGraph::Named(names) => Ok(WantedGraph::Named(copy_wanted(alloc, names)?)),
    }
}
