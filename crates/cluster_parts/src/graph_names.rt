//! The graph names of the quads of a block.
ghost use Rattle.std.specs.Prelude.{◌≡◌, IfOk, OnOk, [], List, length};
ghost use Rattle.std.specs.Option.{option_to_list};
ghost use Rattle.indexmap.specs.IndexSet.{insert_all};
ghost use Rattle.rdf_core.specs.declared.term.Term.{Term};
ghost use Rattle.rdf_core.specs.Equality.{term_eq};
ghost use Rattle.rdf_core.specs.QuadParts.{QuadParts};
ghost use Rattle.dict_core.specs.NumQuad.{AreBelow, IsBelow, quad_at};
ghost use Rattle.algebra_model.specs.Dataset.{names};
ghost use Rattle.text_pieces.specs.Forms.{AreFormsOf, AreNumberedBy};
ghost use Rattle.cluster_parts.specs.Numbered.{AreQuadsOf};

use crate::numbering::{NumberedLines, text_of};
use dict_core::NumQuad;
use std::alloc::{AllocError, Global};
use std::hash::RandomState;
use text_dict::TextDict;

/// Adds the graph name of a quad, if it has one.
fn add_name_of(known: &mut TextDict, texts: &TextDict, quad: &NumQuad) -> Result<(), AllocError>
    requires below { IsBelow (length texts.now.texts) quad.now }
    ensures names { OnOk result ((earlier terms : List Term) → AreFormsOf earlier known.old.texts → AreFormsOf terms texts.now.texts
        → AreFormsOf (insert_all term_eq earlier (option_to_list (quad_at terms quad.now).g)) known.new.texts) }
{
    match quad.g {
        Some(number) => {
            known.intern(text_of(texts, number))?;
            Ok(())
        }
        None => Ok(()),
    }
}

/// Adds the graph names of quads.
fn add_names(known: &mut TextDict, texts: &TextDict, quads: &[NumQuad]) -> Result<(), AllocError>
    requires below { AreBelow (length texts.now.texts) quads.now }
    requires none { known.old.texts ≡ [] }
    ensures names { OnOk result ((all : List QuadParts) → AreNumberedBy all texts.now.texts quads.now
        → AreFormsOf (names all) known.new.texts) }
{
    for quad in quads {
        add_name_of(known, texts, quad)?;
    }
    Ok(())
}

/// Returns the N-Quads forms of the graph names of a block, each once, by first appearance.
pub(crate) fn names_of(
    alloc: Global,
    state: RandomState,
    block: &NumberedLines,
) -> Result<TextDict, AllocError>
    requires read { (quads : List QuadParts) × AreQuadsOf quads block.now }
    ensures names { IfOk result (λ found. (quads : List QuadParts) → AreQuadsOf quads block.now
        → AreFormsOf (names quads) found.texts) }
{
    let mut found = TextDict::new(alloc, state);
    add_names(&mut found, &block.texts, block.quads.as_slice())?;
    Ok(found)
}
