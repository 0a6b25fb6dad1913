//! The index.
ghost use Rattle.std.specs.Prelude.{◌≡◌, length, filter, nat_eq, IfOk, IsPermutation, IsSorted};
ghost use Rattle.std.specs.List.{dedup};
ghost use Rattle.std.specs.List.Sorted.{IsStrictlyIncreasing};
ghost use Rattle.algebra_model.specs.Bag.{IsWithoutRepeats, without_repeats};
ghost use Rattle.dict_core.specs.Equality.{quad_eq};
ghost use Rattle.quad_index.specs.SortOrder.{by_gspo, by_gpos, by_gosp};
ghost use Rattle.quad_index.specs.Indexed.{scan_key};
ghost use Rattle.quad_index.specs.Matching.{agrees, graph_names};

use crate::prefix::Prefix;
use crate::quad_list::{QuadList, sorted_list};
use crate::quads::Quads;
use crate::range::range;
use crate::sort_order::SortOrder;
use dict_core::NumQuad;
use std::alloc::{AllocError, Global};
use std::marker::Model;

/// A set of numbered quads that is quick to search. In contracts this type is the list of its quads, each
/// once.
pub struct Index {
    gspo: QuadList,
    gpos: QuadList,
    gosp: QuadList,
    graphs: Vec<u64>,
}

impl Drop for Index {
    /// Drops the lists. Written by hand (docs/PROOF.md).
    fn drop(self) {
        let Index {
            gspo: _,
            gpos: _,
            gosp: _,
            graphs: _,
        } = self;
    }
}

impl Model for Index {
    ghost use Rattle.std.specs.Prelude.{List};
    ghost use Rattle.dict_core.specs.declared.num_quad.NumQuad.{NumQuad};
    ghost use Rattle.quad_index.specs.Indexed.{IsIndexed};

    ghost Value = { List NumQuad };

    ghost view = { λ index. index.gspo };

    ghost invariant = { λ index.
        IsIndexed index.gspo index.gpos index.gosp index.graphs.items };
}

impl Index {
    /// Builds the index of these quads. A repeated statement counts once.
    ///
    /// # Errors
    /// `AllocError` if an allocation fails. The list is dropped.
    pub fn build(alloc: Global, quads: Vec<NumQuad>) -> Result<Index, AllocError>
        ensures each_once { IfOk result
            (λ index. IsPermutation (without_repeats quad_eq quads.items) index) }
    {
        let mut list = QuadList::new(alloc);
        list.extend(alloc, quads.as_slice())?;
        drop(quads);
        let gspo = sorted_list(alloc, &list, SortOrder::Gspo)?;
        let gpos = sorted_list(alloc, &list, SortOrder::Gpos)?;
        let gosp = sorted_list(alloc, &list, SortOrder::Gosp)?;
        Index::of_lists(alloc, gspo, gpos, gosp)
    }

    /// Builds the index of quads that are already sorted in the three orders.
    ///
    /// # Requires
    /// The lists hold the same quads, each once, and each list is sorted in its own order.
    ///
    /// # Errors
    /// `AllocError` if an allocation fails. The lists are dropped.
    pub fn of_lists(
        alloc: Global,
        gspo: QuadList,
        gpos: QuadList,
        gosp: QuadList,
    ) -> Result<Index, AllocError>
        requires distinct { IsWithoutRepeats quad_eq gspo }
        requires sorted_gspo { IsSorted by_gspo gspo }
        requires sorted_gpos { IsSorted by_gpos gpos }
        requires sorted_gosp { IsSorted by_gosp gosp }
        requires same_gpos { IsPermutation gspo gpos }
        requires same_gosp { IsPermutation gspo gosp }
        ensures quads { IfOk result (λ index. index ≡ gspo) }
    {
        let graphs = names_of(alloc, &gspo.quads())?;
        Ok(Index {
            gspo,
            gpos,
            gosp,
            graphs,
        })
    }

    /// Returns the quads of one graph, None for the default graph, that have the given numbers at the given
    /// places. Each quad is in the result once. The quads are borrowed, and nothing is copied.
    pub fn scan(&self, g: Option<u64>, s: Option<u64>, p: Option<u64>, o: Option<u64>) -> Quads<'_>
        ensures quads { IsPermutation (filter (agrees g s p o) self.now) result }
    {
        let key = scan_key(g, s, p, o);
        match (s, p, o) {
            (None, None, None) => range(&self.gspo.quads(), Prefix::G, key),
            (Some(_), None, None) => range(&self.gspo.quads(), Prefix::Gs, key),
            (Some(_), Some(_), None) => range(&self.gspo.quads(), Prefix::Gsp, key),
            (Some(_), Some(_), Some(_)) => range(&self.gspo.quads(), Prefix::Gspo, key),
            (None, Some(_), None) => range(&self.gpos.quads(), Prefix::Gp, key),
            (None, Some(_), Some(_)) => range(&self.gpos.quads(), Prefix::Gpo, key),
            (None, None, Some(_)) => range(&self.gosp.quads(), Prefix::Go, key),
            (Some(_), None, Some(_)) => range(&self.gosp.quads(), Prefix::Gos, key),
        }
    }

    /// Returns the graph names in ascending order, each once.
    pub fn graphs(&self) -> &[u64]
        ensures names { IsPermutation (without_repeats nat_eq (graph_names self.now)) result.now }
        ensures rising { IsStrictlyIncreasing result.now }
    {
        self.graphs.as_slice()
    }

    /// Returns the number of quads. Repeats in the list that the index was built from do not count.
    pub fn quads(&self) -> u64
        ensures count { result ≡ length self.now }
        ensures distinct { IsWithoutRepeats quad_eq self.now }
    {
        self.gspo.len() as u64
    }
}

/// Returns the quad that a scan compares with. A place without a number is 0, and is not compared.
fn scan_key(g: Option<u64>, s: Option<u64>, p: Option<u64>, o: Option<u64>) -> NumQuad
    ensures quad { result ≡ scan_key g s p o }
{
    NumQuad {
        g,
        s: s.unwrap_or(0),
        p: p.unwrap_or(0),
        o: o.unwrap_or(0),
    }
}

/// Returns the graph names of sorted quads, each once.
pub(crate) fn names_of(alloc: Global, quads: &Quads<'_>) -> Result<Vec<u64>, AllocError>
    ensures names { IfOk result (λ names. names.items ≡ dedup nat_eq (graph_names quads.now)) }
{
    let mut names = repeated_names(alloc, quads)?;
    names.dedup();
    names.shrink_to_fit();
    Ok(names)
}

fn repeated_names(alloc: Global, quads: &Quads<'_>) -> Result<Vec<u64>, AllocError>
    ensures names { IfOk result (λ names. names.items ≡ graph_names quads.now) }
{
    let mut names = Vec::new(alloc);
    for place in 0..quads.len() {
        match quads.get(place).g {
            Some(name) => names.push(name)?,
            None => {}
        }
    }
    Ok(names)
}
