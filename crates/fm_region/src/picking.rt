ghost use Rattle.std.specs.Prelude.{◌≡◌, IfOk};
ghost use Rattle.fm_bank.specs.Regions.{first_large};
ghost use Rattle.fm_bank.specs.Terms.{numbers};
ghost use Rattle.fm_cong.specs.Held.{IsSettled};
ghost use Rattle.fm_region.specs.Picks.{IsPickOf};

use crate::regions::grown;
use crate::source::source_of;
use crate::strong::{Strong, front};
use fm_base::{Memory, SortId, TermId};
use fm_cong::Egraph;
use sqlite_items::Items;
use std::alloc::Global;

/// A test of a sort that has more than k classes: k + 1 of them by their oldest terms, and the first two that aren't apart,
/// the older one first; None where they are pairwise apart.
#[derive(Drop)]
pub struct Pick {
    pub terms: Vec<TermId>,
    pub pair: Option<(TermId, TermId)>,
}

fn large_region(k: u64, regions: &[Items<usize>]) -> &[usize]
    ensures { result.now ≡ first_large k regions.now }
{
    for region in regions {
        if k < region.len() as u64 {
            return region.as_slice();
        }
    }
    &[]
}

fn terms_of(alloc: Global, region: &[usize]) -> Result<Vec<TermId>, Memory>
    ensures { IfOk result (λ v. numbers v.items ≡ region.now) }
{
    let mut terms = Vec::new(alloc);
    for term in region {
        terms.push(TermId(*term))?;
    }
    Ok(terms)
}

/// The test of a sort at k, where a settled graph has more than k classes of the sort: the first k + 1 classes of the first
/// of the grown regions at k that has more than k.
pub fn pick_of(alloc: Global, graph: &Egraph, sort: SortId, k: u64) -> Result<Option<Pick>, Memory>
    requires settled { IsSettled graph.now }
    ensures { IfOk result (IsPickOf graph.now sort k) }
{
    let terms = graph.classes(sort)?;
    let source = source_of(alloc, graph, sort, k, terms)?;
    let (regions, found) = grown(alloc, &source)?;
    match found {
        Strong::Fits => Ok(None),
        Strong::Clique(terms) => Ok(Some(Pick { terms, pair: None })),
        Strong::Split(a, b) => {
            let test = front(large_region(k, regions.as_slice()), k as usize);
            let terms = terms_of(alloc, test)?;
            let pair = Some((a, b));
            Ok(Some(Pick { terms, pair }))
        }
    }
}
