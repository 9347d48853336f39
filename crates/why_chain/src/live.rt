//! Why a section is kept.

ghost use Rattle.std.specs.Prelude.{◌≡◌, ◌<◌, ◌↔◌, true, All, length, is_some, option_map, IfOk, IfSome};
ghost use Rattle.link_sections.specs.Edges.{ends_of};
ghost use Rattle.lk_tables.specs.Reach.{IsReached};
ghost use Rattle.why_chain.specs.Walks.{IsLeastWalk, live_chain, sections_in};

use crate::chains::LiveChain;
use crate::paths::walk_to;
use crate::visits::{ends_from, visit_ends};
use link_sections::Edges;
use lk_base::SecNo;
use std::alloc::{AllocError, Global};

/// A walk from a root along edges to a section, by which it is kept: of all walks with the fewest edges the first, by the numbers of their
/// sections. `None` exactly where no walk leads there, and so the roots keep it not. The roots and the target are numbers of
/// sections. The only error is out of memory.
pub fn why_live(
    alloc: Global,
    roots: &[SecNo],
    edges: &Edges,
    target: SecNo,
) -> Result<Option<LiveChain>, AllocError>
    requires roots { All (λ root. root < length (ends_of edges.now)) roots.now }
    requires target { target < length (ends_of edges.now) }
    ensures chain { IfOk result (λ chain. option_map sections_in chain ≡ live_chain roots.now (ends_of edges.now) target) }
    ensures least { IfOk result (λ chain. IfSome chain (λ c. IsLeastWalk roots.now (ends_of edges.now) target (sections_in c))) }
    ensures within { IfOk result (λ chain. IfSome chain (λ c. All (λ s. s < length (ends_of edges.now)) (sections_in c))) }
    ensures given { IfOk result (λ chain. (is_some chain ≡ true) ↔ IsReached roots.now (ends_of edges.now) target) }
{
    let mut seen = vec![in alloc; false; edges.count()]?;
    let mut sections = Vec::new(alloc);
    let mut froms = Vec::new(alloc);
    let mut row = Vec::new(alloc);
    sections.push(edges.count() as u32)?;
    froms.push(0)?;
    let mut place: usize = 0;
    while place < sections.len() {
        let section = sections[place];
        if section == target {
            let walk = walk_to(alloc, sections.as_slice(), froms.as_slice(), place)?;
            return Ok(Some(LiveChain { sections: walk }));
        }
        visit_ends(
            ends_from(roots, edges, section),
            place,
            &mut seen,
            &mut sections,
            &mut froms,
            &mut row,
        )?;
        place += 1;
    }
    Ok(None)
}
