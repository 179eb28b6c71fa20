//! The links of a graph: one is taken out, and the gaps that this leaves are closed up.

ghost use Rattle.std.specs.Prelude.{◌≡◌, ◌≤◌, ℕ, [], length, Some, IsSome, IfSome, IfNone, vec_len, vec_capacity};
ghost use Rattle.std.specs.List.{All};
ghost use Rattle.slab.specs.Slab.{get, slab_len};
ghost use Rattle.dep_graph.specs.GraphView.{event_at, outs_of};
ghost use Rattle.dep_graph.specs.Links.{pairs_in, slots_of, AreLinked, IsTakenOut};

use crate::graph::Cell;
use crate::outs::Link;
use slab::Slab;

/// Takes out the newest link of the event in the cell, if it has one.
pub(crate) fn unlink(
    cells: &mut Slab<Cell>,
    links: &mut Vec<Option<Link>>,
    key: usize,
) -> Option<Link>
    requires linked { AreLinked cells.old links.old.items }
    requires apart { All (λ pair. pair.0 ≡ pair.1 → ⊥) (pairs_in links.old.items) }
    requires cell { IsSome (event_at (slots_of cells.old) key) }
    ensures some { IfSome result (λ link. IsTakenOut link.first.0 link.second.0 (pairs_in links.old.items) (pairs_in links.new.items)) }
    ensures first { IfSome result (λ link. event_at (slots_of cells.old) key ≡ Some link.first.0) }
    ensures second { IfSome result (λ link. event_at (slots_of cells.new) link.to ≡ Some link.second.0) }
    ensures none { IfNone result ((event : ℕ) → event_at (slots_of cells.old) key ≡ Some event → outs_of (pairs_in links.old.items) event
        ≡ []) }
    ensures same_cells { IfNone result (cells.new ≡ cells.old) }
    ensures same_links { IfNone result (links.new ≡ links.old) }
    ensures linked { AreLinked cells.new links.new.items }
    ensures slots { slots_of cells.new ≡ slots_of cells.old }
    ensures cells_len { slab_len cells.new ≡ slab_len cells.old }
    ensures cells_capacity { cells.new.capacity ≡ cells.old.capacity }
    ensures len { vec_len links.new ≡ vec_len links.old }
    ensures capacity { vec_capacity links.new ≡ vec_capacity links.old }
{
    let at = match cells[key].newest {
        Some(at) => at,
        None => return None,
    };
    let link = links[at].unwrap();
    links[at] = None;
    cells[key].newest = link.next;
    cells[link.to].in_count -= 1;
    Some(link)
}

/// Puts the links that were not taken out into an empty list, in their order, each with the new index of the link that
/// it leads on to.
pub(crate) fn rebuild(cells: &mut Slab<Cell>, links: &[Option<Link>], fresh: &mut Vec<Option<Link>>)
    requires linked { AreLinked cells.old links.now }
    requires empty { fresh.old.items ≡ [] }
    requires room { length links.now ≤ vec_capacity fresh.old }
    ensures linked { AreLinked cells.new fresh.new.items }
    ensures pairs { pairs_in fresh.new.items ≡ pairs_in links.now }
    ensures slots { slots_of cells.new ≡ slots_of cells.old }
    ensures cells_len { slab_len cells.new ≡ slab_len cells.old }
    ensures cells_capacity { cells.new.capacity ≡ cells.old.capacity }
    ensures bound { vec_len fresh.new ≤ length links.now }
    ensures capacity { vec_capacity fresh.new ≡ vec_capacity fresh.old }
{
    for slot in links {
        if let Some(link) = slot {
            let next = match link.next {
                Some(_) => cells[link.from].newest,
                None => None,
            };
            cells[link.from].newest = Some(fresh.len());
            fresh.push_reserved(Some(Link { next, ..*link }));
        }
    }
}
