//! Events are put in an order in which each stands behind those that lead to it.

ghost use Rattle.std.specs.Prelude.{◌≡◌, ℕ, ◌<◌, ◌≤◌, true, false, [], length, Some, option_map, IfOk, IfSome, IfNone};
ghost use Rattle.clock_import.specs.Walk.{IsWalk, Visits, Orders, Waits, Closing, HasCycle, is_marked};

use crate::links::Link;
use kr_order::NoMemory;
use std::alloc::Global;

// An event that leads to one with this link and is not done; those from the limit on do not count.
fn awaited(link: &Link, done: &[bool]) -> Option<usize>
    ensures { Waits link.now done.now result }
{
    match undone(link.prior, done) {
        Some(a) => Some(a),
        None => undone(link.source, done),
    }
}

// The event, if there is one and it is not done.
fn undone(event: Option<usize>, done: &[bool]) -> Option<usize>
    ensures some { IfSome result (λ a. (event ≡ Some a) × (a < length done.now) × (is_marked done.now a ≡ false)) }
    ensures none { IfNone result ((a : ℕ) → event ≡ Some a → a < length done.now → is_marked done.now a ≡ true) }
{
    match event {
        Some(a) => {
            if a < done.len() && !done[a] {
                Some(a)
            } else {
                None
            }
        }
        None => None,
    }
}

// Puts the event in the order, behind all that lead to it. Whether no cycle kept it from that.
fn visit(
    links: &[Link],
    e: usize,
    done: &mut [bool],
    taken: &mut [bool],
    order: &mut Vec<usize>,
    stack: &mut Vec<usize>,
) -> Result<bool, NoMemory>
    requires walk { IsWalk links.now (length done.old) done.old taken.old order.old.items }
    requires event { e < length done.old }
    requires links { length done.old ≤ length links.now }
    ensures { IfOk result (Visits links.now e done.old done.new taken.new order.new.items) }
{
    if done[e] {
        return Ok(true);
    }
    stack.clear();
    stack.push(e)?;
    while let Some(top) = stack.pop() {
        match awaited(&links[top], done) {
            Some(a) => {
                if taken[a] {
                    return Ok(false);
                }
                taken[a] = true;
                stack.push(top)?;
                stack.push(a)?;
            }
            None => {
                order.push(top)?;
                done[top] = true;
            }
        }
    }
    Ok(true)
}

// An order of the first events, so many; `None` exactly where they lead to one another in a cycle.
pub(crate) fn order_of(
    alloc: Global,
    links: &[Link],
    many: usize,
) -> Result<Option<Vec<usize>>, NoMemory>
    requires { many ≤ length links.now }
    ensures { IfOk result (λ order. Orders links.now many (option_map (λ found. found.items) order)) }
{
    let mut done = vec![in alloc; false; many]?;
    let mut taken = vec![in alloc; false; many]?;
    order_over(alloc, links, done.as_mut_slice(), taken.as_mut_slice())
}

// The same, with the marks of the events, of which none is set.
fn order_over(
    alloc: Global,
    links: &[Link],
    done: &mut [bool],
    taken: &mut [bool],
) -> Result<Option<Vec<usize>>, NoMemory>
    requires walk { IsWalk links.now (length done.old) done.old taken.old [] }
    requires links { length done.old ≤ length links.now }
    ensures { IfOk result (λ order. Orders links.now (length done.old) (option_map (λ found. found.items) order)) }
{
    let mut order = Vec::new(alloc);
    let mut stack = Vec::new(alloc);
    for e in 0..done.len() {
        let ordered = visit(links, e, done, taken, &mut order, &mut stack)?;
        if !ordered {
            return Ok(None);
        }
    }
    Ok(Some(order))
}

// The first number of events that lead to one another in a cycle, where so many do.
pub(crate) fn first_closing(alloc: Global, links: &[Link], many: usize) -> Result<usize, NoMemory>
    requires cycle { HasCycle links.now many }
    requires links { many ≤ length links.now }
    ensures { IfOk result (λ event. Closing links.now event × (event ≤ many)) }
{
    let mut low = 0;
    let mut high = many;
    while low + 1 < high {
        let middle = low + (high - low) / 2;
        match order_of(alloc, links, middle)? {
            Some(_) => low = middle,
            None => high = middle,
        }
    }
    Ok(high)
}
