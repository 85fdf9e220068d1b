//! How large the diagram of a family is, and how many sets it has. Children have smaller numbers than their parents.

use fault_system::Bits;
use plain_values::Mem;
use std::alloc::Global;
use zdd_families::look;
use zdd_store::{Id, Node, Store};

/// A number of sets, where it fits 128 bits.
type Count = Option<u128>;

/// How many nodes are reached from a number.
pub fn nodes(alloc: Global, store: &Store, family: Id) -> Mem<usize> {
    let mut reached = Bits::new(alloc, family.position.saturating_add(1))?;
    mark(&mut reached, family);
    let mut count = 0usize;
    for position in (0..reached.size()).rev() {
        if let Some(node) = look(store, Id { position })
            && reached.has(position)
        {
            mark(&mut reached, node.lo);
            mark(&mut reached, node.hi);
            count = count.saturating_add(1);
        }
    }
    Ok(count)
}

fn mark(reached: &mut Bits, id: Id) {
    if id.position < reached.size() {
        reached.put(id.position);
    }
}

/// How many sets a family has; None where the number does not fit.
pub fn sets(alloc: Global, store: &Store, family: Id) -> Mem<Count> {
    let mut counts = Vec::new(alloc);
    for position in 0..=family.position {
        let count = match look(store, Id { position }) {
            Some(node) => count_of(counts.as_slice(), node),
            None => Some(u128::from(position)),
        };
        counts.push(count)?;
    }
    Ok(known(counts.as_slice(), family))
}

fn count_of(counts: &[Count], node: Node) -> Count {
    known(counts, node.lo)?.checked_add(known(counts, node.hi)?)
}

fn known(counts: &[Count], id: Id) -> Count {
    *counts.get(id.position as usize)?
}
