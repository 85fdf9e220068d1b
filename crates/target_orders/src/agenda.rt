//! Facts that are looked at one after the other, and again where one on which they depend is another.

use crate::marks::{full, put, take};
use fault_system::Bits;
use plain_values::Mem;
use std::alloc::Global;

/// The facts that wait, in the order in which it is their turn. Nothing is claimed of it: it decides how often a fact is
/// looked at, and not what is found.
#[derive(Drop)]
pub(crate) struct Agenda {
    facts: Vec<u32>,
    // the place of the next fact
    turn: usize,
    waiting: Bits,
    // how many facts may still be added
    left: u64,
}

impl Agenda {
    /// All facts wait, in this order.
    pub fn new(alloc: Global, count: u32, order: &[u32]) -> Mem<Agenda> {
        let facts = order.to_vec(alloc)?;
        let waiting = full(alloc, count)?;
        Ok(Agenda {
            facts,
            turn: 0,
            waiting,
            left: u64::from(count) * 16 + 1_048_576,
        })
    }

    /// The fact whose turn it is, which then does not wait; none where none waits.
    pub fn next(&mut self) -> Option<u32> {
        let fact = self.facts.get(self.turn).copied()?;
        self.turn = self.turn.saturating_add(1);
        take(&mut self.waiting, fact);
        Some(fact)
    }

    /// These facts wait.
    pub fn tell(&mut self, facts: &[u32]) -> Mem<()> {
        for fact in facts {
            self.wait(*fact)?;
        }
        Ok(())
    }

    fn wait(&mut self, fact: u32) -> Mem<()> {
        if self.left > 0 && !self.waiting.has(fact) {
            self.left -= 1;
            put(&mut self.waiting, fact);
            self.facts.push(fact)?;
        }
        Ok(())
    }
}
