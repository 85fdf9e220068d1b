//! Events that are passed over, many at once.
//!
//! Where under all events of a group no effect holds that does not hold under no event, no event of the group has a row. It is looked
//! for such groups when the walks have taken as long as a look takes, and of as many events as were found before. When it is looked,
//! and at how many events, decides how long the rows take, and not which they are.

ghost use Rattle.std.specs.Prelude.{◌≡◌, ◌⊎◌, ℕ, List, IfOk, IsTrue, OnOk};
ghost use Rattle.fault_system.specs.Truth.{Has, member, set_of};
ghost use Rattle.fault_system.specs.Systems.{System};
ghost use Rattle.fault_system.specs.Rounds.{no_event, time_of};
ghost use Rattle.fault_system.specs.inner.Rounds.{IsTable, ever};
ghost use Rattle.fmea_rows.specs.inner.Tables.{AreRowless};

use crate::change::time_at;
use crate::table::{Asked, Known};
use fault_system::Bits;
use plain_values::Mem;
use std::alloc::Global;

/// The events that are passed over, and when it is looked for more.
#[derive(Drop)]
pub(crate) struct Passed {
    /// Events that have no rows.
    pub rowless: Bits,
    // how many steps a look takes
    whole: u64,
    // the steps that the walks took since the last look, and of how many events
    steps: u64,
    walks: u32,
    // at how many events is looked next
    span: u32,
}

impl Passed {
    /// No event, with the number of steps that a look takes.
    pub fn none(alloc: Global, events: u32, whole: u64) -> Mem<Passed>
        ensures { IfOk result (λ passed. (system : System) (effects : List ℕ) → AreRowless system effects (member passed.rowless)) }
    {
        Ok(Passed {
            rowless: Bits::new(alloc, events)?,
            whole,
            steps: 0,
            walks: 0,
            span: events,
        })
    }

    /// Whether an event is passed over.
    pub fn has(&self, event: u32) -> bool
        ensures { result ≡ member self.now.rowless event }
    {
        self.rowless.has(event)
    }

    /// Passes over some of the events from one on that have no rows, if it is time to look for them after a walk of so many steps.
    pub fn look(
        &mut self,
        alloc: Global,
        asked: &Asked<'_>,
        known: &Known,
        from: u32,
        steps: u64,
    ) -> Mem<()>
        requires base { IsTable asked.now.system.now no_event known.now.base }
        requires rowless { AreRowless asked.now.system.now asked.now.effects.now (member self.old.rowless) }
        ensures { OnOk result (AreRowless asked.now.system.now asked.now.effects.now (member self.new.rowless)) }
    {
        self.steps = self.steps.saturating_add(steps);
        self.walks = self.walks.saturating_add(1);
        if self.steps < self.whole || self.span / 2 < self.walks {
            return Ok(());
        }
        let group = self.group(alloc, known, from)?;
        let is_rowless = are_rowless(alloc, asked, known, &group)?;
        if is_rowless {
            put_all(&mut self.rowless, &group);
        }
        self.begin_anew(is_rowless);
        Ok(())
    }

    // The events from one on that are looked at next.
    fn group(&self, alloc: Global, known: &Known, from: u32) -> Mem<Bits> {
        let size = self.rowless.size();
        let mut group = Bits::new(alloc, size)?;
        let end = from.saturating_add(self.span).min(size);
        for event in from..end {
            if !self.rowless.has(event) && known.is_felt(event) {
                group.put(event);
            }
        }
        Ok(group)
    }

    // After a look at twice as many events is looked, or at half as many.
    fn begin_anew(&mut self, is_longer: bool)
        ensures { self.new.rowless ≡ self.old.rowless }
    {
        self.steps = 0;
        self.walks = 0;
        self.span = if is_longer {
            self.span.saturating_mul(2)
        } else {
            self.span / 2
        };
    }
}

// Whether no event of a group has a row, since under all of them no effect holds that does not hold under no event.
fn are_rowless(alloc: Global, asked: &Asked<'_>, known: &Known, group: &Bits) -> Mem<bool>
    requires { IsTable asked.now.system.now no_event known.now.base }
    ensures { IfOk result (λ yes. IsTrue yes → AreRowless asked.now.system.now asked.now.effects.now (member group.now)) }
{
    let facts = asked.system.holds(alloc, group)?;
    Ok(are_timed(known.base.items(), &facts, asked.effects))
}

// Whether each of these facts that is in a set has a time in a table.
fn are_timed(times: &[u32], set: &Bits, facts: &[u32]) -> bool
    ensures { IsTrue result → (n : ℕ) → Has (set_of facts.now) n → Has (member set.now) n → Has (ever (time_of times.now)) n }
{
    for fact in facts {
        if set.has(*fact) && time_at(times, *fact) == 0 {
            return false;
        }
    }
    true
}

// Puts the numbers of a set that are below the size of another into that.
fn put_all(set: &mut Bits, more: &Bits)
    ensures { (n : ℕ) → Has (member set.new) n → Has (member set.old) n ⊎ Has (member more.now) n }
{
    for number in 0..set.size() {
        if more.has(number) {
            set.put(number);
        }
    }
}
