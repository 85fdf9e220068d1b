//! The plain program of the listing: it tries each set of events in listing order, and keeps the minimal cut sets.
//!
//! It is what faster programs are compared with, and fit for 16 events.
#![tactic(auto)]

ghost use Rattle.std.specs.Prelude.{◌≡◌, ◌+◌, ◌-◌, ◌<◌, ◌≤◌, ◌++◌, [], ◌∷◌, if◌then◌else◌, None, IfOk, OnOk, filter, length, map};
ghost use Rattle.fault_system.specs.CutSets.{IsEventSet};
ghost use Rattle.fault_system.specs.inner.CutSets.{is_minimal};
ghost use Rattle.plain_values.specs.Rising.{RisesWithin};
ghost use Rattle.fault_system.specs.Listings.{IsListing};
ghost use Rattle.fault_system.specs.inner.Listings.{choose};

use fault_system::{FaultSystem, computed_listing};
use plain_values::{List, Mem};
use std::alloc::Global;

/// Of what the minimal cut sets are asked: a target of a system.
#[derive(Clone, Copy)]
struct Asked<'a> {
    /// The system.
    system: &'a FaultSystem,
    /// The fact whose minimal cut sets are listed.
    target: u32,
}

/// The listing of a target: its minimal cut sets, each a rising list of event numbers, fewer events first and then by
/// the smaller number at the first difference. It tries all sets of at most 16 events.
pub fn plain_listing(alloc: Global, system: &FaultSystem, target: u32) -> Mem<List<List<u32>>>
    requires target { target < length system.now.facts }
    requires few { length system.now.events ≤ 16 }
    ensures { IfOk result (λ sets. IsListing system.now target None sets) }
{
    let asked = Asked { system, target };
    let mut listed = List::new(alloc);
    for size in 0..=system.events() {
        let mut chosen = Vec::new(alloc);
        list_with(alloc, &asked, &mut chosen, 0, size, &mut listed)?;
    }
    // By this law the sets that were kept are the listing.
    computed_listing();
    Ok(listed)
}

// Lists the minimal cut sets among those that have the chosen events and so many more from the next event on. What
// was chosen is as before afterwards.
fn list_with(
    alloc: Global,
    asked: &Asked<'_>,
    chosen: &mut Vec<u32>,
    next: u32,
    more: u32,
    listed: &mut List<List<u32>>,
) -> Mem<()>
    requires chosen { RisesWithin 0 next chosen.old.items }
    requires next { next ≤ length asked.now.system.now.events }
    ensures chosen { OnOk result (chosen.new.items ≡ chosen.old.items) }
    ensures listed { OnOk result (listed.new ≡ listed.old ++ filter (is_minimal asked.now.system.now asked.now.target)
        (map (λ rest. chosen.old.items ++ rest) (choose more next (length asked.now.system.now.events - next)))) }
{
    if more == 0 {
        return list_if_minimal(alloc, asked, chosen.as_slice(), listed);
    }
    if next == asked.system.events() {
        return Ok(());
    }
    chosen.push(next)?;
    list_with(alloc, asked, chosen, next + 1, more - 1, listed)?;
    chosen.pop();
    list_with(alloc, asked, chosen, next + 1, more, listed)
}

// Lists a set of events if it is a minimal cut set.
fn list_if_minimal(
    alloc: Global,
    asked: &Asked<'_>,
    set: &[u32],
    listed: &mut List<List<u32>>,
) -> Mem<()>
    requires { IsEventSet asked.now.system.now set.now }
    ensures { OnOk result (listed.new ≡ listed.old
        ++ (if is_minimal asked.now.system.now asked.now.target set.now then set.now ∷ [] else [])) }
{
    if asked.system.is_minimal_cut_set(alloc, asked.target, set)? {
        let kept = List::of(Vec::from_slice(alloc, set)?)?;
        listed.push(kept)?;
    }
    Ok(())
}
