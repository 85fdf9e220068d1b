//! Changes of a table of rounds: made, taken back, and whether each is of another fact.

ghost use Rattle.std.specs.Prelude.{◌≡◌, IsTrue, length, slice_set};
ghost use Rattle.plain_values.specs.Rising.{RisesWithin};
ghost use Rattle.fault_system.specs.Rounds.{time_of};
ghost use Rattle.fmea_rows.specs.inner.Tables.{changed, facts_of};

/// A fact that has another time in a table.
#[derive(Clone, Copy)]
pub(crate) struct Change {
    pub fact: u32,
    pub time: u32,
}

/// Whether the facts that change rise, and are below a number.
pub(crate) fn are_rising(changes: &[Change], count: u32) -> bool
    ensures { IsTrue result → RisesWithin 0 count (facts_of changes.now) }
{
    let mut low: u64 = 0;
    for change in changes {
        if u64::from(change.fact) < low || change.fact >= count {
            return false;
        }
        low = u64::from(change.fact) + 1;
    }
    true
}

/// The time of a fact in a table; 0 where it has none.
pub(crate) fn time_at(times: &[u32], fact: u32) -> u32
    ensures { result ≡ time_of times.now fact }
{
    times.get(fact as usize).copied().unwrap_or(0)
}

// Gives a fact of a table a time.
fn put_time(times: &mut [u32], fact: u32, time: u32)
    ensures { times.new ≡ slice_set times.old fact time }
{
    if (fact as usize) < times.len() {
        times[fact as usize] = time;
    }
}

/// Makes changes in a table.
pub(crate) fn make_changes(times: &mut [u32], changes: &[Change])
    ensures { times.new ≡ changed times.old changes.now }
{
    for change in changes {
        put_time(times, change.fact, change.time);
    }
}

/// Gives the facts that changed the times that they had.
pub(crate) fn take_back(times: &mut [u32], base: &[u32], changes: &[Change])
    requires rise { RisesWithin 0 (length base.now) (facts_of changes.now) }
    requires table { times.old ≡ changed base.now changes.now }
    ensures { times.new ≡ base.now }
{
    for change in changes {
        put_time(times, change.fact, time_at(base, change.fact));
    }
}
