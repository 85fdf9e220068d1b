//! Linear tests of a changed table: where they say yes it is right, whoever proposed the changes.

ghost use Rattle.std.specs.Prelude.{◌≤◌, ◌<◌, ◌+◌, ◌^◌, ℕ, IsTrue, slice_index_or};
ghost use Rattle.fault_system.specs.Truth.{Has, set_of};
ghost use Rattle.fmea_rows.specs.inner.Tables.{AllFit, Fits, FitsAround, FitsWhereFelt, IsTested, facts_of, tested_of};

use crate::change::Change;
use crate::truth::{Run, fits};
use fact_users::{Users, users_at};
use plain_values::List;

/// Whether the times of a table fit wherever changes or an event may be felt. Each fact is tested once: those whose times fit
/// get a mark, which is higher than all marks before.
pub(crate) fn fits_where_felt(
    run: &Run<'_>,
    users: &Users,
    event: u32,
    changes: &[Change],
    marks: &mut [u32],
) -> bool
    requires few { event + 1 < 2 ^ 32 }
    requires low { (n : ℕ) → slice_index_or marks.old n 0 ≤ event }
    ensures low { (n : ℕ) → slice_index_or marks.new n 0 ≤ event + 1 }
    ensures fits { IsTrue result
        → FitsWhereFelt (tested_of run.now) users.now event changes.now }
{
    let mark = event + 1;
    if !fit_around(run, users.facts.as_slice(), changes, mark, marks) {
        return false;
    }
    all_fit(run, users_at(users.events.as_slice(), event), mark, marks)
}

// Whether the times of the facts that change and of their users fit.
fn fit_around(
    run: &Run<'_>,
    users: &[List<u32>],
    changes: &[Change],
    mark: u32,
    marks: &mut [u32],
) -> bool
    requires { IsTested (tested_of run.now) mark marks.old }
    ensures tested { IsTested (tested_of run.now) mark marks.new }
    ensures fit { IsTrue result → (g : ℕ) → Has (set_of (facts_of changes.now)) g
        → FitsAround (tested_of run.now) users.now g }
{
    for change in changes {
        if !fits_with_users(run, users, change.fact, mark, marks) {
            return false;
        }
    }
    true
}

// Whether the times of a fact and of its users fit.
fn fits_with_users(
    run: &Run<'_>,
    users: &[List<u32>],
    fact: u32,
    mark: u32,
    marks: &mut [u32],
) -> bool
    requires { IsTested (tested_of run.now) mark marks.old }
    ensures tested { IsTested (tested_of run.now) mark marks.new }
    ensures fit { IsTrue result → FitsAround (tested_of run.now) users.now fact }
{
    if !fits_once(run, fact, mark, marks) {
        return false;
    }
    all_fit(run, users_at(users, fact), mark, marks)
}

// Whether the times of these facts fit.
fn all_fit(run: &Run<'_>, facts: &[u32], mark: u32, marks: &mut [u32]) -> bool
    requires { IsTested (tested_of run.now) mark marks.old }
    ensures tested { IsTested (tested_of run.now) mark marks.new }
    ensures fit { IsTrue result → AllFit (tested_of run.now) (set_of facts.now) }
{
    for fact in facts {
        if !fits_once(run, *fact, mark, marks) {
            return false;
        }
    }
    true
}

// Whether the time of a fact fits; it is tested where the fact has no mark yet.
fn fits_once(run: &Run<'_>, fact: u32, mark: u32, marks: &mut [u32]) -> bool
    requires { IsTested (tested_of run.now) mark marks.old }
    ensures tested { IsTested (tested_of run.now) mark marks.new }
    ensures fits { IsTrue result → Fits (tested_of run.now) fact }
{
    let at = fact as usize;
    if at < marks.len() && marks[at] == mark {
        return true;
    }
    let is_fit = fits(run, fact);
    if is_fit && at < marks.len() {
        marks[at] = mark;
    }
    is_fit
}
