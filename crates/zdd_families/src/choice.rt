ghost use Rattle.std.specs.Prelude.{◌≡◌, ◌+◌, ◌<◌, ◌≤◌, ℕ, [], map, length, slice_index_or, IfOk, OnOk, All};
ghost use Rattle.zdd_store.specs.inner.Store.{IsIn, family_of, Keeps};
ghost use Rattle.zdd_store.specs.inner.Answers.{IsLeastFamily, IsLeastUpTo};
ghost use Rattle.zdd_families.specs.inner.Steps.{Answered};
ghost use Rattle.zdd_families.specs.inner.Unions.{HasMinimalSets, IsUnionOfSome, some_of};
ghost use Rattle.zdd_families.specs.inner.Rows.{IsMinimalNumber, IsRow, IsRun, IsNextRow, with_part};

use crate::families::note_minimal;
use crate::minimal::minimal_sets;
use crate::product::kept_product;
use crate::union::kept_union;
use plain_values::Mem;
use std::alloc::Global;
use zdd_store::{Id, Store};

/// A part that is said again and again.
#[derive(Clone, Copy)]
struct Run {
    /// Its minimal sets.
    part: Id,
    /// How many times it is said.
    times: usize,
}

/// An entry of the table with one part more, said once or several times: of the entry at its place, and of that so many places below.
fn next_entry(store: &mut Store, part: Id, below: Id, here: Id, most: u32) -> Mem<Id>
    requires part_is { IsMinimalNumber store.old part }
    requires below_is { IsMinimalNumber store.old below }
    requires here_is { IsMinimalNumber store.old here }
    ensures { Answered store.old store.new 0 (IsLeastUpTo most (with_part (family_of store.old part) (family_of store.old below) (family_of store.old here))) result }
{
    let with = kept_product(store, part, below, most)?;
    kept_union(store, here, with)
}

/// Makes the entries from `low` to `high` of a row anew, with the part of a run more. The highest comes first, so that each is made
/// of entries of the row as it was.
fn next_row(
    store: &mut Store,
    row: &mut [Id],
    run: Run,
    low: usize,
    high: usize,
    most: u32,
) -> Mem<()>
    requires within { high < length row.old }
    requires part_is { IsMinimalNumber store.old run.part }
    requires row_is { All (IsMinimalNumber store.old) row.old }
    ensures next { OnOk result (IsNextRow most store.old store.new run.part run.times low high row.old row.new) }
    ensures kept { Keeps store.old store.new }
{
    let mut above = high + 1;
    while above > low {
        let at = above - 1;
        let below = at.saturating_sub(run.times);
        row[at] = next_entry(store, run.part, row[below], row[at], most)?;
        above = at;
    }
    Ok(())
}

/// The row of no parts: the empty set alone at 0, and no set at each place up to k.
fn first_row(alloc: Global, store: &Store, k: u32, most: u32) -> Mem<Vec<Id>>
    ensures row { IfOk result (λ row. IsRow 0 most store.now [] row.items) }
    ensures long { IfOk result (λ row. length row.items ≡ k + 1) }
{
    store.laws();
    let mut row = Vec::new(alloc);
    row.push(Id::UNIT)?;
    for filled in 0..k {
        row.push(Id::EMPTY)?;
    }
    Ok(row)
}

/// The first place from which on, up to `end`, one part is said again and again.
fn first_of_run(parts: &[Id], end: usize) -> usize
    requires some { 0 < end }
    requires within { end ≤ length parts.now }
    ensures before { result < end }
    ensures same { (at : ℕ) (d : Id) → result ≤ at → at < end → slice_index_or parts.now at d ≡ slice_index_or parts.now result d }
{
    let mut first = end - 1;
    while first > 0 {
        if parts[first - 1] != parts[first] {
            return first;
        }
        first -= 1;
    }
    first
}

/// The run that ends before the place `end`.
fn run_before(store: &mut Store, parts: &[Id], end: usize) -> Mem<Run>
    requires some { 0 < end }
    requires within { end ≤ length parts.now }
    requires parts_in { All (IsIn store.old) parts.now }
    ensures ends { IfOk result (IsRun store.old store.new parts.now end) }
    ensures kept { Keeps store.old store.new }
{
    let first = first_of_run(parts, end);
    let part = minimal_sets(store, parts[first])?;
    Ok(Run {
        part,
        times: end - first,
    })
}

/// Puts all parts into the row of no parts, from the last to the first. Only those entries are made from which the one at k can
/// still be reached: k times n - k + 1 for n parts, and fewer where a part is said again and again.
fn fill_row(store: &mut Store, k: usize, parts: &[Id], most: u32, row: &mut [Id]) -> Mem<()>
    requires parts_in { All (IsIn store.old) parts.now }
    requires long { length row.old ≡ k + 1 }
    requires start { IsRow 0 most store.old [] row.old }
    ensures filled { OnOk result (IsRow k most store.new (map (family_of store.old) parts.now) row.new) }
    ensures kept { Keeps store.old store.new }
{
    let mut at = parts.len();
    while at > 0 {
        let last = run_before(store, parts, at)?;
        let first = at - last.times;
        let low = k.saturating_sub(first).max(1);
        let high = k.min(parts.len() - first);
        next_row(store, row, last, low, high, most)?;
        at = first;
    }
    Ok(())
}

/// The row of all parts, whose entry at k is made.
fn last_row(alloc: Global, store: &mut Store, k: u32, parts: &[Id], most: u32) -> Mem<Vec<Id>>
    requires parts_in { All (IsIn store.old) parts.now }
    ensures row { IfOk result (λ row. IsRow k most store.new (map (family_of store.old) parts.now) row.items) }
    ensures long { IfOk result (λ row. length row.items ≡ k + 1) }
    ensures kept { Keeps store.old store.new }
{
    let mut row = first_row(alloc, store, k, most)?;
    fill_row(store, k as usize, parts, most, row.as_mut_slice())?;
    Ok(row)
}

/// The entry at k of the row of all parts; no set where there are fewer parts.
fn last_entry(alloc: Global, store: &mut Store, k: u32, parts: &[Id], most: u32) -> Mem<Id>
    requires parts_in { All (IsIn store.old) parts.now }
    ensures { Answered store.old store.new 0 (IsLeastUpTo most (some_of k (map (family_of store.old) parts.now))) result }
{
    store.laws();
    if k as usize > parts.len() {
        return Ok(Id::EMPTY);
    }
    let row = last_row(alloc, store, k, parts, most)?;
    Ok(note_minimal(store, row[k as usize]))
}

/// The minimal sets among the unions of one set each of k parts at different places.
///
/// It is a table over the parts and k, which takes its memory from the allocator.
pub fn at_least(alloc: Global, store: &mut Store, k: u32, parts: &[Id]) -> Mem<Id>
    requires parts_in { All (IsIn store.old) parts.now }
    ensures found { IfOk result (IsIn store.new) }
    ensures minimal { IfOk result (λ id. HasMinimalSets (family_of store.new id) (IsUnionOfSome k (map (family_of store.old) parts.now))) }
    ensures covers { IfOk result (λ id. IsLeastFamily (some_of k (map (family_of store.old) parts.now)) (family_of store.new id)) }
    ensures kept { Keeps store.old store.new }
{
    store.laws();
    let answer = last_entry(alloc, store, k, parts, 4_294_967_295)?;
    store.laws();
    Ok(answer)
}

/// What `at_least` gives, as far as sets of at most so many numbers are asked for; where these are 2 ^ 32 - 1 each set is.
pub fn at_least_up_to(alloc: Global, store: &mut Store, k: u32, parts: &[Id], most: u32) -> Mem<Id>
    requires parts_in { All (IsIn store.old) parts.now }
    ensures found { IfOk result (IsIn store.new) }
    ensures covers { IfOk result (λ id. IsLeastUpTo most (some_of k (map (family_of store.old) parts.now)) (family_of store.new id)) }
    ensures kept { Keeps store.old store.new }
{
    let answer = last_entry(alloc, store, k, parts, most)?;
    Ok(answer)
}
