//! The first minimal cut set, in listing order, that a sentence forbids.
//!
//! Of `order N` no set of N events or more is found, and of `mixed` and `never` few of a greater order than the first that is forbidden;
//! only `without` asks for all sets.

ghost use Rattle.std.specs.Prelude.{◌≡◌, IfOk, MatchOption, filter, map, not};
ghost use Rattle.std.specs.List.{AllByRecursion};
ghost use Rattle.fault_system.specs.Truth.{member};
ghost use Rattle.fault_system.specs.CutSets.{IsEventSet};
ghost use Rattle.zdd_store.specs.inner.Store.{Keeps};
ghost use Rattle.requirement_names.specs.inner.Named.{FitsSets};
ghost use Rattle.requirement_names.specs.declared.named.SetSentence.TheVariants.{Mixed, Never, Order, Without};
ghost use Rattle.requirement_verdicts.specs.Meanings.{HoldsAnyway};
ghost use Rattle.requirement_verdicts.specs.inner.Verdicts.{ForbidsNone, IsFirstForbidden};
ghost use Rattle.forbidden_sets.specs.inner.Families.{AreFound, IsJudged, single};

use crate::families::sets_with;
use crate::found::FoundFamily;
use crate::judged::Judged;
use crate::searching::{first_other, smallest};
use cutset_engine::in_slice;
use fault_system::Bits;
use plain_values::{List, Mem};
use requirement_names::SetSentence;
use std::alloc::Global;
use zdd_store::Store;

/// The first minimal cut set, in listing order, that the sentence forbids, where the target does not hold without any event.
pub fn first_forbidden(
    alloc: Global,
    judged: &Judged<'_>,
    sentence: &SetSentence,
    families: &mut List<FoundFamily>,
    store: &mut Store,
) -> Mem<Option<List<u32>>>
    requires slice { IsJudged judged.now }
    requires families { AreFound judged.now.system.now store.old families.old }
    requires sets { FitsSets judged.now.system.now sentence.now }
    requires some { HoldsAnyway judged.now.system.now judged.now.slice.now.target → ⊥ }
    ensures first { IfOk result (λ found. MatchOption found
        (ForbidsNone judged.now.system.now judged.now.slice.now.target sentence.now)
        (IsFirstForbidden judged.now.system.now judged.now.slice.now.target sentence.now)) }
    ensures kept { Keeps store.old store.new }
    ensures families { AreFound judged.now.system.now store.new families.new }
{
    match sentence {
        SetSentence::Order(least, except) => {
            let parts = except.items();
            small_other(alloc, judged, *least, parts, families, store)
        }
        SetSentence::Mixed(group, most) => {
            let members = group.items();
            first_inside(alloc, judged, members, *most, families, store)
        }
        SetSentence::Without(event) => first_with(alloc, judged, *event, families, store),
        SetSentence::Possible => Ok(None),
        SetSentence::Never => first_of_all(alloc, judged, families, store),
    }
}

/// The first minimal cut set of fewer events than so many that contains none of these sets.
fn small_other(
    alloc: Global,
    judged: &Judged<'_>,
    least: u32,
    except: &[List<u32>],
    families: &mut List<FoundFamily>,
    store: &mut Store,
) -> Mem<Option<List<u32>>>
    requires slice { IsJudged judged.now }
    requires families { AreFound judged.now.system.now store.old families.old }
    requires sets { AllByRecursion (IsEventSet judged.now.system.now) except.now }
    requires some { HoldsAnyway judged.now.system.now judged.now.slice.now.target → ⊥ }
    ensures first { IfOk result (λ found. MatchOption found
        (ForbidsNone judged.now.system.now judged.now.slice.now.target (Order least except.now))
        (IsFirstForbidden judged.now.system.now judged.now.slice.now.target (Order least except.now))) }
    ensures kept { Keeps store.old store.new }
    ensures families { AreFound judged.now.system.now store.new families.new }
{
    let _few = judged.system.event_infos();
    let most = least.saturating_sub(1).min(judged.system.events());
    first_other(alloc, judged, except, most, families, store)
}

/// The first minimal cut set, of at most so many events where that is given, that lies in a group. None is sought where the target does not
/// hold under all events of the group.
fn first_inside(
    alloc: Global,
    judged: &Judged<'_>,
    group: &[u32],
    most: Option<u32>,
    families: &mut List<FoundFamily>,
    store: &mut Store,
) -> Mem<Option<List<u32>>>
    requires slice { IsJudged judged.now }
    requires families { AreFound judged.now.system.now store.old families.old }
    requires group { IsEventSet judged.now.system.now group.now }
    requires some { HoldsAnyway judged.now.system.now judged.now.slice.now.target → ⊥ }
    ensures first { IfOk result (λ found. MatchOption found
        (ForbidsNone judged.now.system.now judged.now.slice.now.target (Mixed group.now most))
        (IsFirstForbidden judged.now.system.now judged.now.slice.now.target (Mixed group.now most))) }
    ensures kept { Keeps store.old store.new }
    ensures families { AreFound judged.now.system.now store.new families.new }
{
    in_slice();
    let _few = judged.system.event_infos();
    let count = judged.system.events();
    let events = Bits::of(alloc, count, group)?;
    if !judged
        .system
        .makes_hold(alloc, judged.slice.target, &events)?
    {
        return Ok(None);
    }
    let needed = judged.slice.events.items();
    let outside = single_sets(alloc, needed, &events)?;
    let parts = outside.items();
    let order = most.unwrap_or(count).min(count);
    first_other(alloc, judged, parts, order, families, store)
}

/// The sets of one number each, of those of a list that are in no set.
fn single_sets(alloc: Global, numbers: &[u32], marks: &Bits) -> Mem<List<List<u32>>>
    ensures { IfOk result (λ sets. sets ≡ map single (filter (λ number. not (member marks.now number)) numbers.now)) }
{
    let mut sets = List::new(alloc);
    for number in numbers {
        let set = single_set(alloc, *number)?;
        sets.push_if(set, !marks.has(*number))?;
    }
    Ok(sets)
}

/// The set of one number.
fn single_set(alloc: Global, number: u32) -> Mem<List<u32>>
    ensures { IfOk result (λ set. set ≡ single number) }
{
    let mut set = List::new(alloc);
    set.push(number)?;
    Ok(set)
}

/// The first minimal cut set that has an event.
fn first_with(
    alloc: Global,
    judged: &Judged<'_>,
    event: u32,
    families: &mut List<FoundFamily>,
    store: &mut Store,
) -> Mem<Option<List<u32>>>
    requires slice { IsJudged judged.now }
    requires families { AreFound judged.now.system.now store.old families.old }
    ensures first { IfOk result (λ found. MatchOption found
        (ForbidsNone judged.now.system.now judged.now.slice.now.target (Without event))
        (IsFirstForbidden judged.now.system.now judged.now.slice.now.target (Without event))) }
    ensures kept { Keeps store.old store.new }
    ensures families { AreFound judged.now.system.now store.new families.new }
{
    let most = judged.system.events();
    let with_it = sets_with(alloc, judged, event, families, store)?;
    smallest(alloc, store, with_it, most)
}

/// The first minimal cut set.
fn first_of_all(
    alloc: Global,
    judged: &Judged<'_>,
    families: &mut List<FoundFamily>,
    store: &mut Store,
) -> Mem<Option<List<u32>>>
    requires slice { IsJudged judged.now }
    requires families { AreFound judged.now.system.now store.old families.old }
    requires some { HoldsAnyway judged.now.system.now judged.now.slice.now.target → ⊥ }
    ensures first { IfOk result (λ found. MatchOption found
        (ForbidsNone judged.now.system.now judged.now.slice.now.target Never)
        (IsFirstForbidden judged.now.system.now judged.now.slice.now.target Never)) }
    ensures kept { Keeps store.old store.new }
    ensures families { AreFound judged.now.system.now store.new families.new }
{
    let most = judged.system.events();
    first_other(alloc, judged, &[], most, families, store)
}
