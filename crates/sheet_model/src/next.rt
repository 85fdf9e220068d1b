//! Where what goes wrong in a component is felt next.

ghost use Rattle.std.specs.Prelude.{◌≡◌, ◌<◌, ◌++◌, ◌∷◌, ℕ, List as Items, [], IfOk, OnOk, cond, filter, length, map, option_to_list, slice_index_or};
ghost use Rattle.std.specs.List.Sorted.{IsStrictlyIncreasing};
ghost use Rattle.fault_system.specs.Truth.{set_of};
ghost use Rattle.plain_values.specs.Numbered.{numbers_below};
ghost use Rattle.sheet_model.specs.Parts.{holder_at, holder_of, next_of, part_of};
ghost use Rattle.propagation_links.specs.declared.link.Link.{Link as Joined};
ghost use Rattle.sheet_model.specs.inner.Felt.{AddsTargets, AreTargets, is_other, targets_of};

use crate::gathered::{add_at, empty_lists, list_at};
use crate::part::{Part, category_of, classifier_of};
use aadl_syntax::Identifier;
use instantiator::Instance;
use plain_values::{List, Mem};
use propagation_links::Link;
use std::alloc::Global;

/// What each component of an instance with these links is, in order. The time goes with the components and the links.
pub(crate) fn parts_of(
    alloc: Global,
    instance: &Instance<'_, '_>,
    links: &[Link],
) -> Mem<List<Part>>
    ensures { IfOk result (λ parts. parts ≡ map (part_of instance.now links.now) (numbers_below (length instance.now.components))) }
{
    let count = instance.components().len() as u32;
    let targets = targets_of(alloc, links, count)?;
    let mut parts = List::new(alloc);
    for number in 0..count {
        let part = part_of(alloc, instance, targets.as_slice(), number)?;
        parts.push(part)?;
    }
    Ok(parts)
}

/// For each of so many components, the components to which links lead from it.
fn targets_of(alloc: Global, links: &[Link], count: u32) -> Mem<Vec<List<u32>>>
    ensures { IfOk result (λ lists. AreTargets count links.now lists.items) }
{
    let mut lists = empty_lists(alloc, count)?;
    add_targets(lists.as_mut_slice(), links)?;
    Ok(lists)
}

/// Adds to the list of each component those to which links lead from it.
fn add_targets(lists: &mut [List<u32>], links: &[Link]) -> Mem<()>
    ensures { OnOk result (AddsTargets links.now lists.old lists.new) }
{
    for link in links {
        add_at(lists, link.from.component, link.to.component)?;
    }
    Ok(())
}

/// What a component is, where these are the components to which links lead from each.
fn part_of(
    alloc: Global,
    instance: &Instance<'_, '_>,
    targets: &[List<u32>],
    number: u32,
) -> Mem<Part>
    ensures { IfOk result (λ part. (links : Items Joined) → slice_index_or targets.now number [] ≡ targets_of links number → part ≡ part_of instance.now links number) }
{
    let classifier = instance.classifier(number);
    let category = category_of(alloc, instance.index(), classifier)?;
    let classifier = classifier_of(alloc, instance.index(), classifier)?;
    let next = next_of(alloc, instance, list_at(targets, number), number)?;
    Ok(Part {
        category,
        classifier,
        next,
    })
}

/// The components in which what goes wrong in that of a number is felt next, where links lead to these from it.
fn next_of(alloc: Global, instance: &Instance<'_, '_>, felt: &[u32], number: u32) -> Mem<List<u32>>
    ensures { IfOk result (λ next. (links : Items Joined) → felt.now ≡ targets_of links number → next ≡ next_of instance.now links number) }
{
    let count = instance.components().len() as u32;
    let found = with_holder(alloc, felt, holder_of(instance, number))?;
    let others = others_of(alloc, count, number, found.as_slice())?;
    Ok(once_each(others)?)
}

/// The component in which that of a number stands, if it stands in one.
fn holder_of(instance: &Instance<'_, '_>, number: u32) -> Option<u32>
    ensures { result ≡ holder_of instance.now number }
{
    let component = instance.components().get(number as usize)?;
    holder_at(instance, component.path.names())
}

/// The component in which that of a path stands, if it stands in one.
fn holder_at(instance: &Instance<'_, '_>, names: &[&Identifier]) -> Option<u32>
    ensures { result ≡ holder_at instance.now.components (map (λ name. name.now) names.now) }
{
    let (_last, front) = names.split_last()?;
    instance.find(front)
}

/// These numbers, and one more if there is one.
fn with_holder(alloc: Global, felt: &[u32], holder: Option<u32>) -> Mem<Vec<u32>>
    ensures { IfOk result (λ found. found.items ≡ felt.now ++ option_to_list holder) }
{
    let mut found = Vec::from_slice(alloc, felt)?;
    if let Some(holder) = holder {
        found.push(holder)?;
    }
    Ok(found)
}

/// Those of some numbers that are below a count and are not the one number.
fn others_of(alloc: Global, count: u32, number: u32, found: &[u32]) -> Mem<Vec<u32>>
    ensures { IfOk result (λ others. others.items ≡ filter (is_other count number) found.now) }
{
    let mut others = Vec::new(alloc);
    for other in found {
        push_if(&mut others, *other, *other < count && *other != number)?;
    }
    Ok(others)
}

/// Adds a number, where this is so.
fn push_if(numbers: &mut Vec<u32>, number: u32, is_so: bool) -> Mem<()>
    ensures { OnOk result (numbers.new.items ≡ numbers.old.items ++ cond is_so (number ∷ []) []) }
{
    if is_so {
        numbers.push(number)?;
    }
    Ok(())
}

/// These numbers, each once and rising.
fn once_each(numbers: Vec<u32>) -> Mem<List<u32>>
    ensures rising { IfOk result IsStrictlyIncreasing }
    ensures same { IfOk result (λ list. (n : ℕ) → set_of list n ≡ set_of numbers.items n) }
{
    let mut numbers = numbers;
    numbers.sort()?;
    numbers.dedup();
    Ok(List::of(numbers)?)
}
