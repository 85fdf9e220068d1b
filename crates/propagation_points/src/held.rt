ghost use Rattle.std.specs.Prelude.{◌≡◌, ◌++◌, IfOk, OnOk};
ghost use Rattle.plain_values.specs.Numbered.{numbered_from};
ghost use Rattle.propagation_points.specs.States.{covered_variant, held_numbers, selected};

use crate::side::Reach;
use plain_values::{List, Mem};
use std::alloc::{AllocError, Global};

/// What a name with a set behind it, or without one, selects of a state or an event. Variants are named by their numbers, from 0.
#[derive(Drop)]
pub enum Held {
    /// The state or the event itself, which is declared and written without a set: its one variant.
    One(u32),
    /// Those of these variants, rising.
    Any(List<u32>),
}

impl Held {
    /// The numbers of the variants that are selected.
    pub fn numbers(self, alloc: Global) -> Mem<List<u32>>
        ensures { IfOk result (λ numbers. numbers ≡ held_numbers self) }
    {
        match self {
            Held::One(number) => {
                let mut numbers = List::new(alloc);
                numbers.push(number)?;
                Ok(numbers)
            }
            Held::Any(numbers) => Ok(numbers),
        }
    }
}

/// What a reach selects of a state or an event with this first variant and these types.
pub(crate) fn selected(
    alloc: Global,
    first: u32,
    types: &Option<List<u32>>,
    reach: &Reach,
) -> Mem<Held>
    ensures { IfOk result (λ held. held ≡ selected first types.now reach.now) }
{
    match (types, reach) {
        (None, Reach::Whole) => Ok(Held::One(first)),
        (None, Reach::Only(_)) => Ok(Held::Any(List::new(alloc))),
        (Some(types), reach) => Ok(Held::Any(covered(alloc, first, types.items(), reach)?)),
    }
}

fn covered(alloc: Global, first: u32, types: &[u32], reach: &Reach) -> Mem<List<u32>>
    ensures { IfOk result (λ numbers. numbers ≡ numbered_from (covered_variant reach.now first) 0 types.now) }
{
    let mut numbers = List::new(alloc);
    for (place, number) in types.iter().enumerate() {
        add_covered(&mut numbers, first, place, *number, reach)?;
    }
    Ok(numbers)
}

fn add_covered(
    numbers: &mut List<u32>,
    first: u32,
    place: usize,
    number: u32,
    reach: &Reach,
) -> Mem<()>
    ensures { OnOk result (numbers.new ≡ numbers.old ++ covered_variant reach.now first place number) }
{
    if !reach.covers(number) {
        return Ok(());
    }
    if place > 4_294_967_295 - first as usize {
        return Err(AllocError);
    }
    numbers.push(first + place as u32)
}
