ghost use Rattle.std.specs.Prelude.{◌≡◌, ◌∷◌, ◌++◌, [], cond, false, filter, flat_map, length, replicate, slice_index_or, IfOk, OnOk};
ghost use Rattle.plain_values.specs.Numbered.{numbers_below};
ghost use Rattle.model_facts.specs.Assembly.{declared_numbers, point_numbers, universe_of};
ghost use Rattle.model_facts.specs.inner.Steps.{Marks};

use crate::assembly::Assembly;
use crate::sides::side_numbers;
use error_models::ErrorModel;
use error_types::TypeTable;
use plain_values::{List, Mem};
use propagation_points::Point;
use std::alloc::{AllocError, Global};

/// The universe of a model: all types that are declared for a point of some component, rising.
pub fn universe_of(alloc: Global, assembly: &Assembly) -> Mem<List<u32>>
    ensures { IfOk result (λ universe. universe ≡ universe_of assembly.now) }
{
    let marks = marks_of(alloc, assembly)?;
    marked(alloc, marks.as_slice())
}

/// A mark for each type, which is set where the type is declared for a point.
fn marks_of(alloc: Global, assembly: &Assembly) -> Mem<Vec<bool>>
    ensures { IfOk result (λ marks. Marks (replicate (length assembly.now.types.types) false) (declared_numbers assembly.now.models) marks.items) }
{
    let mut marks = unmarked(alloc, assembly.types())?;
    mark_models(marks.as_mut_slice(), assembly.models());
    Ok(marks)
}

/// A mark for each type, none of which is set.
fn unmarked(alloc: Global, types: &TypeTable) -> Mem<Vec<bool>>
    ensures { IfOk result (λ marks. marks.items ≡ replicate (length types.now.types) false) }
{
    let count = count_types(types)? as usize;
    Ok(vec![in alloc; false; count]?)
}

/// How many types there are.
pub(crate) fn count_types(types: &TypeTable) -> Mem<u32>
    ensures { IfOk result (λ count. count ≡ length types.now.types) }
{
    let mut count = 0;
    while types.name(count).is_some() {
        if count == u32::MAX {
            return Err(AllocError);
        }
        count += 1;
    }
    Ok(count)
}

/// Marks the types that are declared for the points of some model.
fn mark_models(marks: &mut [bool], models: &[ErrorModel])
    ensures { Marks marks.old (declared_numbers models.now) marks.new }
{
    for model in models {
        mark_points(marks, model.points.list());
    }
}

fn mark_points(marks: &mut [bool], points: &[Point])
    ensures { Marks marks.old (flat_map point_numbers points.now) marks.new }
{
    for point in points {
        mark_point(marks, point);
    }
}

fn mark_point(marks: &mut [bool], point: &Point)
    ensures { Marks marks.old (point_numbers point.now) marks.new }
{
    mark_all(marks, side_numbers(point.side(false)));
    mark_all(marks, side_numbers(point.side(true)));
}

fn mark_all(marks: &mut [bool], numbers: &[u32])
    ensures { Marks marks.old numbers.now marks.new }
{
    for number in numbers {
        mark(marks, *number);
    }
}

/// Marks a number, if it has a mark.
fn mark(marks: &mut [bool], number: u32)
    ensures { Marks marks.old (number ∷ []) marks.new }
{
    if (number as usize) < marks.len() {
        marks[number as usize] = true;
    }
}

/// The numbers that are marked, rising.
fn marked(alloc: Global, marks: &[bool]) -> Mem<List<u32>>
    ensures { IfOk result (λ numbers. numbers ≡ filter (λ number. slice_index_or marks.now number false) (numbers_below (length marks.now))) }
{
    let mut numbers = List::new(alloc);
    for number in 0..marks.len() {
        push_marked(&mut numbers, number, marks[number])?;
    }
    Ok(numbers)
}

/// Adds a number, if it is marked.
fn push_marked(numbers: &mut List<u32>, number: usize, is_marked: bool) -> Mem<()>
    ensures { OnOk result (numbers.new ≡ numbers.old ++ cond is_marked (number ∷ []) []) }
{
    if number > 4_294_967_295 {
        return Err(AllocError);
    }
    if is_marked {
        numbers.push(number as u32)?;
    }
    Ok(())
}
