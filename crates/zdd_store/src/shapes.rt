//! What is known of the families of numbers: how many numbers their sets have, whether each is minimal, and whether those
//! with the first variable cover what the others do.

ghost use Rattle.std.specs.Prelude.{◌≡◌, ◌+◌, ◌<◌, ◌≤◌, ℕ, length, slice_get};
ghost use Rattle.zdd_store.specs.inner.Family.{Family, branch, IsAntichain};
ghost use Rattle.zdd_store.specs.inner.Answers.{HasShape, IsWide};
ghost use Rattle.zdd_store.specs.inner.Store.{Families, IsSound, family_at, family_of};
ghost use Rattle.zdd_store.specs.inner.Nodes.{AreShapes};

use crate::id::Id;

/// What is known of a family.
#[derive(Clone, Copy, Debug, PartialEq, Eq)]
pub struct Shape {
    /// Each set has at least so many numbers.
    pub least: u32,
    /// Each set has at most so many numbers; it may have more where this is 2 ^ 32 - 1.
    pub greatest: u32,
    /// No set is within another one; where this is false one may be.
    pub apart: bool,
    /// The sets with the first variable cover what those without it do; where this is false they may not.
    pub wide: bool,
}

/// The least size of the sets of two families, of which the second are to have one number more.
fn least_of_both(lo: u32, hi: u32) -> u32
    ensures lo { result ≤ lo }
    ensures hi { result ≤ hi + 1 }
{
    lo.min(hi.saturating_add(1))
}

/// The greatest size of the sets of two families, of which the second are to have one number more.
fn greatest_of_both(lo: u32, hi: u32) -> u32
    ensures lo { lo ≤ result }
    ensures hi { result < 4294967295 → hi + 1 ≤ result }
{
    lo.max(hi.saturating_add(1))
}

/// What is known of a branch, from what is known of its children.
fn of_branch(lo: Shape, hi: Shape) -> Shape
    ensures { (var : ℕ) (low high : Family) → HasShape low lo → HasShape high hi → HasShape (branch var low high) result }
{
    Shape {
        least: least_of_both(lo.least, hi.least),
        greatest: greatest_of_both(lo.greatest, hi.greatest),
        apart: false,
        wide: false,
    }
}

fn shape_at(table: &[Shape], place: usize) -> Option<Shape>
    ensures { result ≡ slice_get table.now place }
{
    table.get(place).copied()
}

/// What is known of a number's family, by the table of the nodes.
pub(crate) fn shape_of(table: &[Shape], id: Id) -> Shape
    ensures { (store : Families) → IsSound store → AreShapes store table.now → HasShape (family_of store id) result }
{
    if id.position == 0 {
        return Shape {
            least: 4_294_967_295,
            greatest: 0,
            apart: true,
            wide: false,
        };
    }
    if id.position == 1 {
        return Shape {
            least: 0,
            greatest: 0,
            apart: false,
            wide: false,
        };
    }
    match shape_at(table, id.position as usize - 2) {
        Some(shape) => shape,
        None => Shape {
            least: 0,
            greatest: 4_294_967_295,
            apart: false,
            wide: false,
        },
    }
}

/// Notes what is known of the node at a place of the store, if it is the first one of which nothing is. Where memory is
/// refused nothing is noted from there on.
pub(crate) fn note_shape(table: &mut Vec<Shape>, place: usize, lo: Id, hi: Id)
    ensures { (store : Families) (var : ℕ) → IsSound store → place + 2 < length store
        → family_at store (place + 2) ≡ branch var (family_of store lo) (family_of store hi)
        → AreShapes store table.old.items → AreShapes store table.new.items }
{
    if place != table.as_slice().len() {
        return;
    }
    let low = shape_of(table.as_slice(), lo);
    let high = shape_of(table.as_slice(), hi);
    let _noted = table.push(of_branch(low, high));
}

/// Notes of a number's family that no set is within another one.
pub(crate) fn note_apart(table: &mut [Shape], id: Id)
    ensures { (store : Families) → IsAntichain (family_of store id) → AreShapes store table.old → AreShapes store table.new }
{
    if id.position < 2 {
        return;
    }
    let place = id.position as usize - 2;
    let Some(shape) = shape_at(table, place) else {
        return;
    };
    table[place] = Shape {
        least: shape.least,
        greatest: shape.greatest,
        apart: true,
        wide: shape.wide,
    };
}

/// Notes of a number's family that its sets with the first variable cover what those without it do.
pub(crate) fn note_wide(table: &mut [Shape], id: Id)
    ensures { (store : Families) → IsWide (family_of store id) → AreShapes store table.old → AreShapes store table.new }
{
    if id.position < 2 {
        return;
    }
    let place = id.position as usize - 2;
    let Some(shape) = shape_at(table, place) else {
        return;
    };
    table[place] = Shape {
        least: shape.least,
        greatest: shape.greatest,
        apart: shape.apart,
        wide: true,
    };
}
