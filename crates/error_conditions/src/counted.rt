ghost use Rattle.std.specs.Prelude.{◌+◌, ◌-◌, ◌≡◌, IfOk, List as Items, length, map};
ghost use Rattle.error_conditions.specs.Conditions.{Pair, fails_of, holds_of, pair};
ghost use Rattle.error_conditions.specs.inner.Sides.{at_side, other_side};
ghost use Rattle.error_conditions.specs.declared.cause.Cause.TheVariants.{All, Any, AtLeast};

use crate::cause::Cause;
use crate::side::Side;
use plain_values::{List, Mem};
use std::alloc::AllocError;

/// All of these where they hold, and one of them where they fail.
pub fn all_of(side: Side, causes: List<Cause>) -> Cause
    ensures { (parts : Items Pair) → causes ≡ map (at_side side) parts → result ≡ at_side side (pair (All (holds_of parts)) (Any (fails_of parts))) }
{
    match side {
        Side::Holds => Cause::All(causes),
        Side::Fails => Cause::Any(causes),
    }
}

/// One of these where they hold, and all of them where they fail.
pub(crate) fn any_of(side: Side, causes: List<Cause>) -> Cause
    ensures { (parts : Items Pair) → causes ≡ map (at_side side) parts → result ≡ at_side side (pair (Any (holds_of parts)) (All (fails_of parts))) }
{
    match side {
        Side::Holds => Cause::Any(causes),
        Side::Fails => Cause::All(causes),
    }
}

/// At least so many of these where they hold, and so many that no more than the others hold where they fail.
pub(crate) fn at_least(side: Side, least: u32, causes: List<Cause>) -> Mem<Cause>
    ensures { IfOk result (λ cause. (parts : Items Pair) → causes ≡ map (at_side side) parts → cause ≡ at_side side (pair (AtLeast least (holds_of parts)) (AtLeast (length parts + 1 - least) (fails_of parts)))) }
{
    match side {
        Side::Holds => Ok(Cause::AtLeast(least, causes)),
        Side::Fails => {
            let few = one_more(causes.len_u32())?.saturating_sub(least);
            Ok(Cause::AtLeast(few, causes))
        }
    }
}

/// At most so many of what has these on its other side.
pub(crate) fn at_most(side: Side, most: u32, causes: List<Cause>) -> Mem<Cause>
    ensures { IfOk result (λ cause. (parts : Items Pair) → causes ≡ map (at_side (other_side side)) parts → cause ≡ at_side side (pair (AtLeast (length parts - most) (fails_of parts)) (AtLeast (most + 1) (holds_of parts)))) }
{
    match side {
        Side::Holds => {
            let few = causes.len_u32().saturating_sub(most);
            Ok(Cause::AtLeast(few, causes))
        }
        Side::Fails => Ok(Cause::AtLeast(one_more(most)?, causes)),
    }
}

/// One more; want of memory at the greatest number, which no text has.
fn one_more(number: u32) -> Mem<u32>
    ensures { IfOk result (λ more. more ≡ number + 1) }
{
    if number == u32::MAX {
        return Err(AllocError);
    }
    Ok(number + 1)
}
