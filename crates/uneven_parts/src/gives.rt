//! What states give at the points of their components.

ghost use Rattle.std.specs.Prelude.{◌≡◌, IfOk};
ghost use Rattle.std.specs.HashSet.{contains};
ghost use Rattle.uneven_parts.specs.Quiet.{gives, gives_some, same_given, same_giver};
ghost use Rattle.uneven_parts.specs.inner.Tables.{KnowsGiven, KnowsGivers};

use plain_values::Mem;
use std::alloc::Global;
use std::collections::HashSet;
use std::marker::Model;

/// What is given: a component, a point of it, and a state that occurs in a formula of what exits there.
pub(crate) type Given = (u32, u32, u32);

/// All that is given. Contracts see it as a list.
#[derive(Drop)]
pub(crate) struct Gives<'g> {
    all: &'g [Given],
    given: HashSet<Given>,
    givers: HashSet<(u32, u32)>,
}

impl<'g> Model for Gives<'g> {
    ghost use Rattle.std.specs.Prelude.{List};
    ghost use Rattle.std.specs.HashSet.{contains};
    ghost use Rattle.uneven_parts.specs.Quiet.{Given as Gift, same_given, same_giver};
    ghost use Rattle.uneven_parts.specs.inner.Tables.{KnowsGiven, KnowsGivers};

    ghost Value = { List Gift };

    ghost view = { λ g. g.all.now };

    ghost invariant = { λ g. KnowsGiven g.all.now (contains same_given g.given) × KnowsGivers g.all.now (contains same_giver g.givers) };
}

impl<'g> Gives<'g> {
    /// Of these.
    pub(crate) fn of(alloc: Global, all: &'g [Given]) -> Mem<Gives<'g>>
        ensures { IfOk result (λ gives. gives ≡ all.now) }
    {
        let given = given_set(alloc, all)?;
        let givers = giver_set(alloc, all)?;
        Ok(Gives { all, given, givers })
    }

    /// Whether a state gives something at a point of a component.
    pub(crate) fn has(&self, owner: u32, point: u32, state: u32) -> bool
        ensures { result ≡ gives self.now owner point state }
    {
        self.given.contains(&(owner, point, state))
    }

    /// Whether a state gives something at some point of a component.
    pub(crate) fn has_some(&self, owner: u32, state: u32) -> bool
        ensures { result ≡ gives_some self.now owner state }
    {
        self.givers.contains(&(owner, state))
    }
}

fn given_set(alloc: Global, all: &[Given]) -> Mem<HashSet<Given>>
    ensures { IfOk result (λ set. KnowsGiven all.now (contains same_given set)) }
{
    let mut set = HashSet::new(alloc);
    for one in all {
        set.insert(*one)?;
    }
    Ok(set)
}

fn giver_set(alloc: Global, all: &[Given]) -> Mem<HashSet<(u32, u32)>>
    ensures { IfOk result (λ set. KnowsGivers all.now (contains same_giver set)) }
{
    let mut set = HashSet::new(alloc);
    for (owner, _, state) in all {
        set.insert((*owner, *state))?;
    }
    Ok(set)
}
