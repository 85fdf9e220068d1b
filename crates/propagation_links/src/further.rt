ghost use Rattle.std.specs.Prelude.{◌≡◌, ◌≤◌, ◌<◌, ◌+◌, ◌^◌, ◌++◌, IfOk, OnOk, false, flat_map, map, sum, true};
ghost use Rattle.profiles.specs.declared.profile.Profile.TheVariants.{First, Second};
ghost use Rattle.propagation_links.specs.Links.{bound_links, carried_links};
ghost use Rattle.propagation_links.specs.Refused.{count_bound, count_carried, count_links};
ghost use Rattle.propagation_links.specs.inner.Steps.{AreFew, IsFurther};

use crate::bound::{BoundTo, functions_of, held_of};
use crate::bound_links::{add_all_bound, count_references};
use crate::carried::{CarriedConnection, carried_of, count_all_carried};
use crate::carried_links::add_all_carried;
use crate::link::Link;
use crate::pointed::Pointed;
use crate::tables::BindingTables;
use plain_values::{List, Mem};
use profiles::Profile;
use std::alloc::Global;

/// The bindings that count under the second profile alone: those of processors, memories and virtual buses that the first does not read,
/// those of functions, and those of connections.
#[derive(Drop)]
pub(crate) struct Further<'r> {
    held: List<BoundTo<'r>>,
    functions: List<BoundTo<'r>>,
    carried: List<CarriedConnection<'r>>,
}

impl<'r> Further<'r> {
    /// Those of an instance under a profile: none under the first.
    pub(crate) fn of(
        alloc: Global,
        profile: Profile,
        tables: &BindingTables<'r>,
    ) -> Mem<Further<'r>>
        requires { count_links tables.now ≤ 1048576 }
        ensures are { IfOk result (IsFurther profile tables.now) }
        ensures few { IfOk result AreFew }
    {
        match profile {
            Profile::First => Ok(Further::none(alloc)),
            Profile::Second => Further::second(alloc, tables),
        }
    }

    fn none(alloc: Global) -> Further<'r>
        ensures are { (instance : _) → IsFurther First instance result }
        ensures few { AreFew result }
    {
        Further {
            held: List::new(alloc),
            functions: List::new(alloc),
            carried: List::new(alloc),
        }
    }

    fn second(alloc: Global, tables: &BindingTables<'r>) -> Mem<Further<'r>>
        requires { count_links tables.now ≤ 1048576 }
        ensures are { IfOk result (IsFurther Second tables.now) }
        ensures few { IfOk result AreFew }
    {
        let held = held_of(alloc, tables)?;
        let functions = functions_of(alloc, tables)?;
        let carried = carried_of(alloc, tables)?;
        Ok(Further {
            held,
            functions,
            carried,
        })
    }

    /// Adds the links of these bindings.
    pub(crate) fn add_links(&self, links: &mut List<Link>, pointed: &Pointed) -> Mem<()>
        ensures { OnOk result (links.new ≡ links.old ++ (flat_map (bound_links pointed.now false) self.now.held ++ (flat_map (bound_links pointed.now true) self.now.functions ++ flat_map (carried_links pointed.now) self.now.carried))) }
    {
        add_all_bound(links, pointed, false, self.held.items())?;
        add_all_bound(links, pointed, true, self.functions.items())?;
        add_all_carried(links, pointed, self.carried.items())
    }

    /// How many references they have.
    pub(crate) fn count(&self) -> usize
        requires { AreFew self.now }
        ensures count { result ≡ sum (map count_bound self.now.held) + (sum (map count_bound self.now.functions) + sum (map count_carried self.now.carried)) }
        ensures few { result < 2 ^ 53 }
    {
        let of_functions = count_references(self.functions.items());
        let of_connections = count_all_carried(self.carried.items());
        count_references(self.held.items()) + (of_functions + of_connections)
    }
}
