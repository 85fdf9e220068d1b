//! A law of the definitions alone: the contract of the function is the law, and its body is empty.

ghost use Rattle.std.specs.Prelude.{◌≡◌, Option};
ghost use Rattle.component_extension.specs.declared.effective.Effective.{Effective};
ghost use Rattle.profiles.specs.declared.profile.Profile.TheVariants.{First};
ghost use Rattle.error_libraries.specs.Libraries.{Table};
ghost use Rattle.error_machines.specs.Machines.{Machine};
ghost use Rattle.error_machines.specs.States.{events_of};
ghost use Rattle.error_machines.specs.inner.First.{events_of as first_events};

/// By the first profile the events of a component are all that it declares, each name once.
pub fn events_by_first()
    ensures { (table : Table) (machine : Option Machine) (effective : Effective) → table.profile ≡ First
        → (events_of table machine effective).sorts ≡ first_events table machine effective }
{}
