//! A law of the definitions alone: the contract of the function is the law, and its body is empty.

ghost use Rattle.std.specs.Prelude.{◌≡◌, ◌<◌, ℕ, List, true};
ghost use Rattle.propagation_points.specs.declared.held.Held.{Held};
ghost use Rattle.propagation_points.specs.States.{held_numbers};
ghost use Rattle.error_libraries.specs.Search.{is_number_in};
ghost use Rattle.error_conditions.specs.inner.Strict.{Covers, World};
ghost use Rattle.composite_states.specs.Below.{state_pair};

/// A component below that is in a variant of its states, by its number, is covered by what it means that it is in some of them.
pub fn covers_state()
    ensures { (world : World) (path : List (List ℕ)) (count number : ℕ) (held : Held)
        → number < count → world.states (record { path = path; state = number }) ≡ true
        → Covers world (is_number_in (held_numbers held) number) (state_pair path count held) }
{}
