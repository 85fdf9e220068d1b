ghost use Rattle.std.specs.Prelude.{◌≡◌};
ghost use Rattle.fact_formulas.specs.Flat.{is_of_root};

use fault_system::FaultSystem;

/// Whether a fact is one of the root, which is the component of the number 0.
pub fn is_of_root(system: &FaultSystem, number: u32) -> bool
    ensures { result ≡ is_of_root system.now number }
{
    match system.fact(number) {
        Some(fact) => fact.owner == 0,
        None => false,
    }
}
