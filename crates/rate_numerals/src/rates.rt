//! The rates of the events of a tree.

ghost use Rattle.std.specs.Prelude.{◌≡◌, IfOk, map, true};
ghost use Rattle.galileo_reader.specs.TreeSystems.{system_of};
ghost use Rattle.galileo_reader.specs.inner.Rates.{HasNumbers};
ghost use Rattle.galileo_writer.specs.inner.TreeText.{AreRates};
ghost use Rattle.rate_numerals.specs.Rates.{in_numerals, rates_of};

use crate::numeral::numeral_of;
use galileo_reader::{NamedEvent, NamedTree};
use plain_values::{List, Mem};
use property_reader::Rate;
use std::alloc::Global;

/// The rate of each event of a tree, its number with a digit before the point and one behind it, as AADL writes it.
pub fn rates_of(alloc: Global, tree: &NamedTree) -> Mem<List<Rate>>
    requires { HasNumbers true tree.now }
    ensures rates { IfOk result (λ rates. rates ≡ rates_of tree.now) }
    ensures numbers { IfOk result (AreRates (system_of tree.now)) }
{
    rates_in(alloc, tree.events.items())
}

/// The rates of some events.
fn rates_in(alloc: Global, events: &[NamedEvent]) -> Mem<List<Rate>>
    ensures { IfOk result (λ rates. rates ≡ map (λ event. in_numerals event.rate) events.now) }
{
    let mut rates = List::new(alloc);
    for event in events {
        let rate = rate_in_numerals(alloc, &event.rate)?;
        rates.push(rate)?;
    }
    Ok(rates)
}

/// A rate of its own.
fn rate_in_numerals(alloc: Global, rate: &Rate) -> Mem<Rate>
    ensures { IfOk result (λ made. made ≡ in_numerals rate.now) }
{
    let text = numeral_of(alloc, rate.text.items())?;
    Ok(Rate {
        kind: rate.kind,
        text,
    })
}
