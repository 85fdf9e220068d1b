ghost use Rattle.std.specs.Prelude.{◌≡◌, IfOk, map};
ghost use Rattle.fact_formulas.specs.Formulas.{cause_formula, step_formula};

use crate::site::Site;
use error_behavior::Step;
use error_conditions::Cause;
use fault_system::Formula;
use model_facts::EventKind;
use plain_values::{List, Mem};
use std::alloc::Global;

/// A condition of a component as a formula.
#[cycle(cause)]
pub(crate) fn cause_formula(alloc: Global, site: &Site, cause: &Cause) -> Mem<Formula>
    ensures { IfOk result (λ formula. formula ≡ cause_formula site.now cause.now) }
{
    match cause {
        Cause::Event(number) => Ok(site.event(alloc, EventKind::Declared(*number))),
        Cause::State(below) => Ok(site.below(alloc, below.path.items(), below.state)),
        Cause::Point(reached) => site.some_entering(alloc, reached),
        Cause::All(parts) => Ok(Formula::And(cause_formulas(alloc, site, parts.items())?)),
        Cause::Any(parts) => Ok(Formula::Or(cause_formulas(alloc, site, parts.items())?)),
        Cause::AtLeast(least, parts) => Ok(Formula::AtLeast(
            *least,
            cause_formulas(alloc, site, parts.items())?,
        )),
    }
}

#[cycle(cause)]
fn cause_formulas(alloc: Global, site: &Site, causes: &[Cause]) -> Mem<List<Formula>>
    ensures { IfOk result (λ formulas. formulas ≡ map (cause_formula site.now) causes.now) }
{
    let mut formulas = List::new(alloc);
    for cause in causes {
        formulas.push(cause_formula(alloc, site, cause)?)?;
    }
    Ok(formulas)
}

/// The formulas of conditions, in order.
pub(crate) fn conditions(alloc: Global, site: &Site, causes: &[&Cause]) -> Mem<List<Formula>>
    ensures { IfOk result (λ formulas. formulas ≡ map (cause_formula site.now) (map (λ cause. cause.now) causes.now)) }
{
    let mut formulas = List::new(alloc);
    for cause in causes {
        formulas.push(cause_formula(alloc, site, cause)?)?;
    }
    Ok(formulas)
}

/// The formulas of transitions, in order.
pub(crate) fn steps(alloc: Global, site: &Site, steps: &[&Step]) -> Mem<List<Formula>>
    ensures { IfOk result (λ formulas. formulas ≡ map (step_formula site.now) (map (λ step. step.now) steps.now)) }
{
    let mut formulas = List::new(alloc);
    for step in steps {
        formulas.push(step_formula(alloc, site, step)?)?;
    }
    Ok(formulas)
}

/// A transition as a formula: its source and its trigger.
fn step_formula(alloc: Global, site: &Site, step: &Step) -> Mem<Formula>
    ensures { IfOk result (λ formula. formula ≡ step_formula site.now step.now) }
{
    let mut parts = List::new(alloc);
    parts.push(site.origin(alloc, &step.origin)?)?;
    parts.push(cause_formula(alloc, site, &step.trigger)?)?;
    Ok(Formula::And(parts))
}
