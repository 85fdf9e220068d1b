//! What is told of a text of requirements.

ghost use Rattle.std.specs.Prelude.{◌≡◌, ℕ, List as Items, IfErr, IfOk, Ok};
ghost use Rattle.std.specs.List.{AllByRecursion};
ghost use Rattle.requirements.specs.Requirements.{requirements_of};
ghost use Rattle.requirement_names.specs.inner.Named.{AreNamed, FitsModel};
ghost use Rattle.requirement_lines.specs.declared.told.RequirementFault.TheVariants.{Memory};
ghost use Rattle.requirement_lines.specs.inner.Judged.{IsMisnamedSo, IsMisread, IsRefusedFor, Says, TellsRequirements};
ghost use Rattle.requirement_lines.specs.Rulings.{are_met};
ghost use Rattle.requirement_lines.specs.Lines.{verdicts_text};

use crate::judgement::Judgement;
use crate::judging::all_judged;
use crate::lines::{are_met, verdicts_text};
use crate::told::{LineForm, RequirementFault, Told};
use fault_system::FaultSystem;
use plain_values::List;
use property_reader::Rate;
use requirement_names::{NameFault, NamedRequirement, named_fit, resolved};
use requirements::{Fault, Requirements, requirements_of};
use std::alloc::Global;

/// What is told of a text of requirements over a system whose events have these rates: a line for each, whether it is met, broken or vacuous, and whether each is met.
///
/// It is refused with the place of a word that is wrong (Q1), with the first name that is wrong (Q3 to Q7), where there is no requirement
/// (Q2), and with the first requirement that is not judged, since the slice of its target is too large (M10, M11).
pub fn require(
    alloc: Global,
    system: &FaultSystem,
    rates: &[Rate],
    text: &[u8],
    form: LineForm,
) -> Result<Told, RequirementFault>
    ensures told { IfOk result (TellsRequirements system.now rates.now text.now form) }
    ensures refused { IfErr result (IsRefusedFor system.now rates.now text.now) }
{
    match read(alloc, text) {
        Ok(all) => told_of(alloc, system, rates, &all, form),
        Err(fault) => Err(fault),
    }
}

/// The same, of the requirements that a text reads as.
fn told_of(
    alloc: Global,
    system: &FaultSystem,
    rates: &[Rate],
    all: &Requirements,
    form: LineForm,
) -> Result<Told, RequirementFault>
    ensures told { (text : Items ℕ) → requirements_of text ≡ Ok all.now → IfOk result (TellsRequirements system.now rates.now text form) }
    ensures refused { (text : Items ℕ) → requirements_of text ≡ Ok all.now → IfErr result (IsRefusedFor system.now rates.now text) }
{
    named_fit();
    match named(alloc, system, all) {
        Ok(named) => told_named(alloc, system, rates, named.items(), form),
        Err(fault) => Err(fault),
    }
}

/// The same, of requirements that a text says over a system.
fn told_named(
    alloc: Global,
    system: &FaultSystem,
    rates: &[Rate],
    named: &[NamedRequirement],
    form: LineForm,
) -> Result<Told, RequirementFault>
    requires { AllByRecursion (FitsModel system.now) named.now }
    ensures told { (text : Items ℕ) → Says system.now text named.now → IfOk result (TellsRequirements system.now rates.now text form) }
    ensures refused { (text : Items ℕ) → Says system.now text named.now → IfErr result (IsRefusedFor system.now rates.now text) }
{
    match all_judged(alloc, system, rates, named) {
        Ok(judgements) => told_lines(alloc, system, judgements.items(), form),
        Err(fault) => Err(fault),
    }
}

/// The lines of judgements, and whether all requirements are met.
fn told_lines(
    alloc: Global,
    system: &FaultSystem,
    judgements: &[Judgement],
    form: LineForm,
) -> Result<Told, RequirementFault>
    ensures text { IfOk result (λ told. told.text.items ≡ verdicts_text form system.now judgements.now) }
    ensures met { IfOk result (λ told. told.all_met ≡ are_met judgements.now) }
    ensures memory { IfErr result (λ fault. fault ≡ Memory) }
{
    match verdicts_text(alloc, system, judgements, form) {
        Ok(text) => Ok(Told {
            text,
            all_met: are_met(judgements),
        }),
        Err(_) => Err(RequirementFault::Memory),
    }
}

/// The requirements of a text, by their names.
fn read(alloc: Global, text: &[u8]) -> Result<Requirements, RequirementFault>
    ensures read { IfOk result (λ all. requirements_of text.now ≡ Ok all) }
    ensures wrong { IfErr result (IsMisread text.now) }
{
    match requirements_of(alloc, text) {
        Ok(all) => Ok(all),
        Err(Fault::Memory) => Err(RequirementFault::Memory),
        Err(Fault::Wrong(at)) => Err(RequirementFault::Unread(at)),
    }
}

/// The same, with numbers in place of names.
fn named(
    alloc: Global,
    system: &FaultSystem,
    all: &Requirements,
) -> Result<List<NamedRequirement>, RequirementFault>
    ensures named { IfOk result (AreNamed system.now all.now) }
    ensures wrong { IfErr result (IsMisnamedSo system.now all.now) }
{
    match resolved(alloc, system, all) {
        Ok(named) => Ok(named),
        Err(NameFault::Memory) => Err(RequirementFault::Memory),
        Err(NameFault::NoRequirement) => Err(RequirementFault::NoRequirement),
        Err(NameFault::Wrong(word)) => Err(RequirementFault::Unnamed(word)),
    }
}
