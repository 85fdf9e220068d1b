//! The tree of a target.

ghost use Rattle.std.specs.Prelude.{◌≡◌, ℕ, IfOk, find, option_copied};
ghost use Rattle.phases.specs.inner.Meets.{IsMemory, Meets, MeetsBut};
ghost use Rattle.backward_slice.specs.Slices.{IsSlice};
ghost use Rattle.galileo_writer.specs.inner.TreeText.{AreRates, HasTextNames};
ghost use Rattle.round_gates.specs.inner.Targets.{IsWellMade};
ghost use Rattle.system_answers.specs.Texts.{formed_tree, rated_tree, tree_for};
ghost use Rattle.system_answers.specs.Trees.{IsMefText, IsShaped, IsTextIn, IsTreeText, is_unrated, title_of, unrated_in};
ghost use Rattle.system_answers.specs.inner.Forms.{IsTrueFor, IsWritable, tree_bytes};
ghost use Rattle.dot_writer.specs.TreePicture.{dot_text};

use crate::form::{TreeForm, TreeFormat, TreeText};
use backward_slice::Slice;
use dependency_blocks::blocks;
use dot_writer::{DotLines, Title, is_mark};
use fault_system::FaultSystem;
use galileo_writer::TreeLines;
use merged_gates::merged;
use open_psa_writer::{MefLines, may_be_written};
use phases::Status;
use plain_values::{List, Mem, Name, copied};
use property_reader::{Rate, RateKind};
use round_gates::{GateAnswer, Tree, staged};
use std::alloc::Global;

/// The text of the tree of the target of a slice in a form, in which the events have these rates.
pub fn formed(
    alloc: Global,
    system: FaultSystem,
    rates: List<Rate>,
    part: &Slice,
    form: TreeForm,
) -> Result<TreeText, Status>
    requires slice { IsSlice system part.now.target part.now }
    requires writable { IsWritable form.format system rates }
    ensures { MeetsBut IsMemory tree_bytes (formed_tree part.now.target form system rates) result }
{
    let tree = tree_of(alloc, &system, part)?;
    test_rates(alloc, &system, rates.items(), &tree, form.rated)?;
    let shaped = shape(alloc, &system, tree, form.merged)?;
    let text = text_of(alloc, system, shaped, rates, form, part.target)?;
    Ok(text)
}

/// The tree of the target of a slice.
fn tree_of(alloc: Global, system: &FaultSystem, part: &Slice) -> Result<Tree, Status>
    requires { IsSlice system.now part.now.target part.now }
    ensures tree { Meets (tree_for part.now.target system.now) result }
    ensures made { IfOk result (IsWellMade system.now) }
    ensures truth { IfOk result (λ tree. IsTrueFor system.now part.now.target tree) }
{
    let found = blocks(alloc, system, part)?;
    match staged(alloc, system, part, &found) {
        Ok(tree) => Ok(tree),
        Err(GateAnswer::Constant(always)) => Err(Status::Constant(always)),
        Err(GateAnswer::Refused(refusal)) => Err(Status::Refused(refusal)),
        Err(GateAnswer::Memory) => Err(Status::Memory),
    }
}

/// Refuses a tree in which an event has no rate, where each must have one.
fn test_rates(
    alloc: Global,
    system: &FaultSystem,
    rates: &[Rate],
    tree: &Tree,
    rated: bool,
) -> Result<(), Status>
    ensures { MeetsBut IsMemory (λ _. tt) (rated_tree rated system.now rates.now tree.now) result }
{
    match unrated_in(rates, tree, rated) {
        None => Ok(()),
        Some(event) => Err(Status::Unrated(copied(alloc, system.event_name(event))?)),
    }
}

/// The first event of a tree that has no rate, where each must have one.
fn unrated_in(rates: &[Rate], tree: &Tree, rated: bool) -> Option<u32>
    ensures { result ≡ unrated_in rated rates.now tree.now }
{
    if rated {
        first_unrated(rates, tree.events.items())
    } else {
        None
    }
}

/// The first of some events that has no rate.
fn first_unrated(rates: &[Rate], events: &[u32]) -> Option<u32>
    ensures { result ≡ find (is_unrated rates.now) events.now }
{
    where_unrated(rates, events).copied()
}

/// The first of some events that has no rate, where it stands.
fn where_unrated<'e>(rates: &[Rate], events: &'e [u32]) -> Option<&'e u32>
    ensures { option_copied result ≡ find (is_unrated rates.now) events.now }
{
    events.iter().find(|event| is_unrated(rates, **event))
}

/// Whether an event has no rate.
fn is_unrated(rates: &[Rate], event: u32) -> bool
    ensures { result ≡ is_unrated rates.now event }
{
    match rates.get(event as usize) {
        Some(rate) => is_mark(rate.kind, rate.text.items()),
        None => is_mark(RateKind::Prob, b"1"),
    }
}

/// The tree with its gates as they are written, or merged.
fn shape(alloc: Global, system: &FaultSystem, tree: Tree, is_merged: bool) -> Mem<Tree>
    requires { IsWellMade system.now tree }
    ensures shaped { IfOk result (IsShaped is_merged tree) }
    ensures made { IfOk result (IsWellMade system.now) }
    ensures truth { (target : ℕ) → IsTrueFor system.now target tree → IfOk result (IsTrueFor system.now target) }
{
    if is_merged {
        merged(alloc, system, &tree)
    } else {
        Ok(tree)
    }
}

/// The text of a tree in a form.
fn text_of(
    alloc: Global,
    system: FaultSystem,
    tree: Tree,
    rates: List<Rate>,
    form: TreeForm,
    target: u32,
) -> Mem<TreeText>
    requires made { IsWellMade system tree }
    requires writable { IsWritable form.format system rates }
    requires truth { IsTrueFor system target tree }
    ensures { IfOk result (λ text. IsTextIn form.format form.legend system rates target tree (tree_bytes text)) }
{
    match form.format {
        TreeFormat::Galileo => Ok(TreeText::Galileo(galileo(system, tree, rates))),
        TreeFormat::Mef => Ok(TreeText::Mef(exchanged(alloc, system, tree, rates))),
        TreeFormat::Dot => {
            let lines = picture(alloc, system, tree, rates, form.legend, target)?;
            Ok(TreeText::Dot(lines))
        }
    }
}

/// The Galileo text of a tree.
fn galileo(system: FaultSystem, tree: Tree, rates: List<Rate>) -> TreeLines
    requires made { IsWellMade system tree }
    requires names { HasTextNames system }
    requires rates { AreRates system rates }
    ensures { (target : ℕ) → IsTrueFor system target tree → IsTreeText system rates target tree result }
{
    TreeLines::new(system, tree, rates)
}

/// The text of a tree in the Open-PSA Model Exchange Format.
fn exchanged(alloc: Global, system: FaultSystem, tree: Tree, rates: List<Rate>) -> MefLines
    requires made { IsWellMade system tree }
    requires rates { AreRates system rates }
    ensures { (target : ℕ) → IsTrueFor system target tree → IsMefText system rates target tree result }
{
    may_be_written();
    MefLines::new(alloc, system, tree, rates)
}

/// The picture of a tree, with the name of the target at its top, and these lines in its legend.
fn picture(
    alloc: Global,
    system: FaultSystem,
    tree: Tree,
    rates: List<Rate>,
    legend: List<Name>,
    target: u32,
) -> Mem<DotLines>
    ensures { IfOk result (λ text. text ≡ dot_text system tree rates (title_of system target legend)) }
{
    let name = copied(alloc, system.fact_name(target))?;
    let title = Title {
        target: name,
        legend,
    };
    DotLines::new(alloc, system, tree, rates, title)
}
