//! Linear tests of proposed blocks: where they say yes, the blocks are right, whoever proposed them.

ghost use Rattle.std.specs.Prelude.{◌≡◌, ◌≤◌, ◌⊎◌, ℕ, Contains, IsTrue, IfOk, length, map, true};
ghost use Rattle.std.specs.List.{list_any};
ghost use Rattle.fault_system.specs.Truth.{Has, member, occurs};
ghost use Rattle.dependency_blocks.specs.Blocks.{number_of};
ghost use Rattle.dependency_blocks.specs.inner.Checks.{AreBelow, AreTied, HasMarked, MarksOf, LeadToFirst, ComeFromFirst, Fall, IsLow, leader_of};
ghost use Rattle.backward_slice.specs.Slices.{DependsOn};

use fault_system::{Bits, FaultSystem, Formula};
use plain_values::Mem;
use std::alloc::Global;

/// The number of the block of a fact.
pub(crate) fn number_at(numbers: &[u32], fact: u32) -> u32
    ensures { result ≡ number_of numbers.now fact }
{
    match numbers.get(fact as usize) {
        Some(number) => *number,
        None => 4_294_967_295,
    }
}

/// Whether the facts of a formula are in blocks of at most a number.
#[cycle(below)]
fn are_below(numbers: &[u32], bound: u32, formula: &Formula) -> bool
    ensures { IsTrue result → AreBelow numbers.now bound formula.now }
{
    match formula {
        Formula::True | Formula::Event(_) => true,
        Formula::Fact(number) => number_at(numbers, *number) <= bound,
        Formula::And(parts) | Formula::Or(parts) | Formula::AtLeast(_, parts) => {
            parts_are_below(numbers, bound, parts.items())
        }
    }
}

#[cycle(below)]
fn parts_are_below(numbers: &[u32], bound: u32, parts: &[Formula]) -> bool
    ensures { IsTrue result
        → (m : ℕ) → list_any (λ part. part) (map (occurs m) parts.now) ≡ true → number_of numbers.now m ≤ bound }
{
    for part in parts {
        if !are_below(numbers, bound, part) {
            return false;
        }
    }
    true
}

/// Whether a marked fact of a block occurs in a formula.
#[cycle(marked)]
fn has_marked(numbers: &[u32], marks: &Bits, block: u32, formula: &Formula) -> bool
    ensures { IsTrue result → HasMarked numbers.now marks.now block formula.now }
{
    match formula {
        Formula::True | Formula::Event(_) => false,
        Formula::Fact(number) => marks.has(*number) && number_at(numbers, *number) == block,
        Formula::And(parts) | Formula::Or(parts) | Formula::AtLeast(_, parts) => {
            parts_have_marked(numbers, marks, block, parts.items())
        }
    }
}

#[cycle(marked)]
fn parts_have_marked(numbers: &[u32], marks: &Bits, block: u32, parts: &[Formula]) -> bool
    ensures { IsTrue result → (m : ℕ) × (list_any (λ part. part) (map (occurs m) parts.now) ≡ true)
        × Has (member marks.now) m × (number_of numbers.now m ≡ block) }
{
    for part in parts {
        if has_marked(numbers, marks, block, part) {
            return true;
        }
    }
    false
}

/// Marks the facts of a block that occur in a formula.
#[cycle(mark)]
fn mark(numbers: &[u32], marks: &mut Bits, block: u32, formula: &Formula)
    ensures size { length marks.new ≡ length marks.old }
    ensures marks { MarksOf numbers.now block formula.now marks.old marks.new }
{
    match formula {
        Formula::True | Formula::Event(_) => {}
        Formula::Fact(number) => mark_one(numbers, marks, block, *number),
        Formula::And(parts) | Formula::Or(parts) | Formula::AtLeast(_, parts) => {
            mark_parts(numbers, marks, block, parts.items())
        }
    }
}

fn mark_one(numbers: &[u32], marks: &mut Bits, block: u32, number: u32)
    ensures size { length marks.new ≡ length marks.old }
    ensures marks { (m : ℕ) → Has (member marks.new) m → Has (member marks.old) m ⊎ ((number ≡ m) × (number_of numbers.now m ≡ block)) }
{
    if number < marks.size() && number_at(numbers, number) == block {
        marks.put(number);
    }
}

#[cycle(mark)]
fn mark_parts(numbers: &[u32], marks: &mut Bits, block: u32, parts: &[Formula])
    ensures size { length marks.new ≡ length marks.old }
    ensures marks { (m : ℕ) → Has (member marks.new) m → Has (member marks.old) m
        ⊎ ((list_any (λ part. part) (map (occurs m) parts.now) ≡ true) × (number_of numbers.now m ≡ block)) }
{
    for part in parts {
        mark(numbers, marks, block, part);
    }
}

/// Whether each fact of a slice depends on blocks of at most its own number.
pub(crate) fn fall(system: &FaultSystem, numbers: &[u32], facts: &[u32]) -> bool
    ensures { IsTrue result → Fall system.now numbers.now facts.now }
{
    for number in facts {
        if !is_low(system, numbers, *number) {
            return false;
        }
    }
    true
}

fn is_low(system: &FaultSystem, numbers: &[u32], number: u32) -> bool
    ensures { IsTrue result → IsLow system.now numbers.now number }
{
    match system.fact(number) {
        Some(fact) => are_below(numbers, number_at(numbers, number), &fact.formula),
        None => true,
    }
}

/// How the facts of a block are tied to its first fact.
#[derive(Clone, Copy)]
pub(crate) enum Way {
    /// They depend on it.
    Towards,
    /// It depends on them.
    Onward,
}

/// Marks facts that are tied to the first fact of their block, in the order that is given. Towards the first these are
/// each that is the first or has a marked fact of its block in its formula; onward each that is the first, and the facts
/// of its block in the formula of each marked one.
pub(crate) fn tied(
    alloc: Global,
    system: &FaultSystem,
    numbers: &[u32],
    leaders: &[u32],
    order: &[u32],
    way: Way,
) -> Mem<Bits>
    ensures { IfOk result (AreTied way system.now numbers.now leaders.now) }
{
    let mut marks = Bits::new(alloc, system.facts())?;
    for number in order {
        tie(system, numbers, leaders, &mut marks, *number, way);
    }
    Ok(marks)
}

fn tie(
    system: &FaultSystem,
    numbers: &[u32],
    leaders: &[u32],
    marks: &mut Bits,
    number: u32,
    way: Way,
)
    requires { AreTied way system.now numbers.now leaders.now marks.old }
    ensures { AreTied way system.now numbers.now leaders.now marks.new }
{
    match way {
        Way::Towards => lead(system, numbers, leaders, marks, number),
        Way::Onward => {
            begin(system, numbers, leaders, marks, number);
            go_on(system, numbers, leaders, marks, number);
        }
    }
}

fn lead(system: &FaultSystem, numbers: &[u32], leaders: &[u32], marks: &mut Bits, number: u32)
    requires { LeadToFirst system.now numbers.now leaders.now marks.old }
    ensures { LeadToFirst system.now numbers.now leaders.now marks.new }
{
    if number < marks.size() && leads(system, numbers, leaders, marks, number) {
        marks.put(number);
    }
}

fn leads(system: &FaultSystem, numbers: &[u32], leaders: &[u32], marks: &Bits, number: u32) -> bool
    requires { LeadToFirst system.now numbers.now leaders.now marks.now }
    ensures { IsTrue result → DependsOn system.now number (leader_of numbers.now leaders.now number) }
{
    if is_first(numbers, leaders, number) {
        return true;
    }
    match system.fact(number) {
        Some(fact) => has_marked(numbers, marks, number_at(numbers, number), &fact.formula),
        None => false,
    }
}

/// Whether a fact is the first of its block.
fn is_first(numbers: &[u32], leaders: &[u32], number: u32) -> bool
    ensures { IsTrue result → leader_of numbers.now leaders.now number ≡ number }
{
    number_at(leaders, number_at(numbers, number)) == number
}

fn begin(system: &FaultSystem, numbers: &[u32], leaders: &[u32], marks: &mut Bits, number: u32)
    requires { ComeFromFirst system.now numbers.now leaders.now marks.old }
    ensures { ComeFromFirst system.now numbers.now leaders.now marks.new }
{
    if number < marks.size() && is_first(numbers, leaders, number) {
        marks.put(number);
    }
}

fn go_on(system: &FaultSystem, numbers: &[u32], leaders: &[u32], marks: &mut Bits, number: u32)
    requires { ComeFromFirst system.now numbers.now leaders.now marks.old }
    ensures { ComeFromFirst system.now numbers.now leaders.now marks.new }
{
    match system.fact(number) {
        Some(fact) if marks.has(number) => {
            mark(numbers, marks, number_at(numbers, number), &fact.formula);
        }
        _ => {}
    }
}

/// Whether each of some facts is marked.
pub(crate) fn all_marked(marks: &Bits, facts: &[u32]) -> bool
    ensures { IsTrue result → (n : ℕ) → Contains facts.now n → Has (member marks.now) n }
{
    for number in facts {
        if !marks.has(*number) {
            return false;
        }
    }
    true
}
