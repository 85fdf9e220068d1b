ghost use Rattle.std.specs.Prelude.{◌≡◌, ◌++◌, ◌&&◌, [], cond, false, nat_eq, ℕ, IfOk, OnOk, flat_map, length, option_copied, slice_get, slice_index_or};
ghost use Rattle.noted_refusals.specs.inner.Noted.{noting};
ghost use Rattle.error_libraries.specs.Libraries.{unknown_libraries};
ghost use Rattle.plain_values.specs.Numbered.{numbered_from};
ghost use Rattle.used_sets.specs.inner.Marks.{Marked};
ghost use Rattle.used_sets.specs.Used.{behavior_refusals, behavior_uses, clause_set_refusals, effective_refusals, refusals_with, is_some_set, is_used, item_refusals, items_refusals, machine_set_refusals, machine_sets, propagation_refusals, propagation_uses, set_fault, sets_refusals, use_clause, used_set_refusals, uses_clause, uses_fault};

use crate::items::HasSets;
use crate::sets::WrittenSets;
use aadl_syntax::{MachineDecl, Ref, TypeSet};
use component_extension::{Behavior, ClauseText, Effective, InClause, Propagations};
use error_libraries::Scope;
use error_machines::UsedMachine;
use error_types::{Reading, TypeTable};
use noted_refusals::Refusals;
use plain_values::Mem;
use propagation_points::scopes_of;
use std::alloc::Global;

/// Notes the refusals of the written sets that a component uses: N2, N7, N8 and P4 of the names in the sets of its effective
/// items and of its machine, and N2 of the libraries that their texts use.
#[tactic(auto, using(noted_refusals::proofs::Noting::noted_more))]
pub fn note_used_sets<'a>(
    alloc: Global,
    effective: &Effective<'a>,
    machine: &Option<UsedMachine<'a>>,
    reading: &mut Reading<'_, 'a>,
) -> Mem<()>
    ensures kept { reading.new.types ≡ reading.old.types }
    ensures noted { OnOk result (reading.new.refusals ≡ noting reading.old.refusals (used_set_refusals reading.old.types machine.now effective.now)) }
{
    note_clauses(alloc, effective, reading)?;
    note_machine(alloc, machine, reading)
}

/// Notes the refusals of the sets of the effective items of a component, and of the libraries that their clauses use.
fn note_clauses<'a>(
    alloc: Global,
    effective: &Effective<'a>,
    reading: &mut Reading<'_, 'a>,
) -> Mem<()>
    ensures kept { reading.new.types ≡ reading.old.types }
    ensures noted { OnOk result (reading.new.refusals ≡ noting reading.old.refusals (clause_set_refusals reading.old.types effective.now)) }
{
    let clauses = effective.clauses.items();
    let scopes = scopes_of(alloc, &reading.types, clauses)?;
    let mut marks = no_marks(alloc, clauses.len())?;
    note_with(
        alloc,
        effective,
        reading,
        scopes.items(),
        marks.as_mut_slice(),
    )?;
    Ok(())
}

/// So many marks, of which none is set.
fn no_marks(alloc: Global, count: usize) -> Mem<Vec<bool>>
    ensures none { IfOk result (λ marks. (number : ℕ) → slice_index_or marks.items number false ≡ false) }
    ensures long { IfOk result (λ marks. length marks.items ≡ count) }
{
    vec![in alloc; false; count]
}

/// The same where the clauses have these texts. There is a mark for each clause, and none is set.
fn note_with<'a>(
    alloc: Global,
    effective: &Effective<'a>,
    reading: &mut Reading<'_, 'a>,
    scopes: &[Scope],
    marks: &mut [bool],
) -> Mem<()>
    requires none { (number : ℕ) → slice_index_or marks.old number false ≡ false }
    requires long { length marks.old ≡ length effective.now.clauses }
    ensures kept { reading.new.types ≡ reading.old.types }
    ensures noted { OnOk result (reading.new.refusals ≡ noting reading.old.refusals (refusals_with reading.old.types scopes.now effective.now)) }
{
    note_effective(alloc, effective, reading, scopes, marks)?;
    note_uses(
        &reading.types,
        effective.clauses.items(),
        marks,
        &mut reading.refusals,
    );
    Ok(())
}

/// Notes the refusals of the sets of the effective items of a component, and marks the clauses in which they stand.
#[tactic(auto, using(noted_refusals::proofs::Noting::noted_more))]
fn note_effective<'a>(
    alloc: Global,
    effective: &Effective<'a>,
    reading: &mut Reading<'_, 'a>,
    scopes: &[Scope],
    marks: &mut [bool],
) -> Mem<()>
    ensures kept { reading.new.types ≡ reading.old.types }
    ensures noted { OnOk result (reading.new.refusals ≡ noting reading.old.refusals (effective_refusals reading.old.types scopes.now effective.now)) }
    ensures marks { OnOk result (Marked marks.old marks.new (is_used effective.now)) }
{
    note_propagations(alloc, &effective.propagations, reading, scopes, marks)?;
    note_behavior(alloc, &effective.behavior, reading, scopes, marks)
}

/// Notes the refusals of the sets of points and flows, and marks the clauses in which they stand.
#[tactic(auto, using(noted_refusals::proofs::Noting::noted_more))]
fn note_propagations<'a>(
    alloc: Global,
    propagations: &Propagations<'a>,
    reading: &mut Reading<'_, 'a>,
    scopes: &[Scope],
    marks: &mut [bool],
) -> Mem<()>
    ensures kept { reading.new.types ≡ reading.old.types }
    ensures noted { OnOk result (reading.new.refusals ≡ noting reading.old.refusals (propagation_refusals reading.old.types scopes.now propagations.now)) }
    ensures marks { OnOk result (Marked marks.old marks.new (propagation_uses propagations.now)) }
{
    let points = propagations.points.items();
    note_items(alloc, reading, scopes, points, marks)?;
    let flows = propagations.flows.items();
    note_items(alloc, reading, scopes, flows, marks)?;
    Ok(())
}

/// Notes the refusals of the sets of behavior items, and marks the clauses in which they stand.
fn note_behavior<'a>(
    alloc: Global,
    behavior: &Behavior<'a>,
    reading: &mut Reading<'_, 'a>,
    scopes: &[Scope],
    marks: &mut [bool],
) -> Mem<()>
    ensures kept { reading.new.types ≡ reading.old.types }
    ensures noted { OnOk result (reading.new.refusals ≡ noting reading.old.refusals (behavior_refusals reading.old.types scopes.now behavior.now)) }
    ensures marks { OnOk result (Marked marks.old marks.new (behavior_uses behavior.now)) }
{
    let events = behavior.events.items();
    note_items(alloc, reading, scopes, events, marks)?;
    let transitions = behavior.transitions.items();
    note_items(alloc, reading, scopes, transitions, marks)?;
    let outgoing = behavior.outgoing.items();
    note_items(alloc, reading, scopes, outgoing, marks)?;
    let composites = behavior.composites.items();
    note_items(alloc, reading, scopes, composites, marks)?;
    Ok(())
}

/// Notes the refusals of the sets of items, and marks the clauses in which the items with sets stand.
fn note_items<'a, T: HasSets>(
    alloc: Global,
    reading: &mut Reading<'_, 'a>,
    scopes: &[Scope],
    items: &[InClause<'a, T>],
    marks: &mut [bool],
) -> Mem<()>
    ensures kept { reading.new.types ≡ reading.old.types }
    ensures noted { OnOk result (reading.new.refusals ≡ noting reading.old.refusals (items_refusals T.sets reading.old.types scopes.now items.now)) }
    ensures marks { OnOk result (Marked marks.old marks.new (use_clause T.sets items.now)) }
{
    for item in items {
        note_item(alloc, reading, scopes, item, marks)?;
    }
    Ok(())
}

/// Notes the refusals of the sets of an item, and marks its clause where it has one.
fn note_item<'a, T: HasSets>(
    alloc: Global,
    reading: &mut Reading<'_, 'a>,
    scopes: &[Scope],
    item: &InClause<'a, T>,
    marks: &mut [bool],
) -> Mem<()>
    ensures kept { reading.new.types ≡ reading.old.types }
    ensures noted { OnOk result (reading.new.refusals ≡ noting reading.old.refusals (item_refusals T.sets reading.old.types scopes.now item.now)) }
    ensures marks { OnOk result (Marked marks.old marks.new (λ number. uses_clause T.sets number item.now)) }
{
    let mut sets = WrittenSets::new(alloc);
    item.item().add_sets(&mut sets)?;
    note_sets(alloc, reading, scope_at(scopes, item.scope()), &sets)?;
    mark(marks, item.scope(), is_some_set(&sets));
    Ok(())
}

fn scope_at(scopes: &[Scope], number: usize) -> Option<&Scope>
    ensures { option_copied result ≡ slice_get scopes.now number }
{
    scopes.get(number)
}

fn is_some_set(sets: &WrittenSets) -> bool
    ensures { result ≡ is_some_set sets.now }
{
    sets.sets().len() > 0
}

/// Marks a number, where this is so.
fn mark(marks: &mut [bool], number: usize, is_so: bool)
    ensures { Marked marks.old marks.new (λ other. nat_eq number other && is_so) }
{
    if is_so && number < marks.len() {
        marks[number] = true;
    }
}

/// Notes the first refusals of sets that are read in a text, if there is the text.
fn note_sets<'a>(
    alloc: Global,
    reading: &mut Reading<'_, 'a>,
    scope: Option<&Scope>,
    sets: &WrittenSets<'a>,
) -> Mem<()>
    ensures kept { reading.new.types ≡ reading.old.types }
    ensures noted { OnOk result (reading.new.refusals ≡ noting reading.old.refusals (flat_map (set_fault reading.old.types (option_copied scope.entry)) sets.now)) }
{
    for set in sets.sets() {
        note_set(alloc, reading, scope, set)?;
    }
    Ok(())
}

/// Notes the first refusal of a set that is read in a text, if there is the text.
fn note_set<'a>(
    alloc: Global,
    reading: &mut Reading<'_, 'a>,
    scope: Option<&Scope>,
    set: &'a TypeSet,
) -> Mem<()>
    ensures kept { reading.new.types ≡ reading.old.types }
    ensures noted { OnOk result (reading.new.refusals ≡ noting reading.old.refusals (set_fault reading.old.types (option_copied scope.entry) set.now)) }
{
    if let Some(scope) = scope {
        reading.denote(alloc, scope, set)?;
    }
    Ok(())
}

/// Notes N2 of the libraries that the marked clauses use.
fn note_uses(
    types: &TypeTable<'_, '_>,
    clauses: &[ClauseText<'_>],
    marks: &[bool],
    refusals: &mut Refusals,
)
    ensures { refusals.new ≡ noting refusals.old (numbered_from (uses_fault types.now (λ number. slice_index_or marks.now number false)) 0 clauses.now) }
{
    for (number, clause) in clauses.iter().enumerate() {
        let uses = clause.item().uses.items();
        note_unknown_if(
            types,
            is_marked(marks, number),
            clause.package(),
            uses,
            refusals,
        );
    }
}

fn is_marked(marks: &[bool], number: usize) -> bool
    ensures { result ≡ slice_index_or marks.now number false }
{
    number < marks.len() && marks[number]
}

/// Notes the refusals of the sets of a machine, if there is one.
fn note_machine<'a>(
    alloc: Global,
    machine: &Option<UsedMachine<'a>>,
    reading: &mut Reading<'_, 'a>,
) -> Mem<()>
    ensures kept { reading.new.types ≡ reading.old.types }
    ensures noted { OnOk result (reading.new.refusals ≡ noting reading.old.refusals (machine_set_refusals reading.old.types machine.now)) }
{
    if let Some(machine) = machine {
        let sets = machine_sets(alloc, machine.decl())?;
        note_machine_sets(alloc, reading, machine, &sets)?;
    }
    Ok(())
}

/// Notes the refusals of the sets of a machine, and of the libraries that it uses, if it has a set.
#[tactic(auto, using(noted_refusals::proofs::Noting::noted_more))]
fn note_machine_sets<'a>(
    alloc: Global,
    reading: &mut Reading<'_, 'a>,
    machine: &UsedMachine<'a>,
    sets: &WrittenSets<'a>,
) -> Mem<()>
    ensures kept { reading.new.types ≡ reading.old.types }
    ensures noted { OnOk result (reading.new.refusals ≡ noting reading.old.refusals (sets_refusals reading.old.types machine.now sets.now)) }
{
    let uses = machine.decl().uses.items();
    note_unknown_if(
        &reading.types,
        is_some_set(sets),
        machine.package(),
        uses,
        &mut reading.refusals,
    );
    let scope = reading.types.text_scope(alloc, machine.package(), uses)?;
    note_sets(alloc, reading, Some(&scope), sets)?;
    Ok(())
}

fn note_unknown_if(
    types: &TypeTable<'_, '_>,
    is_so: bool,
    home: u32,
    uses: &[Ref],
    refusals: &mut Refusals,
)
    ensures { refusals.new ≡ noting refusals.old (cond is_so (unknown_libraries types.now.packages home uses.now) []) }
{
    if is_so {
        types.note_unknown(home, uses, refusals);
    }
}

/// The sets of a machine.
fn machine_sets<'a>(alloc: Global, decl: &'a MachineDecl) -> Mem<WrittenSets<'a>>
    ensures { IfOk result (λ sets. sets ≡ machine_sets decl.now) }
{
    let mut sets = WrittenSets::new(alloc);
    add_all(&mut sets, decl.events.items())?;
    add_all(&mut sets, decl.states.items())?;
    add_all(&mut sets, decl.transitions.items())?;
    Ok(sets)
}

/// Adds the sets of items.
fn add_all<'a, T: HasSets>(sets: &mut WrittenSets<'a>, items: &'a [T]) -> Mem<()>
    ensures { OnOk result (sets.new ≡ sets.old ++ flat_map T.sets items.now) }
{
    for item in items {
        item.add_sets(sets)?;
    }
    Ok(())
}
