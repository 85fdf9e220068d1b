ghost use Rattle.std.specs.Prelude.{◌≡◌, ◌++◌, Some, IfOk, OnOk, fold};
ghost use Rattle.component_extension.specs.inner.Effective.{AreOtherItems, ArePropagations, IsBehavior};
ghost use Rattle.component_extension.specs.Items.{machine_by, machine_of, spots_of};

use crate::items::{ClauseText, InClause, gathered};
use aadl_syntax::{
    Association, Composite, Emv2Clause, EventDecl, Flow, Outgoing, PointItem, Ref, Transition,
    UserPath, UserPoint,
};
use plain_values::{List, Mem, Spot};
use std::alloc::Global;

/// The points of a classifier, and what lies between them.
#[derive(Drop)]
pub struct Propagations<'a> {
    pub points: List<InClause<'a, PointItem>>,
    pub flows: List<InClause<'a, Flow>>,
    pub user_points: List<InClause<'a, UserPoint>>,
    pub user_paths: List<InClause<'a, UserPath>>,
}

/// The behavior of a classifier, beside that of its machine.
#[derive(Drop)]
pub struct Behavior<'a> {
    pub events: List<InClause<'a, EventDecl>>,
    pub transitions: List<InClause<'a, Transition>>,
    pub outgoing: List<InClause<'a, Outgoing>>,
    pub composites: List<InClause<'a, Composite>>,
}

/// What else the clauses of a classifier have: property associations, and the places of each `use` of mappings and of
/// each block of connection errors.
#[derive(Drop)]
pub struct OtherItems<'a> {
    pub associations: List<InClause<'a, Association>>,
    pub mappings: List<Spot>,
    pub connection_errors: List<Spot>,
}

/// The points of these clauses, and what lies between them.
pub fn propagations_of<'a>(alloc: Global, clauses: &[ClauseText<'a>]) -> Mem<Propagations<'a>>
    ensures { IfOk result (ArePropagations clauses.now) }
{
    let points = gathered(alloc, clauses)?;
    let flows = gathered(alloc, clauses)?;
    let user_points = gathered(alloc, clauses)?;
    let user_paths = gathered(alloc, clauses)?;
    Ok(Propagations {
        points,
        flows,
        user_points,
        user_paths,
    })
}

/// The behavior of these clauses, beside that of their machine.
pub fn behavior_of<'a>(alloc: Global, clauses: &[ClauseText<'a>]) -> Mem<Behavior<'a>>
    ensures { IfOk result (IsBehavior clauses.now) }
{
    let events = gathered(alloc, clauses)?;
    let transitions = gathered(alloc, clauses)?;
    let outgoing = gathered(alloc, clauses)?;
    let composites = gathered(alloc, clauses)?;
    Ok(Behavior {
        events,
        transitions,
        outgoing,
        composites,
    })
}

/// What else these clauses have.
pub fn other_items_of<'a>(alloc: Global, clauses: &[ClauseText<'a>]) -> Mem<OtherItems<'a>>
    ensures { IfOk result (AreOtherItems clauses.now) }
{
    let associations = gathered(alloc, clauses)?;
    let mappings = spots_of::<Mappings>(alloc, clauses)?;
    let connection_errors = spots_of::<ConnectionErrors>(alloc, clauses)?;
    Ok(OtherItems {
        associations,
        mappings,
        connection_errors,
    })
}

/// The name of the machine of the nearest clause that uses one.
pub fn machine_of<'a>(clauses: &[ClauseText<'a>]) -> Option<InClause<'a, Ref>>
    ensures { result ≡ machine_of clauses.now }
{
    let mut machine = None;
    for (scope, clause) in clauses.iter().enumerate() {
        machine = machine_by(machine, scope, clause);
    }
    machine
}

fn machine_by<'a>(
    before: Option<InClause<'a, Ref>>,
    scope: usize,
    clause: &ClauseText<'a>,
) -> Option<InClause<'a, Ref>>
    ensures { result ≡ fold (λ before machine. Some machine) before.entry (machine_by scope clause.now) }
{
    match &clause.item().machine {
        Some(name) => Some(InClause::new(scope, name)),
        None => before,
    }
}

/// A sort of places that a clause lists.
trait SpotKind {
    ghost use Rattle.std.specs.Prelude.{◌≡◌, List};
    ghost use Rattle.aadl_syntax.specs.declared.error_model.Emv2Clause.{Emv2Clause};
    ghost use Rattle.plain_values.specs.declared.spot.Spot.{Spot};

    ghost spots: { Emv2Clause → List Spot };

    fn spots(clause: &Emv2Clause) -> &[Spot]
        ensures { result.now ≡ spots clause.now };
}

struct Mappings;

impl SpotKind for Mappings {
    ghost spots = { λ clause. clause.mappings };

    fn spots(clause: &Emv2Clause) -> &[Spot] {
        clause.mappings.items()
    }
}

struct ConnectionErrors;

impl SpotKind for ConnectionErrors {
    ghost spots = { λ clause. clause.connection_errors };

    fn spots(clause: &Emv2Clause) -> &[Spot] {
        clause.connection_errors.items()
    }
}

fn spots_of<S: SpotKind>(alloc: Global, clauses: &[ClauseText<'_>]) -> Mem<List<Spot>>
    ensures { IfOk result (λ spots. spots ≡ spots_of S.spots clauses.now) }
{
    let mut spots = List::new(alloc);
    for clause in clauses {
        add_spots(&mut spots, S::spots(clause.item()))?;
    }
    Ok(spots)
}

fn add_spots(spots: &mut List<Spot>, more: &[Spot]) -> Mem<()>
    ensures { OnOk result (spots.new ≡ spots.old ++ more.now) }
{
    for spot in more {
        spots.push(*spot)?;
    }
    Ok(())
}
