ghost use Rattle.std.specs.Prelude.{◌≡◌, ◌++◌, OnOk};
ghost use Rattle.used_sets.specs.Sets.{flow_kind_sets};

use crate::conditions::{add_condition, add_perhaps, add_states};
use crate::sets::WrittenSets;
use aadl_syntax::{
    Composite, EventDecl, Flow, FlowKind, Outgoing, PointItem, StateDecl, Transition,
};
use plain_values::Mem;

/// A kind of item with written sets.
pub(crate) trait HasSets: Sized {
    ghost use Rattle.std.specs.Prelude.{◌≡◌, ◌++◌, List, OnOk};
    ghost use Rattle.aadl_syntax.specs.declared.error_model.TypeSet.{TypeSet};

    ghost sets: { Self → List TypeSet };

    /// Adds the sets of the item.
    fn add_sets<'a>(&'a self, written: &mut WrittenSets<'a>) -> Mem<()>
        ensures { OnOk result (written.new ≡ written.old ++ sets self.now) };
}

impl HasSets for PointItem {
    ghost use Rattle.used_sets.specs.Sets.{point_sets};

    ghost sets = { point_sets };

    fn add_sets<'a>(&'a self, written: &mut WrittenSets<'a>) -> Mem<()> {
        written.push(&self.set)
    }
}

impl HasSets for EventDecl {
    ghost use Rattle.used_sets.specs.Sets.{event_sets};

    ghost sets = { event_sets };

    fn add_sets<'a>(&'a self, written: &mut WrittenSets<'a>) -> Mem<()> {
        written.add(&self.set)
    }
}

impl HasSets for StateDecl {
    ghost use Rattle.used_sets.specs.Sets.{state_decl_sets};

    ghost sets = { state_decl_sets };

    fn add_sets<'a>(&'a self, written: &mut WrittenSets<'a>) -> Mem<()> {
        written.add(&self.set)
    }
}

impl HasSets for Flow {
    ghost use Rattle.used_sets.specs.Sets.{flow_sets};

    ghost sets = { flow_sets };

    fn add_sets<'a>(&'a self, written: &mut WrittenSets<'a>) -> Mem<()> {
        add_flow(written, &self.kind)
    }
}

fn add_flow<'a>(written: &mut WrittenSets<'a>, kind: &'a FlowKind) -> Mem<()>
    ensures { OnOk result (written.new ≡ written.old ++ flow_kind_sets kind.now) }
{
    match kind {
        FlowKind::Source(_, set, state) => {
            written.add(set)?;
            written.add_state(state)
        }
        FlowKind::Sink(_, set) => written.add(set),
        FlowKind::Path(_, from_set, _, to_set, _) => {
            written.add(from_set)?;
            written.add(to_set)
        }
    }
}

impl HasSets for Transition {
    ghost use Rattle.used_sets.specs.Sets.{transition_sets};

    ghost sets = { transition_sets };

    fn add_sets<'a>(&'a self, written: &mut WrittenSets<'a>) -> Mem<()> {
        written.add_state(&self.source.state)?;
        add_condition(written, &self.condition)?;
        add_states(written, self.targets.items())
    }
}

impl HasSets for Outgoing {
    ghost use Rattle.used_sets.specs.Sets.{outgoing_sets};

    ghost sets = { outgoing_sets };

    fn add_sets<'a>(&'a self, written: &mut WrittenSets<'a>) -> Mem<()> {
        written.add_state(&self.source.state)?;
        add_perhaps(written, &self.condition)?;
        written.add(&self.set)
    }
}

impl HasSets for Composite {
    ghost use Rattle.used_sets.specs.Sets.{composite_sets};

    ghost sets = { composite_sets };

    fn add_sets<'a>(&'a self, written: &mut WrittenSets<'a>) -> Mem<()> {
        add_perhaps(written, &self.condition)?;
        written.add(&self.target.set)
    }
}
