ghost use Rattle.std.specs.Prelude.{◌≡◌, ◌++◌, ◌∷◌, ◌==◌, [], OnOk, cond, length};

use event_rates::UnusedRate;
use plain_values::{List, Mem};
use propagation_links::{Link, PointAt, Unlinked};
use stray_bindings::StrayBinding;
use system_review::Loop;
use uneven_parts::{QuietState, UnlikeState};
use unread_parts::{Implementation, Part};

/// Types at a side of a point, by their numbers.
#[derive(Drop)]
pub struct TypesAt {
    pub side: PointAt,
    pub types: List<u32>,
}

impl TypesAt {
    /// Whether there are none.
    pub(crate) fn is_empty(&self) -> bool
        ensures { result ≡ (length self.now.types == 0) }
    {
        self.types.items().is_empty()
    }
}

/// What a review tells of a model. Components, flows, states and events are named by their places in their lists, from 0.
#[derive(Drop)]
pub enum Finding {
    /// A source covers these types without effect: its component, and its place among the sources and paths.
    HiddenSource(u32, u32, TypesAt),
    /// A path does.
    HiddenPath(u32, u32, TypesAt),
    /// What comes along a link from this side to the other has no effect there, of these types.
    HiddenLink(PointAt, TypesAt),
    /// A component has clauses of composite states, which hide so many transitions.
    HiddenTransitions(u32, u32),
    /// These types may come along a link to this side, for which they are not declared.
    NotDeclared(TypesAt, PointAt),
    /// These types may come in at this side, where nothing of the component looks at them.
    StopsHere(TypesAt),
    /// These types may come in at this side, nothing of the component looks at them, and no sink of the point takes them.
    SinkLeaves(TypesAt),
    /// These types may come out of a part at this side, and nothing looks at them.
    GoesNowhere(TypesAt),
    /// A connection or a user path gives no link, and types are declared for a point that it names.
    NoLink(Unlinked),
    /// A side leads to a further side of a component to which it leads already.
    TwoWays(Link),
    /// These types arrive from outside of the model: they are declared, and no link leads there.
    Open(TypesAt),
    /// These types are declared, and none of them may come along the links that lead there.
    Dry(TypesAt),
    /// No types are declared for this side and no link leads there, and something looks at it.
    NoSource(PointAt),
    /// These types are declared, and never come out.
    Never(TypesAt),
    /// The root is never in this state.
    NeverState(u32),
    /// These types come out where no event occurs.
    Always(TypesAt),
    /// A component is in this state, which is not initial, where no event occurs.
    AlwaysState(u32, u32),
    /// A component other than the root may be in this state, and nothing looks at it.
    UnusedState(u32, u32),
    /// A state of a part does not occur in a formula of the component around it, though the same state of a part of the same kind does.
    Unlike(UnlikeState),
    /// A state gives nothing at a side of its component, though it gives something at another one.
    Quiet(QuietState),
    /// A subcomponent, a connection or a binding stands in modes, which are not looked at.
    InModes(Part),
    /// A binding is not read.
    UnreadBinding(Part),
    /// A path in a binding leads to nothing.
    StrayPath(StrayBinding),
    /// A rate is said of no event.
    StrayRate(UnusedRate),
    /// A rate stands in core text, where it counts for no event.
    CoreRate(Part),
    /// The root is a component type, and has no parts: an implementation of it is not looked at.
    TypeRoot(Implementation),
    /// Facts depend on one another.
    InLoop(Loop),
    /// An error event occurs in no formula.
    UnusedEvent(u32),
    /// An event occurs in a formula, and alone makes no fact hold.
    NoSingle(u32),
    /// The root has no effect.
    NoEffect,
    /// Events of one component occur in formulas, and no effect of the root depends on them.
    UnreachedEvents(List<u32>),
}

/// Tells what there is to tell of some types, unless there are none.
pub(crate) fn tell_unless(found: &mut List<Finding>, is_none: bool, finding: Finding) -> Mem<()>
    ensures { OnOk result (found.new ≡ found.old ++ cond is_none [] (finding ∷ [])) }
{
    found.push_if(finding, !is_none)?;
    Ok(())
}
