ghost use Rattle.std.specs.Prelude.{◌≡◌, IfOk, map};
ghost use Rattle.event_origins.specs.Origins.{kind_of, origin_of, spot_at, spot_in};
ghost use Rattle.event_origins.specs.Declarations.{declarations_of};
ghost use Rattle.event_origins.specs.inner.Placed.{ArePlaced};

use crate::kinds::{Declarations, declarations_of_kinds};
use crate::origin::{EventOrigin, OriginKind};
use model_facts::{Assembly, EventKey, EventKind, event_key};
use plain_values::{List, Mem, Name, Spot};
use std::alloc::Global;

/// Of which kind each of some events of a model is, and where its declaration stands, in their order. Where the error models of the
/// model are those of its kinds, each has such a place.
pub fn origins_of(alloc: Global, assembly: &Assembly, events: &[EventKey]) -> Mem<List<EventOrigin>>
    ensures origins { IfOk result (λ origins. origins ≡ map (origin_of assembly.now) events.now) }
    ensures placed { IfOk result (ArePlaced assembly.now events.now) }
{
    let kinds = declarations_of_kinds(alloc, assembly.instance())?;
    let mut origins = List::new(alloc);
    for event in events {
        let origin = origin_of(alloc, assembly, kinds.items(), *event)?;
        origins.push(origin)?;
    }
    Ok(origins)
}

/// Of which kind an event is, and where its declaration stands, where its kind of component has these declarations.
pub(crate) fn origin_of(
    alloc: Global,
    assembly: &Assembly,
    kinds: &[Declarations],
    event: EventKey,
) -> Mem<EventOrigin>
    requires { kinds.now ≡ map (declarations_of assembly.now.instance.packages) assembly.now.instance.kinds }
    ensures { IfOk result (λ origin. origin ≡ origin_of assembly.now event) }
{
    let key = event_key(alloc, assembly, event)?;
    Ok(EventOrigin {
        kind: kind_of(event.kind),
        spot: spot_of(assembly, kinds, event, key.items()),
    })
}

/// Of which kind an event is.
fn kind_of(kind: EventKind) -> OriginKind
    ensures { result ≡ kind_of kind }
{
    match kind {
        EventKind::Declared(_) => OriginKind::Error,
        EventKind::Source(_) => OriginKind::Source,
        EventKind::Arrival(_, _) => OriginKind::External,
    }
}

/// Where the declaration of an event of this key stands.
fn spot_of(
    assembly: &Assembly,
    kinds: &[Declarations],
    event: EventKey,
    key: &[Name],
) -> Option<Spot>
    requires { kinds.now ≡ map (declarations_of assembly.now.instance.packages) assembly.now.instance.kinds }
    ensures { result ≡ spot_at assembly.now.instance event.owner event.kind key.now }
{
    let number = assembly.instance().kind(event.owner)?;
    let declarations = kinds.get(number)?;
    spot_in(declarations, event.kind, key)
}

/// Where the declaration of an event of this key stands among those of its component.
fn spot_in(declarations: &Declarations, kind: EventKind, key: &[Name]) -> Option<Spot>
    ensures { result ≡ spot_in declarations.now kind key.now }
{
    let (name, _) = key.split_first()?;
    match kind {
        EventKind::Declared(_) => declarations.events.spot_named(name.items()),
        EventKind::Source(_) => declarations.flows.spot_named(name.items()),
        EventKind::Arrival(_, _) => declarations.inward.spot_named(name.items()),
    }
}
