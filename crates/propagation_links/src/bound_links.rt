ghost use Rattle.std.specs.Prelude.{◌≡◌, ◌≤◌, ◌<◌, ◌^◌, ◌++◌, OnOk, Some, codes, flat_map, length, map, sum, true, false};
ghost use Rattle.propagation_links.specs.Ends.{point_of};
ghost use Rattle.instantiator.specs.Components.{component_below};
ghost use Rattle.propagation_links.specs.Links.{bound_links, bound_word, is_left_out, links_both, stated_links, target_links};
ghost use Rattle.propagation_links.specs.Refused.{count_bound, count_stated};

use crate::bound::{BoundTo, StatedBinding};
use crate::link::Link;
use crate::links::add_both;
use crate::pointed::Pointed;
use aadl_syntax::{BindingKind, Identifier};
use plain_values::{List, Mem};

/// Adds the links of components by the bindings that count for them. A component may be bound to itself where `itself` says so.
pub(crate) fn add_all_bound(
    links: &mut List<Link>,
    pointed: &Pointed,
    itself: bool,
    bounds: &[BoundTo],
) -> Mem<()>
    ensures { OnOk result (links.new ≡ links.old ++ flat_map (bound_links pointed.now itself) bounds.now) }
{
    for bound in bounds {
        add_bound(links, pointed, itself, bound)?;
    }
    Ok(())
}

fn add_bound(links: &mut List<Link>, pointed: &Pointed, itself: bool, bound: &BoundTo) -> Mem<()>
    ensures { OnOk result (links.new ≡ links.old ++ bound_links pointed.now itself bound.now) }
{
    add_stated(
        links,
        pointed,
        itself,
        bound.kind,
        bound.component,
        &bound.stated,
    )
}

fn add_stated(
    links: &mut List<Link>,
    pointed: &Pointed,
    itself: bool,
    kind: BindingKind,
    number: u32,
    stated: &Option<StatedBinding>,
) -> Mem<()>
    ensures { OnOk result (links.new ≡ links.old ++ stated_links pointed.now itself kind number stated.now) }
{
    match stated {
        Some(stated) => add_references(
            links,
            pointed,
            itself,
            kind,
            number,
            stated.component(),
            stated.references(),
        ),
        None => Ok(()),
    }
}

/// Adds the links of a component and those to which references lead from the component of another number.
fn add_references(
    links: &mut List<Link>,
    pointed: &Pointed,
    itself: bool,
    kind: BindingKind,
    number: u32,
    from: u32,
    references: &[List<Identifier>],
) -> Mem<()>
    ensures { OnOk result (links.new ≡ links.old ++ flat_map (λ reference. target_links pointed.now itself kind number (component_below pointed.now.instance.components from reference)) references.now) }
{
    for reference in references {
        let target = pointed.instance().find_below(from, reference.items());
        add_target(links, pointed, itself, kind, number, target)?;
    }
    Ok(())
}

/// Adds the links of a component and one to which it is bound, if there is one.
fn add_target(
    links: &mut List<Link>,
    pointed: &Pointed,
    itself: bool,
    kind: BindingKind,
    number: u32,
    target: Option<u32>,
) -> Mem<()>
    ensures { OnOk result (links.new ≡ links.old ++ target_links pointed.now itself kind number target) }
{
    match target {
        Some(target) => add_other(links, pointed, itself, kind, number, target),
        None => Ok(()),
    }
}

/// Adds the links of a component and one to which it is bound, which may be itself where `itself` says so.
fn add_other(
    links: &mut List<Link>,
    pointed: &Pointed,
    itself: bool,
    kind: BindingKind,
    number: u32,
    target: u32,
) -> Mem<()>
    ensures { OnOk result (links.new ≡ links.old ++ target_links pointed.now itself kind number (Some target)) }
{
    if is_left_out(itself, number, target) {
        return Ok(());
    }
    add_between(links, pointed, kind, number, target)
}

/// Adds the links between the point `bindings` of a component and the point of another, of the word of a kind, both ways.
fn add_between(
    links: &mut List<Link>,
    pointed: &Pointed,
    kind: BindingKind,
    number: u32,
    target: u32,
) -> Mem<()>
    ensures { OnOk result (links.new ≡ links.old ++ links_both pointed.now true (point_of pointed.now false target (codes "bindings")) (point_of pointed.now false number (bound_word kind))) }
{
    let from = pointed.point_of(false, target, b"bindings");
    let to = pointed.point_of(false, number, bound_word(kind));
    add_both(links, pointed, true, from, to)
}

/// Whether a component is the one to which it is bound, where none may be bound to itself.
fn is_left_out(itself: bool, number: u32, target: u32) -> bool
    ensures { result ≡ is_left_out itself number target }
{
    !itself && target == number
}

fn bound_word(kind: BindingKind) -> &'static [u8]
    ensures { result.now ≡ bound_word kind }
{
    match kind {
        BindingKind::Processor => b"processor",
        BindingKind::Memory => b"memory",
        BindingKind::Connection => b"connection",
        BindingKind::Function => b"binding",
    }
}

/// How many references the bindings have that count for components.
pub(crate) fn count_references(bounds: &[BoundTo]) -> usize
    requires { length bounds.now ≤ 12288 }
    ensures count { result ≡ sum (map count_bound bounds.now) }
    ensures few { result < 2 ^ 46 }
{
    let mut count = 0;
    for bound in bounds {
        count += count_bound(bound);
    }
    count
}

fn count_bound(bound: &BoundTo) -> usize
    ensures count { result ≡ count_bound bound.now }
    ensures few { result < 2 ^ 32 }
{
    count_stated(&bound.stated)
}

fn count_stated(stated: &Option<StatedBinding>) -> usize
    ensures count { result ≡ count_stated stated.now }
    ensures few { result < 2 ^ 32 }
{
    match stated {
        Some(stated) => stated.references().len(),
        None => 0,
    }
}
