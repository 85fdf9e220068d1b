ghost use Rattle.std.specs.Prelude.{◌≡◌, ◌++◌, ◌||◌, OnOk, Some, flat_map};
ghost use Rattle.propagation_links.specs.Ends.{connection_end};
ghost use Rattle.propagation_links.specs.Links.{carried_between, carried_ends, carried_links, carried_one_way, carrier_links, connection_point};

use crate::bound::StatedBinding;
use crate::carried::CarriedConnection;
use crate::ends::FoundEnd;
use crate::link::Link;
use crate::links::{add_link, ends_of, is_access, is_apart};
use crate::pointed::Pointed;
use aadl_syntax::Ends;
use plain_values::{List, Mem};

/// Adds the links of connections and what carries them.
pub(crate) fn add_all_carried(
    links: &mut List<Link>,
    pointed: &Pointed,
    carried: &[CarriedConnection],
) -> Mem<()>
    ensures { OnOk result (links.new ≡ links.old ++ flat_map (carried_links pointed.now) carried.now) }
{
    for one in carried {
        add_carried(links, pointed, one)?;
    }
    Ok(())
}

fn add_carried(links: &mut List<Link>, pointed: &Pointed, carried: &CarriedConnection) -> Mem<()>
    ensures { OnOk result (links.new ≡ links.old ++ carried_links pointed.now carried.now) }
{
    let connection = carried.connection();
    let access = is_access(connection.nearest().item().kind);
    match ends_of(connection) {
        Some(ends) => add_ends(
            links,
            pointed,
            carried.stated(),
            carried.component(),
            access,
            ends,
        ),
        None => Ok(()),
    }
}

/// Adds the links of a connection with these ends.
fn add_ends(
    links: &mut List<Link>,
    pointed: &Pointed,
    stated: &StatedBinding,
    number: u32,
    access: bool,
    ends: &Ends,
) -> Mem<()>
    ensures { OnOk result (links.new ≡ links.old ++ carried_ends pointed.now stated.now number access (Some ends.now)) }
{
    if is_apart(ends) {
        return Ok(());
    }
    add_joined(links, pointed, stated, number, access, ends)
}

/// Adds the links of a connection with these ends, of which none is apart from the model.
fn add_joined(
    links: &mut List<Link>,
    pointed: &Pointed,
    stated: &StatedBinding,
    number: u32,
    access: bool,
    ends: &Ends,
) -> Mem<()>
    ensures { OnOk result (links.new ≡ links.old ++ carried_between pointed.now stated.now (ends.now.both || access) (connection_end pointed.now number access ends.now.from.names) (connection_end pointed.now number access ends.now.to.names)) }
{
    let from = pointed.connection_end(number, access, ends.from.names.items());
    let to = pointed.connection_end(number, access, ends.to.names.items());
    add_between(links, pointed, stated, goes_both(ends, access), from, to)
}

/// Whether a connection with these ends goes both ways.
fn goes_both(ends: &Ends, access: bool) -> bool
    ensures { result ≡ (ends.now.both || access) }
{
    ends.both || access
}

/// Adds the links of a connection and each component to which the references of a binding lead.
fn add_between(
    links: &mut List<Link>,
    pointed: &Pointed,
    stated: &StatedBinding,
    both: bool,
    from: Option<FoundEnd>,
    to: Option<FoundEnd>,
) -> Mem<()>
    ensures { OnOk result (links.new ≡ links.old ++ carried_between pointed.now stated.now both from to) }
{
    for reference in stated.references() {
        let carrier = pointed
            .instance()
            .find_below(stated.component(), reference.items());
        add_carrier(links, pointed, both, from, to, carrier)?;
    }
    Ok(())
}

/// Adds the links of a connection and a component that carries it, if there is one.
fn add_carrier(
    links: &mut List<Link>,
    pointed: &Pointed,
    both: bool,
    from: Option<FoundEnd>,
    to: Option<FoundEnd>,
    carrier: Option<u32>,
) -> Mem<()>
    ensures { OnOk result (links.new ≡ links.old ++ carrier_links pointed.now both from to carrier) }
{
    let Some(carrier) = carrier else {
        return Ok(());
    };
    add_one_way(links, pointed, carrier, from, to)?;
    if both {
        add_one_way(links, pointed, carrier, to, from)?;
    }
    Ok(())
}

/// Adds the links of one direction.
fn add_one_way(
    links: &mut List<Link>,
    pointed: &Pointed,
    carrier: u32,
    from: Option<FoundEnd>,
    to: Option<FoundEnd>,
) -> Mem<()>
    ensures { OnOk result (links.new ≡ links.old ++ carried_one_way pointed.now carrier from to) }
{
    let bindings = pointed.point_of(false, carrier, b"bindings");
    add_link(links, pointed, bindings, to)?;
    add_link(links, pointed, bindings, connection_point(pointed, to))?;
    add_link(links, pointed, from, bindings)
}

/// The point `connection` of the component at an end, if that is found.
fn connection_point(pointed: &Pointed, end: Option<FoundEnd>) -> Option<FoundEnd>
    ensures { result ≡ connection_point pointed.now end }
{
    match end {
        Some(end) => pointed.point_of(false, end.component, b"connection"),
        None => None,
    }
}
