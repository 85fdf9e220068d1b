ghost use Rattle.std.specs.Prelude.{◌≡◌, ◌++◌, OnOk, flat_map, option_copied};
ghost use Rattle.propagation_links.specs.Ends.{is_access, path_end};
ghost use Rattle.propagation_links.specs.Links.{begins_apart, connection_links, ends_of, from_side, is_apart, link_between, link_of, links_between, links_both, links_in, path_links, to_side};

use crate::ends::FoundEnd;
use crate::link::{Link, PointAt};
use crate::pointed::Pointed;
use aadl_syntax::{Connection, ConnectionKind, Ends, Identifier, UserPath};
use component_extension::{Effective, InClause, Inherited};
use plain_values::{List, Mem, is_same};

/// Adds the links of the component of a number.
pub(crate) fn add_links<'a>(
    links: &mut List<Link>,
    pointed: &Pointed<'_, '_, 'a>,
    number: u32,
    effective: &Effective<'a>,
) -> Mem<()>
    ensures { OnOk result (links.new ≡ links.old ++ links_in pointed.now number effective.now) }
{
    add_connections(
        links,
        pointed,
        number,
        effective.members.connections.items(),
    )?;
    add_paths(
        links,
        pointed,
        number,
        effective.propagations.user_paths.items(),
    )
}

fn add_connections<'a>(
    links: &mut List<Link>,
    pointed: &Pointed<'_, '_, 'a>,
    number: u32,
    connections: &[Inherited<'a, Connection>],
) -> Mem<()>
    ensures { OnOk result (links.new ≡ links.old ++ flat_map (connection_links pointed.now number) connections.now) }
{
    for connection in connections {
        add_connection(links, pointed, number, connection)?;
    }
    Ok(())
}

/// Adds the links of a connection.
pub(crate) fn add_connection<'a>(
    links: &mut List<Link>,
    pointed: &Pointed<'_, '_, 'a>,
    number: u32,
    connection: &Inherited<'a, Connection>,
) -> Mem<()>
    ensures { OnOk result (links.new ≡ links.old ++ connection_links pointed.now number connection.now) }
{
    let access = is_access(connection.nearest().item().kind);
    match ends_of(connection) {
        Some(ends) => add_between(links, pointed, number, access, ends),
        None => Ok(()),
    }
}

/// The ends of a connection: those of the nearest declaration that states them.
pub(crate) fn ends_of<'a>(connection: &Inherited<'a, Connection>) -> Option<&'a Ends>
    ensures { option_copied result ≡ ends_of connection.now }
{
    connection.stated()?.item().ends.as_ref()
}

/// Whether a connection is one of an access.
pub(crate) fn is_access(kind: ConnectionKind) -> bool
    ensures { result ≡ is_access kind }
{
    matches!(kind, ConnectionKind::Access)
}

fn add_between(
    links: &mut List<Link>,
    pointed: &Pointed,
    number: u32,
    access: bool,
    ends: &Ends,
) -> Mem<()>
    ensures { OnOk result (links.new ≡ links.old ++ links_between pointed.now number access ends.now) }
{
    if is_apart(ends) {
        return Ok(());
    }
    let from = pointed.connection_end(number, access, ends.from.names.items());
    let to = pointed.connection_end(number, access, ends.to.names.items());
    add_both(links, pointed, ends.both || access, from, to)
}

/// Whether one of the ends begins with a word along which no error goes.
pub(crate) fn is_apart(ends: &Ends) -> bool
    ensures { result ≡ is_apart ends.now }
{
    begins_apart(ends.from.names.items()) || begins_apart(ends.to.names.items())
}

fn begins_apart(names: &[Identifier]) -> bool
    ensures { result ≡ begins_apart names.now }
{
    match names.first() {
        Some(name) => is_same(b"processor", name.text()) || is_same(b"self", name.text()),
        None => false,
    }
}

/// Adds the link in the written direction, and then the other where it goes both ways.
pub(crate) fn add_both(
    links: &mut List<Link>,
    pointed: &Pointed,
    both: bool,
    from: Option<FoundEnd>,
    to: Option<FoundEnd>,
) -> Mem<()>
    ensures { OnOk result (links.new ≡ links.old ++ links_both pointed.now both from to) }
{
    add_link(links, pointed, from, to)?;
    if both {
        add_link(links, pointed, to, from)?;
    }
    Ok(())
}

/// Adds the link between two ends, if both are found.
pub(crate) fn add_link(
    links: &mut List<Link>,
    pointed: &Pointed,
    from: Option<FoundEnd>,
    to: Option<FoundEnd>,
) -> Mem<()>
    ensures { OnOk result (links.new ≡ links.old ++ link_of pointed.now from to) }
{
    match (from, to) {
        (Some(from), Some(to)) => { add_link_between(links, pointed, from_side(from), to_side(to)) }
        _ => Ok(()),
    }
}

fn add_link_between(
    links: &mut List<Link>,
    pointed: &Pointed,
    from: PointAt,
    to: PointAt,
) -> Mem<()>
    ensures { OnOk result (links.new ≡ links.old ++ link_between pointed.now from to) }
{
    if pointed.is_there(from) && pointed.is_there(to) {
        links.push(Link { from, to })?;
    }
    Ok(())
}

fn from_side(end: FoundEnd) -> PointAt
    ensures { result ≡ from_side end }
{
    PointAt {
        component: end.component,
        point: end.point,
        outward: !end.own,
    }
}

fn to_side(end: FoundEnd) -> PointAt
    ensures { result ≡ to_side end }
{
    PointAt {
        component: end.component,
        point: end.point,
        outward: end.own,
    }
}

fn add_paths<'a>(
    links: &mut List<Link>,
    pointed: &Pointed<'_, '_, 'a>,
    number: u32,
    paths: &[InClause<'a, UserPath>],
) -> Mem<()>
    ensures { OnOk result (links.new ≡ links.old ++ flat_map (path_links pointed.now number) paths.now) }
{
    for path in paths {
        add_path(links, pointed, number, path.item())?;
    }
    Ok(())
}

/// Adds the link of a user path.
pub(crate) fn add_path(
    links: &mut List<Link>,
    pointed: &Pointed,
    number: u32,
    path: &UserPath,
) -> Mem<()>
    ensures { OnOk result (links.new ≡ links.old ++ link_of pointed.now (path_end pointed.now number path.now.from.names) (path_end pointed.now number path.now.to.names)) }
{
    let from = pointed.path_end(number, path.from.names.items());
    let to = pointed.path_end(number, path.to.names.items());
    add_link(links, pointed, from, to)
}
