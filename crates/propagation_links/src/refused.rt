ghost use Rattle.std.specs.Prelude.{◌≡◌, ◌++◌, true, flat_map};
ghost use Rattle.noted_refusals.specs.inner.Noted.{noting};
ghost use Rattle.plain_values.specs.declared.refusal.Code.TheVariants.{ConnectionError};
ghost use Rattle.plain_values.specs.Refusal.{refused_so};
ghost use Rattle.propagation_links.specs.Links.{is_apart};
ghost use Rattle.propagation_links.specs.Refused.{connection_end_refusals, connection_refusals, refusals_in, is_point, means_end, means_point, path_end_refusals, path_refusals, unknown_end};

use crate::ends::is_point_word;
use crate::links::{ends_of, is_access, is_apart};
use crate::pointed::Pointed;
use aadl_syntax::{Connection, End, Ends, Identifier, UserPath};
use component_extension::{Effective, InClause, Inherited};
use noted_refusals::Refusals;
use plain_values::{Code, Spot};

/// Notes what is refused of the component of a number.
#[tactic(auto, using(noted_refusals::proofs::Noting::noted_more))]
pub(crate) fn note_faults<'a>(
    refusals: &mut Refusals,
    pointed: &Pointed<'_, '_, 'a>,
    number: u32,
    effective: &Effective<'a>,
)
    ensures { refusals.new ≡ noting refusals.old (refusals_in pointed.now number effective.now) }
{
    note_connections(
        refusals,
        pointed,
        number,
        effective.members.connections.items(),
    );
    note_paths(
        refusals,
        pointed,
        number,
        effective.propagations.user_paths.items(),
    );
    note_connection_errors(refusals, effective.others.connection_errors.items());
}

fn note_connections<'a>(
    refusals: &mut Refusals,
    pointed: &Pointed<'_, '_, 'a>,
    number: u32,
    connections: &[Inherited<'a, Connection>],
)
    ensures { refusals.new ≡ noting refusals.old (flat_map (connection_refusals pointed.now number) connections.now) }
{
    for connection in connections {
        note_connection(refusals, pointed, number, connection);
    }
}

fn note_connection<'a>(
    refusals: &mut Refusals,
    pointed: &Pointed<'_, '_, 'a>,
    number: u32,
    connection: &Inherited<'a, Connection>,
)
    ensures { refusals.new ≡ noting refusals.old (connection_refusals pointed.now number connection.now) }
{
    let access = is_access(connection.nearest().item().kind);
    if let Some(ends) = ends_of(connection) {
        note_ends(refusals, pointed, number, access, ends);
    }
}

#[tactic(auto, using(noted_refusals::proofs::Noting::noted_more))]
fn note_ends(refusals: &mut Refusals, pointed: &Pointed, number: u32, access: bool, ends: &Ends)
    ensures { refusals.new ≡ noting refusals.old (connection_end_refusals pointed.now number access (is_apart ends.now) ends.now.from ++ connection_end_refusals pointed.now number access (is_apart ends.now) ends.now.to) }
{
    let apart = is_apart(ends);
    note_connection_end(refusals, pointed, number, access, apart, &ends.from);
    note_connection_end(refusals, pointed, number, access, apart, &ends.to);
}

fn note_connection_end(
    refusals: &mut Refusals,
    pointed: &Pointed,
    number: u32,
    access: bool,
    apart: bool,
    end: &End,
)
    ensures { refusals.new ≡ noting refusals.old (connection_end_refusals pointed.now number access apart end.now) }
{
    if end.names.items().len() >= 3 {
        refusals.note_if(true, Code::FeatureGroup, end.spot);
    } else if !apart {
        note_unknown(refusals, pointed, number, access, end);
    }
}

fn note_unknown(refusals: &mut Refusals, pointed: &Pointed, number: u32, access: bool, end: &End)
    ensures { refusals.new ≡ noting refusals.old (unknown_end pointed.now number access end.now) }
{
    let is_known = pointed.means_end(number, access, end.names.items());
    refusals.note_if(!is_known, Code::UnknownEnd, end.spot);
}

fn note_paths<'a>(
    refusals: &mut Refusals,
    pointed: &Pointed<'_, '_, 'a>,
    number: u32,
    paths: &[InClause<'a, UserPath>],
)
    ensures { refusals.new ≡ noting refusals.old (flat_map (path_refusals pointed.now number) paths.now) }
{
    for path in paths {
        note_path(refusals, pointed, number, path.item());
    }
}

#[tactic(auto, using(noted_refusals::proofs::Noting::noted_more))]
fn note_path(refusals: &mut Refusals, pointed: &Pointed, number: u32, path: &UserPath)
    ensures { refusals.new ≡ noting refusals.old (path_end_refusals pointed.now number path.now.from ++ path_end_refusals pointed.now number path.now.to) }
{
    note_path_end(refusals, pointed, number, &path.from);
    note_path_end(refusals, pointed, number, &path.to);
}

fn note_path_end(refusals: &mut Refusals, pointed: &Pointed, number: u32, end: &End)
    ensures { refusals.new ≡ noting refusals.old (path_end_refusals pointed.now number end.now) }
{
    let is_known = pointed.means_point(number, end.names.items());
    refusals.note_if(!is_known, Code::UnknownEnd, end.spot);
}

/// Notes each block of connection errors.
fn note_connection_errors(refusals: &mut Refusals, blocks: &[Spot])
    ensures { refusals.new ≡ noting refusals.old (flat_map (refused_so true ConnectionError) blocks.now) }
{
    for spot in blocks {
        refusals.note_if(true, Code::ConnectionError, *spot);
    }
}

impl<'s, 'i, 'a> Pointed<'s, 'i, 'a> {
    /// Whether names mean a point of the component of a number, or of one below it.
    fn means_point(&self, number: u32, names: &[Identifier]) -> bool
        ensures { result ≡ means_point self.now number names.now }
    {
        let Some((last, front)) = names.split_last() else {
            return false;
        };
        match self.instance().find_below(number, front) {
            Some(component) => self.is_point(component, last.text()),
            None => false,
        }
    }

    /// Whether an end of a connection means something: a point, or in an access connection a subcomponent alone.
    fn means_end(&self, number: u32, access: bool, names: &[Identifier]) -> bool
        ensures { result ≡ means_end self.now number access names.now }
    {
        if self.is_called_as_word(number, names) {
            access
        } else {
            self.means_point(number, names) || (access && self.is_subcomponent(number, names))
        }
    }

    fn is_point(&self, component: u32, name: &[u8]) -> bool
        ensures { result ≡ is_point self.now component name.now }
    {
        self.place(component, name).is_some() || is_point_word(name)
    }
}
