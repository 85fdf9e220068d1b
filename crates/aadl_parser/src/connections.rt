ghost use Rattle.std.specs.Prelude.{[], ◌∷◌, codes};
ghost use Rattle.grammar_rules.specs.inner.Reader.{Gives, given};
ghost use Rattle.grammar_rules.specs.Rules.{gives, joins, chooses};
ghost use Rattle.grammar_rules.specs.Parts.{parts_after};
ghost use Rattle.grammar_rules.specs.Tokens.{word, sign, is_word};
ghost use Rattle.aadl_parser.specs.Words.{is_name};
ghost use Rattle.aadl_parser.specs.Connections.{feature_connection, optional_accessed, access_connection, connection_kind, end_name, connection_end, arrow, two_ends, ends_of, connection_of, connection, connections_after};
ghost use Rattle.aadl_parser.specs.inner.Takes.{connection-takes};

use crate::features::{accessed, refinement};
use crate::names::DottedNames;
use crate::runs::kept_tail;
use crate::words::{core_name, end_at, name_at, processor_at, processor_name};
use aadl_syntax::{Connection, ConnectionKind, End, Ends, Identifier};
use grammar_rules::{Parts, ReadError, Reader, spot};
use plain_values::{List, Spot};

#[tactic(auto, unfolding(crate::specs::Connections::feature_connection))]
fn feature_connection(reader: &mut Reader) -> Result<ConnectionKind, ReadError>
    ensures { Gives result feature_connection reader.old reader.new }
{
    reader.word(b"feature")?;
    if reader.word_at(0, b"group") {
        reader.word(b"group")?;
        return Ok(ConnectionKind::Group);
    }
    Ok(ConnectionKind::Plain)
}

#[tactic(auto, unfolding(crate::specs::Connections::optional_accessed))]
fn optional_accessed(reader: &mut Reader) -> Result<(), ReadError>
    ensures { Gives result optional_accessed reader.old reader.new }
{
    if reader.word_at(0, b"access") {
        return Ok(());
    }
    accessed(reader)
}

#[tactic(auto, unfolding(crate::specs::Connections::access_connection))]
fn access_connection(reader: &mut Reader) -> Result<ConnectionKind, ReadError>
    ensures { Gives result access_connection reader.old reader.new }
{
    optional_accessed(reader)?;
    reader.word(b"access")?;
    Ok(ConnectionKind::Access)
}

#[tactic(auto, unfolding(crate::specs::Connections::connection_kind))]
fn connection_kind(reader: &mut Reader) -> Result<ConnectionKind, ReadError>
    ensures { Gives result connection_kind reader.old reader.new }
{
    if reader.word_at(0, b"feature") {
        return feature_connection(reader);
    }
    if reader.word_at(0, b"port") {
        reader.word(b"port")?;
        return Ok(ConnectionKind::Plain);
    }
    if reader.word_at(0, b"parameter") {
        reader.word(b"parameter")?;
        return Ok(ConnectionKind::Plain);
    }
    access_connection(reader)
}

#[tactic(auto, unfolding(crate::specs::Connections::end_name))]
fn end_name(reader: &mut Reader) -> Result<Identifier, ReadError>
    ensures { Gives result end_name reader.old reader.new }
{
    if processor_at(reader) {
        return processor_name(reader);
    }
    core_name(reader)
}

#[tactic(auto, unfolding(crate::specs::Connections::connection_end))]
fn connection_end(reader: &mut Reader) -> Result<End, ReadError>
    ensures { Gives result connection_end reader.old reader.new }
{
    let spot = spot(reader)?;
    let first = end_name(reader)?;
    let names = reader.parts_after::<DottedNames>(first)?;
    Ok(End { names, spot })
}

#[tactic(auto, unfolding(crate::specs::Connections::arrow))]
fn arrow(reader: &mut Reader) -> Result<bool, ReadError>
    ensures { Gives result arrow reader.old reader.new }
{
    if reader.sign_at(0, b"<->") {
        reader.sign(b"<->")?;
        return Ok(true);
    }
    reader.sign(b"->")?;
    Ok(false)
}

#[tactic(auto, unfolding(crate::specs::Connections::two_ends))]
fn two_ends(reader: &mut Reader) -> Result<Option<Ends>, ReadError>
    ensures { Gives result two_ends reader.old reader.new }
{
    let from = connection_end(reader)?;
    let both = arrow(reader)?;
    let to = connection_end(reader)?;
    Ok(Some(Ends { from, to, both }))
}

#[tactic(auto, unfolding(crate::specs::Connections::ends_of))]
fn ends_of(reader: &mut Reader, refined: bool) -> Result<Option<Ends>, ReadError>
    ensures { Gives result (ends_of refined) reader.old reader.new }
{
    if !refined {
        return two_ends(reader);
    }
    if end_at(reader) {
        return two_ends(reader);
    }
    Ok(None)
}

#[tactic(auto, unfolding(crate::specs::Connections::connection_of))]
fn connection_of(
    reader: &mut Reader,
    name: Identifier,
    spot: Spot,
    refined: bool,
) -> Result<Connection, ReadError>
    ensures { Gives result (connection_of name spot refined) reader.old reader.new }
{
    let kind = connection_kind(reader)?;
    let ends = ends_of(reader, refined)?;
    let tail = kept_tail(reader)?;
    Ok(Connection {
        name,
        spot,
        refined,
        kind,
        ends,
        tail,
    })
}

#[tactic(auto, unfolding(crate::specs::Connections::connection))]
fn connection(reader: &mut Reader) -> Result<Connection, ReadError>
    ensures { Gives result connection reader.old reader.new }
{
    let spot = spot(reader)?;
    let name = core_name(reader)?;
    reader.sign(b":")?;
    let refined = refinement(reader)?;
    connection_of(reader, name, spot, refined)
}

/// Reads a section of connections, and adds them to others.
#[tactic(auto, unfolding(crate::specs::Connections::connections_after))]
pub(crate) fn connections_after(
    reader: &mut Reader,
    connections: &mut List<Connection>,
) -> Result<(), ReadError>
    ensures { Gives (given result connections.new) (connections_after connections.old) reader.old reader.new }
{
    reader.word(b"connections")?;
    connections_or_none(reader, connections)
}

// The connections of a section, or `none`.
fn connections_or_none(
    reader: &mut Reader,
    connections: &mut List<Connection>,
) -> Result<(), ReadError>
    ensures { Gives (given result connections.new)
        (chooses (is_word (codes "none") ∷ [])
        (joins (word (codes "none")) (λ _. joins (sign (codes ";")) (λ _. gives connections.old)))
        (parts_after connections.old (is_name ∷ []) connection)) reader.old reader.new }
{
    if reader.word_at(0, b"none") {
        reader.word(b"none")?;
        return reader.sign(b";");
    }
    reader.more_parts::<Connections>(connections)
}

// The connections of a section.
pub(crate) struct Connections;

impl Parts for Connections {
    type Part = Connection;

    ghost tests = { is_name ∷ [] };

    ghost rule = { connection };

    fn begins(reader: &mut Reader) -> bool {
        name_at(reader, 0)
    }

    fn part(reader: &mut Reader) -> Result<Connection, ReadError> {
        connection(reader)
    }

    ghost takes_tokens = { connection-takes };
}
