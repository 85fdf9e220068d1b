ghost use Rattle.std.specs.Prelude.{◌≡◌, [], ◌∷◌};
ghost use Rattle.grammar_rules.specs.inner.Reader.{Gives, given};
ghost use Rattle.grammar_rules.specs.Tokens.{is_one_of};
ghost use Rattle.emv2_parts.specs.Words.{library_words, clause_words};
ghost use Rattle.emv2_parser.specs.Grammar.{mapping_word, mapping_end, type_mapping, library_types, library_machine, library_mapping, library_block, clause_uses, used_machine, clause_machine, mapping_kind, used_mapping, clause_mapping, clause_use, clause_properties, clause_other, clause_behavior, clause_part, clause_parts, empty_clause, library_after, clause_inside};
ghost use Rattle.emv2_parser.specs.inner.Takes.{library_block-takes, clause_part-takes};

use crate::behavior::{clause_component, clause_composites, clause_connection, clause_paths};
use crate::machines::machine;
use crate::propagations::clause_propagations;
use aadl_syntax::{Emv2Clause, Emv2Library, Ref};
use emv2_parts::{
    clause_part_at, error_name, library_block_at, names, paths_at, properties_after, reference,
    types_block, use_types_after,
};
use grammar_rules::{Gathered, ReadError, Reader, ToEnd, spot};
use plain_values::{List, Spot};
use std::alloc::Global;

#[tactic(auto, unfolding(crate::specs::Grammar::mapping_word))]
fn mapping_word(reader: &mut Reader) -> Result<(), ReadError>
    ensures { Gives result mapping_word reader.old reader.new }
{
    if reader.word_at(0, b"mappings") {
        return reader.word(b"mappings");
    }
    reader.word(b"transformations")
}

#[tactic(auto, unfolding(crate::specs::Grammar::mapping_end))]
fn mapping_end(reader: &mut Reader) -> Result<(), ReadError>
    ensures { Gives result mapping_end reader.old reader.new }
{
    reader.word(b"end")?;
    mapping_word(reader)?;
    reader.sign(b";")
}

#[tactic(auto, unfolding(crate::specs::Grammar::type_mapping))]
fn type_mapping(reader: &mut Reader) -> Result<(), ReadError>
    ensures { Gives result type_mapping reader.old reader.new }
{
    reader.word(b"type")?;
    mapping_word(reader)?;
    error_name(reader)?;
    reader.until_inside::<ToEnd>()?;
    mapping_end(reader)
}

#[tactic(auto, unfolding(crate::specs::Grammar::library_types))]
fn library_types(reader: &mut Reader, library: &mut Emv2Library) -> Result<(), ReadError>
    ensures { Gives (given result library.new) (library_types library.old) reader.old reader.new }
{
    let block = types_block(reader)?;
    library.blocks.push(block)?;
    Ok(())
}

#[tactic(auto, unfolding(crate::specs::Grammar::library_machine))]
fn library_machine(reader: &mut Reader, library: &mut Emv2Library) -> Result<(), ReadError>
    ensures { Gives (given result library.new) (library_machine library.old) reader.old reader.new }
{
    let machine = machine(reader)?;
    library.machines.push(machine)?;
    Ok(())
}

#[tactic(auto, unfolding(crate::specs::Grammar::library_mapping))]
fn library_mapping(reader: &mut Reader, library: &mut Emv2Library) -> Result<(), ReadError>
    ensures { Gives (given result library.new) (library_mapping library.old) reader.old reader.new }
{
    type_mapping(reader)?;
    Ok(())
}

#[tactic(auto, unfolding(crate::specs::Grammar::library_block))]
fn library_block(reader: &mut Reader, library: &mut Emv2Library) -> Result<(), ReadError>
    ensures { Gives (given result library.new) (library_block library.old) reader.old reader.new }
{
    if reader.word_at(0, b"error") && reader.word_at(1, b"types") {
        return library_types(reader, library);
    }
    if reader.word_at(0, b"error") {
        return library_machine(reader, library);
    }
    library_mapping(reader, library)
}

/// Reads blocks of a library as long as the next tokens begin one, and gives them with those of a library that was read
/// before: several annexes of a package make one library.
#[tactic(auto, unfolding(crate::specs::Grammar::library_after))]
pub fn library_after(reader: &mut Reader, library: &mut Emv2Library) -> Result<(), ReadError>
    ensures { Gives (given result library.new) (library_after library.old) reader.old reader.new }
{
    reader.gather::<LibraryBlocks>(library)
}

#[tactic(auto, unfolding(crate::specs::Grammar::clause_uses))]
fn clause_uses(reader: &mut Reader, clause: &mut Emv2Clause) -> Result<(), ReadError>
    ensures { Gives (given result clause.new) (clause_uses clause.old) reader.old reader.new }
{
    use_types_after(reader, &mut clause.uses)?;
    Ok(())
}

#[tactic(auto, unfolding(crate::specs::Grammar::used_machine))]
fn used_machine(reader: &mut Reader) -> Result<Ref, ReadError>
    ensures { Gives result used_machine reader.old reader.new }
{
    reader.word(b"use")?;
    reader.word(b"behavior")?;
    let machine = reference(reader)?;
    reader.sign(b";")?;
    Ok(machine)
}

#[tactic(auto, unfolding(crate::specs::Grammar::clause_machine))]
fn clause_machine(reader: &mut Reader, clause: &mut Emv2Clause) -> Result<(), ReadError>
    ensures { Gives (given result clause.new) (clause_machine clause.old) reader.old reader.new }
{
    let machine = used_machine(reader)?;
    clause.machine = Some(machine);
    Ok(())
}

#[tactic(auto, unfolding(crate::specs::Grammar::mapping_kind))]
fn mapping_kind(reader: &mut Reader) -> Result<(), ReadError>
    ensures { Gives result mapping_kind reader.old reader.new }
{
    if reader.word_at(0, b"type") {
        reader.word(b"type")?;
        return reader.word(b"equivalence");
    }
    reader.word(b"mappings")
}

#[tactic(auto, unfolding(crate::specs::Grammar::used_mapping))]
fn used_mapping(reader: &mut Reader) -> Result<Spot, ReadError>
    ensures { Gives result used_mapping reader.old reader.new }
{
    let spot = spot(reader)?;
    reader.word(b"use")?;
    mapping_kind(reader)?;
    names(reader)?;
    reader.sign(b";")?;
    Ok(spot)
}

#[tactic(auto, unfolding(crate::specs::Grammar::clause_mapping))]
fn clause_mapping(reader: &mut Reader, clause: &mut Emv2Clause) -> Result<(), ReadError>
    ensures { Gives (given result clause.new) (clause_mapping clause.old) reader.old reader.new }
{
    let spot = used_mapping(reader)?;
    clause.mappings.push(spot)?;
    Ok(())
}

#[tactic(auto, unfolding(crate::specs::Grammar::clause_use))]
fn clause_use(reader: &mut Reader, clause: &mut Emv2Clause) -> Result<(), ReadError>
    ensures { Gives (given result clause.new) (clause_use clause.old) reader.old reader.new }
{
    if reader.word_at(0, b"use") && reader.word_at(1, b"types") {
        return clause_uses(reader, clause);
    }
    if reader.word_at(0, b"use") && reader.word_at(1, b"behavior") {
        return clause_machine(reader, clause);
    }
    clause_mapping(reader, clause)
}

#[tactic(auto, unfolding(crate::specs::Grammar::clause_properties))]
fn clause_properties(reader: &mut Reader, clause: &mut Emv2Clause) -> Result<(), ReadError>
    ensures { Gives (given result clause.new) (clause_properties clause.old) reader.old reader.new }
{
    properties_after(reader, &mut clause.associations)?;
    Ok(())
}

#[tactic(auto, unfolding(crate::specs::Grammar::clause_other))]
fn clause_other(reader: &mut Reader, clause: &mut Emv2Clause) -> Result<(), ReadError>
    ensures { Gives (given result clause.new) (clause_other clause.old) reader.old reader.new }
{
    if reader.word_at(0, b"connection") {
        return clause_connection(reader, clause);
    }
    if paths_at(reader) {
        return clause_paths(reader, clause);
    }
    clause_properties(reader, clause)
}

#[tactic(auto, unfolding(crate::specs::Grammar::clause_behavior))]
fn clause_behavior(reader: &mut Reader, clause: &mut Emv2Clause) -> Result<(), ReadError>
    ensures { Gives (given result clause.new) (clause_behavior clause.old) reader.old reader.new }
{
    if reader.word_at(0, b"component") {
        return clause_component(reader, clause);
    }
    if reader.word_at(0, b"composite") {
        return clause_composites(reader, clause);
    }
    clause_other(reader, clause)
}

#[tactic(auto, unfolding(crate::specs::Grammar::clause_part))]
fn clause_part(reader: &mut Reader, clause: &mut Emv2Clause) -> Result<(), ReadError>
    ensures { Gives (given result clause.new) (clause_part clause.old) reader.old reader.new }
{
    if reader.word_at(0, b"use") {
        return clause_use(reader, clause);
    }
    if reader.word_at(0, b"error") {
        return clause_propagations(reader, clause);
    }
    clause_behavior(reader, clause)
}

#[tactic(auto, unfolding(crate::specs::Grammar::clause_parts))]
fn clause_parts(reader: &mut Reader, clause: &mut Emv2Clause) -> Result<(), ReadError>
    ensures { Gives (given result clause.new) (clause_parts clause.old) reader.old reader.new }
{
    reader.gather::<ClauseParts>(clause)
}

fn empty_clause(alloc: Global, spot: Spot) -> Emv2Clause
    ensures { result ≡ empty_clause spot }
{
    Emv2Clause {
        spot,
        uses: List::new(alloc),
        machine: None,
        mappings: List::new(alloc),
        points: List::new(alloc),
        flows: List::new(alloc),
        events: List::new(alloc),
        transitions: List::new(alloc),
        outgoing: List::new(alloc),
        composites: List::new(alloc),
        connection_errors: List::new(alloc),
        user_points: List::new(alloc),
        user_paths: List::new(alloc),
        associations: List::new(alloc),
    }
}

// The parts of a clause at this place.
fn parts_at(reader: &mut Reader, spot: Spot) -> Result<Emv2Clause, ReadError>
    ensures { Gives result (clause_parts (empty_clause spot)) reader.old reader.new }
{
    let mut clause = empty_clause(reader.alloc(), spot);
    clause_parts(reader, &mut clause)?;
    Ok(clause)
}

/// Reads parts of a clause as long as the next tokens begin one, inside of other text: a token follows. The place of the
/// clause is that of its first token, or of the one that follows where it has none.
#[tactic(auto, unfolding(crate::specs::Grammar::clause_inside))]
pub fn clause_inside(reader: &mut Reader) -> Result<Emv2Clause, ReadError>
    ensures { Gives result clause_inside reader.old reader.new }
{
    let spot = spot(reader)?;
    parts_at(reader, spot)
}

// The blocks of a library.
pub(crate) struct LibraryBlocks;

impl Gathered for LibraryBlocks {
    type Whole = Emv2Library;

    ghost tests = { is_one_of library_words ∷ [] };

    ghost rule = { library_block };

    fn begins(reader: &mut Reader) -> bool {
        library_block_at(reader)
    }

    fn part(reader: &mut Reader, whole: &mut Emv2Library) -> Result<(), ReadError> {
        library_block(reader, whole)
    }

    ghost takes_tokens = { library_block-takes };
}

// The parts of a clause.
pub(crate) struct ClauseParts;

impl Gathered for ClauseParts {
    type Whole = Emv2Clause;

    ghost tests = { is_one_of clause_words ∷ [] };

    ghost rule = { clause_part };

    fn begins(reader: &mut Reader) -> bool {
        clause_part_at(reader)
    }

    fn part(reader: &mut Reader, whole: &mut Emv2Clause) -> Result<(), ReadError> {
        clause_part(reader, whole)
    }

    ghost takes_tokens = { clause_part-takes };
}
