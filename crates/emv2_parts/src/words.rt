ghost use Rattle.std.specs.Prelude.{◌≡◌, ◌<◌, ◌≤◌, IsTrue, [], ◌∷◌, length};
ghost use Rattle.std.specs.List.{list_all};
ghost use Rattle.grammar_rules.specs.inner.Reader.{Gives, Begins};
ghost use Rattle.aadl_syntax.specs.inner.Token.{shown};
ghost use Rattle.grammar_rules.specs.Tokens.{is_one_of, one_of};
ghost use Rattle.aadl_syntax.specs.Form.{is_digit};
ghost use Rattle.emv2_parts.specs.Words.{error_words, point_words, library_words, machine_words, clause_words, component_words, is_name, begins_point, begins_source, begins_composite, begins_transitions, begins_propagations, begins_paths, decimal, is_count, count};
ghost use Rattle.emv2_parts.specs.Names.{error_name};

use aadl_syntax::{Identifier, TokenKind, TokenRef};
use grammar_rules::{ReadError, Reader};

/// The words that the grammar of error model text quotes.
const ERROR_WORDS: [&[u8]; 54] = [
    b"access",
    b"all",
    b"and",
    b"applies",
    b"behavior",
    b"binding",
    b"bindings",
    b"component",
    b"composite",
    b"connection",
    b"detections",
    b"end",
    b"equivalence",
    b"error",
    b"event",
    b"events",
    b"extends",
    b"flows",
    b"in",
    b"initial",
    b"mappings",
    b"memory",
    b"mode",
    b"noerror",
    b"not",
    b"or",
    b"orless",
    b"ormore",
    b"others",
    b"out",
    b"path",
    b"paths",
    b"point",
    b"processor",
    b"propagation",
    b"propagations",
    b"properties",
    b"recover",
    b"renames",
    b"repair",
    b"same",
    b"set",
    b"sink",
    b"source",
    b"state",
    b"states",
    b"to",
    b"transformations",
    b"transitions",
    b"type",
    b"types",
    b"use",
    b"when",
    b"with",
];

/// The words that name a point.
const POINT_WORDS: [&[u8]; 6] = [
    b"processor",
    b"memory",
    b"connection",
    b"binding",
    b"bindings",
    b"access",
];

/// The first words of the blocks of a library.
const LIBRARY_WORDS: [&[u8]; 2] = [b"error", b"type"];

/// The first words of the blocks of a machine.
const MACHINE_WORDS: [&[u8]; 5] = [b"use", b"events", b"states", b"transitions", b"properties"];

/// The first words of the parts of a clause.
const CLAUSE_WORDS: [&[u8]; 7] = [
    b"use",
    b"error",
    b"component",
    b"composite",
    b"connection",
    b"propagation",
    b"properties",
];

/// The first words of the blocks of a component's error behavior.
const COMPONENT_WORDS: [&[u8]; 6] = [
    b"use",
    b"events",
    b"transitions",
    b"propagations",
    b"detections",
    b"mode",
];

/// Whether the token `k` places ahead is an identifier.
#[tactic(auto, unfolding(crate::specs::Words::is_name, crate::specs::Words::error_words))]
pub fn name_at(reader: &mut Reader, k: usize) -> bool
    ensures { Begins result k (is_name ∷ []) reader.old reader.new }
{
    reader.identifier_at(k, &ERROR_WORDS)
}

/// Whether the token `k` places ahead names a point by a word.
#[tactic(auto, unfolding(crate::specs::Words::point_words))]
pub fn point_word_at(reader: &mut Reader, k: usize) -> bool
    ensures { Begins result k (is_one_of point_words ∷ []) reader.old reader.new }
{
    reader.one_of_at(k, &POINT_WORDS)
}

/// Whether the next token begins a block of a library.
#[tactic(auto, unfolding(crate::specs::Words::library_words))]
pub fn library_block_at(reader: &mut Reader) -> bool
    ensures { Begins result 0 (is_one_of library_words ∷ []) reader.old reader.new }
{
    reader.one_of_at(0, &LIBRARY_WORDS)
}

/// Whether the next token begins a block of a machine.
#[tactic(auto, unfolding(crate::specs::Words::machine_words))]
pub fn machine_block_at(reader: &mut Reader) -> bool
    ensures { Begins result 0 (is_one_of machine_words ∷ []) reader.old reader.new }
{
    reader.one_of_at(0, &MACHINE_WORDS)
}

/// Whether the next token begins a part of a clause.
#[tactic(auto, unfolding(crate::specs::Words::clause_words))]
pub fn clause_part_at(reader: &mut Reader) -> bool
    ensures { Begins result 0 (is_one_of clause_words ∷ []) reader.old reader.new }
{
    reader.one_of_at(0, &CLAUSE_WORDS)
}

/// Whether the next token begins a block of a component's error behavior.
#[tactic(auto, unfolding(crate::specs::Words::component_words))]
pub fn component_block_at(reader: &mut Reader) -> bool
    ensures { Begins result 0 (is_one_of component_words ∷ []) reader.old reader.new }
{
    reader.one_of_at(0, &COMPONENT_WORDS)
}

/// Whether the next token begins a point.
#[tactic(auto, unfolding(crate::specs::Words::begins_point))]
pub fn point_at(reader: &mut Reader) -> bool
    ensures { Begins result 0 (begins_point ∷ []) reader.old reader.new }
{
    name_at(reader, 0) || point_word_at(reader, 0)
}

/// Whether the next token begins a transition or an outgoing condition.
#[tactic(auto, unfolding(crate::specs::Words::begins_source))]
pub fn source_at(reader: &mut Reader) -> bool
    ensures { Begins result 0 (begins_source ∷ []) reader.old reader.new }
{
    reader.word_at(0, b"all") || name_at(reader, 0)
}

/// Whether the next token begins a composite state.
#[tactic(auto, unfolding(crate::specs::Words::begins_composite))]
pub fn composite_at(reader: &mut Reader) -> bool
    ensures { Begins result 0 (begins_composite ∷ []) reader.old reader.new }
{
    name_at(reader, 0) || reader.sign_at(0, b"[")
}

/// Whether the next token begins a block of transitions.
#[tactic(auto, unfolding(crate::specs::Words::begins_transitions))]
pub fn transitions_at(reader: &mut Reader) -> bool
    ensures { Begins result 0 (begins_transitions ∷ []) reader.old reader.new }
{
    reader.word_at(0, b"transitions")
}

/// Whether the next token begins a block of outgoing conditions.
#[tactic(auto, unfolding(crate::specs::Words::begins_propagations))]
pub fn propagations_at(reader: &mut Reader) -> bool
    ensures { Begins result 0 (begins_propagations ∷ []) reader.old reader.new }
{
    reader.word_at(0, b"propagations")
}

/// Whether the next token begins a block of the user's points and paths.
#[tactic(auto, unfolding(crate::specs::Words::begins_paths))]
pub fn paths_at(reader: &mut Reader) -> bool
    ensures { Begins result 0 (begins_paths ∷ []) reader.old reader.new }
{
    reader.word_at(0, b"propagation")
}

/// Reads an identifier.
#[tactic(auto, unfolding(crate::specs::Names::error_name, crate::specs::Words::error_words))]
pub fn error_name(reader: &mut Reader) -> Result<Identifier, ReadError>
    ensures { Gives result error_name reader.old reader.new }
{
    reader.identifier(&ERROR_WORDS)
}

/// Reads a word that names a point.
#[tactic(auto, unfolding(crate::specs::Words::point_words))]
pub fn point_name(reader: &mut Reader) -> Result<Identifier, ReadError>
    ensures { Gives result (one_of point_words) reader.old reader.new }
{
    reader.one_of(&POINT_WORDS)
}

/// Whether the next token is a count.
pub(crate) fn count_at(reader: &mut Reader) -> bool
    ensures { Begins result 0 (is_count ∷ []) reader.old reader.new }
{
    match reader.look(0) {
        Some(token) => is_count(&token),
        None => false,
    }
}

/// Reads a count, a number of one to nine decimal digits.
#[tactic(auto, unfolding(crate::specs::Words::count))]
pub(crate) fn count(reader: &mut Reader) -> Result<u32, ReadError>
    ensures { Gives result count reader.old reader.new }
{
    match reader.look(0) {
        Some(token) if is_count(&token) => {
            reader.step();
            Ok(decimal(token.text))
        }
        _ => Err(ReadError::Refused),
    }
}

#[tactic(auto, unfolding(crate::specs::Words::is_count))]
fn is_count(token: &TokenRef) -> bool
    ensures value { result ≡ is_count (shown token.now) }
    ensures digits { IsTrue result → IsTrue (list_all is_digit token.now.text.now) }
    ensures few { IsTrue result → length token.now.text.now ≤ 9 }
{
    let text = token.text;
    token.kind == TokenKind::Number && 1 <= text.len() && text.len() <= 9 && are_digits(text)
}

fn are_digits(text: &[u8]) -> bool
    ensures { result ≡ list_all is_digit text.now }
{
    text.iter().all(|byte| is_digit(*byte))
}

fn is_digit(byte: u8) -> bool
    ensures { result ≡ is_digit byte }
{
    byte >= b'0' && byte <= b'9'
}

/// The number that at most nine digits write.
fn decimal(digits: &[u8]) -> u32
    requires digits { IsTrue (list_all is_digit digits.now) }
    requires few { length digits.now ≤ 9 }
    ensures { result ≡ decimal digits.now }
{
    let mut number: u32 = 0;
    for digit in digits {
        number = 10 * number + (*digit - b'0') as u32;
    }
    number
}
