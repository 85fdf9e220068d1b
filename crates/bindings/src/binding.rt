ghost use Rattle.std.specs.Prelude.{◌≡◌, ◌++◌, [], ◌∷◌, IfOk, OnOk, false, true};
ghost use Rattle.grammar_rules.specs.inner.Reader.{Gives};
ghost use Rattle.bindings.specs.Bindings.{applied_targets, binding, binding_name, binding_targets, abstract_word, binding_word, binding_end, bindings_in, dotted_name, further_path, further_reference, other_word, path, perhaps_targets, piece_binding, reference, reference_list, references, targets};

use crate::piece::section_pieces;
use aadl_syntax::{Binding, BindingKind, Identifier, TokenList, TokenSlice};
use grammar_rules::{Parts, ReadError, Reader, spot, tail_end};
use plain_values::{List, Mem};
use std::alloc::{AllocError, Global};

/// Adds the bindings that the tokens of a `properties` section of a file state, in their order. Its other pieces say nothing.
pub fn add_bindings(
    alloc: Global,
    file: u32,
    tokens: &TokenList,
    bindings: &mut List<Binding>,
) -> Mem<()>
    ensures { OnOk result (bindings.new ≡ bindings.old ++ bindings_in file tokens.now) }
{
    for piece in section_pieces(alloc, TokenSlice::of(tokens))?.items() {
        bindings.push_some(piece_binding(alloc, file, false, piece)?)?;
    }
    Ok(())
}

/// The binding as which a piece of a section of a file, or of what stands in braces there, reads, if it reads so.
pub fn piece_binding(
    alloc: Global,
    file: u32,
    braced: bool,
    piece: &TokenList,
) -> Mem<Option<Binding>>
    ensures { IfOk result (λ binding. binding ≡ piece_binding file braced piece.now) }
{
    let mut reader = Reader::new(alloc, file, piece);
    match binding(&mut reader, braced) {
        Ok(binding) => Ok(Some(binding)),
        Err(ReadError::Refused) => Ok(None),
        Err(ReadError::Memory) => Err(AllocError),
    }
}

#[tactic(auto, unfolding(crate::specs::Bindings::binding))]
fn binding(reader: &mut Reader, braced: bool) -> Result<Binding, ReadError>
    ensures { Gives result (binding braced) reader.old reader.new }
{
    let spot = spot(reader)?;
    let kind = binding_name(reader)?;
    reader.sign(b"=>")?;
    let references = references(reader)?;
    let targets = binding_targets(reader, braced)?;
    binding_end(reader)?;
    reader.end()?;
    Ok(Binding {
        kind,
        spot,
        references,
        targets,
    })
}

/// Reads the targets of a binding, which may be left out in braces alone.
#[tactic(auto, unfolding(crate::specs::Bindings::binding_targets))]
fn binding_targets(reader: &mut Reader, braced: bool) -> Result<List<List<Identifier>>, ReadError>
    ensures { Gives result (binding_targets braced) reader.old reader.new }
{
    if braced {
        return perhaps_targets(reader);
    }
    applied_targets(reader)
}

/// Reads targets; where they are left out, the empty path is the target.
#[tactic(auto, unfolding(crate::specs::Bindings::perhaps_targets))]
fn perhaps_targets(reader: &mut Reader) -> Result<List<List<Identifier>>, ReadError>
    ensures { Gives result perhaps_targets reader.old reader.new }
{
    if reader.word_at(0, b"applies") {
        return applied_targets(reader);
    }
    let mut targets = List::new(reader.alloc());
    targets.push(List::new(reader.alloc()))?;
    Ok(targets)
}

#[tactic(auto, unfolding(crate::specs::Bindings::applied_targets))]
fn applied_targets(reader: &mut Reader) -> Result<List<List<Identifier>>, ReadError>
    ensures { Gives result applied_targets reader.old reader.new }
{
    reader.word(b"applies")?;
    reader.word(b"to")?;
    targets(reader)
}

#[tactic(auto, unfolding(crate::specs::Bindings::binding_name))]
fn binding_name(reader: &mut Reader) -> Result<BindingKind, ReadError>
    ensures { Gives result binding_name reader.old reader.new }
{
    if reader.word_at(0, b"deployment_properties") {
        reader.word(b"deployment_properties")?;
        reader.sign(b"::")?;
        return binding_word(reader);
    }
    binding_word(reader)
}

/// Reads the property of a binding.
#[tactic(auto, unfolding(crate::specs::Bindings::binding_word))]
fn binding_word(reader: &mut Reader) -> Result<BindingKind, ReadError>
    ensures { Gives result binding_word reader.old reader.new }
{
    if reader.word_at(0, b"actual_memory_binding") {
        reader.word(b"actual_memory_binding")?;
        return Ok(BindingKind::Memory);
    }
    other_word(reader)
}

/// Reads the property of a binding that is none to a memory.
#[tactic(auto, unfolding(crate::specs::Bindings::other_word))]
fn other_word(reader: &mut Reader) -> Result<BindingKind, ReadError>
    ensures { Gives result other_word reader.old reader.new }
{
    if reader.word_at(0, b"actual_processor_binding") {
        reader.word(b"actual_processor_binding")?;
        return Ok(BindingKind::Processor);
    }
    abstract_word(reader)
}

/// Reads the property of a binding of connections or functions.
#[tactic(auto, unfolding(crate::specs::Bindings::abstract_word))]
fn abstract_word(reader: &mut Reader) -> Result<BindingKind, ReadError>
    ensures { Gives result abstract_word reader.old reader.new }
{
    if reader.word_at(0, b"actual_connection_binding") {
        reader.word(b"actual_connection_binding")?;
        return Ok(BindingKind::Connection);
    }
    reader.word(b"actual_function_binding")?;
    Ok(BindingKind::Function)
}

#[tactic(auto, unfolding(crate::specs::Bindings::binding_end))]
fn binding_end(reader: &mut Reader) -> Result<(), ReadError>
    ensures { Gives result binding_end reader.old reader.new }
{
    if reader.word_at(0, b"in") {
        reader.word(b"in")?;
        return tail_end(reader);
    }
    reader.sign(b";")
}

#[tactic(auto, unfolding(crate::specs::Bindings::references))]
fn references(reader: &mut Reader) -> Result<List<List<Identifier>>, ReadError>
    ensures { Gives result references reader.old reader.new }
{
    if reader.sign_at(0, b"(") {
        return reference_list(reader);
    }
    let mut references = List::new(reader.alloc());
    references.push(reference(reader)?)?;
    Ok(references)
}

#[tactic(auto, unfolding(crate::specs::Bindings::reference_list))]
fn reference_list(reader: &mut Reader) -> Result<List<List<Identifier>>, ReadError>
    ensures { Gives result reference_list reader.old reader.new }
{
    reader.sign(b"(")?;
    let first = reference(reader)?;
    let references = reader.parts_after::<FurtherReferences>(first)?;
    reader.sign(b")")?;
    Ok(references)
}

#[tactic(auto, unfolding(crate::specs::Bindings::reference))]
fn reference(reader: &mut Reader) -> Result<List<Identifier>, ReadError>
    ensures { Gives result reference reader.old reader.new }
{
    reader.word(b"reference")?;
    reader.sign(b"(")?;
    let names = path(reader)?;
    reader.sign(b")")?;
    Ok(names)
}

#[tactic(auto, unfolding(crate::specs::Bindings::further_reference))]
fn further_reference(reader: &mut Reader) -> Result<List<Identifier>, ReadError>
    ensures { Gives result further_reference reader.old reader.new }
{
    reader.sign(b",")?;
    reference(reader)
}

#[tactic(auto, unfolding(crate::specs::Bindings::targets))]
fn targets(reader: &mut Reader) -> Result<List<List<Identifier>>, ReadError>
    ensures { Gives result targets reader.old reader.new }
{
    let first = path(reader)?;
    reader.parts_after::<FurtherPaths>(first)
}

#[tactic(auto, unfolding(crate::specs::Bindings::further_path))]
fn further_path(reader: &mut Reader) -> Result<List<Identifier>, ReadError>
    ensures { Gives result further_path reader.old reader.new }
{
    reader.sign(b",")?;
    path(reader)
}

/// Reads a path of subcomponents.
#[tactic(auto, unfolding(crate::specs::Bindings::path))]
fn path(reader: &mut Reader) -> Result<List<Identifier>, ReadError>
    ensures { Gives result path reader.old reader.new }
{
    let first = reader.identifier(&[])?;
    reader.parts_after::<DottedNames>(first)
}

#[tactic(auto, unfolding(crate::specs::Bindings::dotted_name))]
fn dotted_name(reader: &mut Reader) -> Result<Identifier, ReadError>
    ensures { Gives result dotted_name reader.old reader.new }
{
    reader.sign(b".")?;
    reader.identifier(&[])
}

// The further names of a path.
struct DottedNames;

impl Parts for DottedNames {
    ghost use Rattle.std.specs.Prelude.{[], ◌∷◌, codes};
    ghost use Rattle.grammar_rules.specs.Tokens.{is_sign};
    ghost use Rattle.bindings.specs.Bindings.{dotted_name};
    ghost use Rattle.bindings.specs.inner.Takes.{dotted_name-takes};

    type Part = Identifier;

    ghost tests = { is_sign (codes ".") ∷ [] };

    ghost rule = { dotted_name };

    fn begins(reader: &mut Reader) -> bool {
        reader.sign_at(0, b".")
    }

    fn part(reader: &mut Reader) -> Result<Identifier, ReadError> {
        dotted_name(reader)
    }

    ghost takes_tokens = { dotted_name-takes };
}

// The further targets of a binding.
struct FurtherPaths;

impl Parts for FurtherPaths {
    ghost use Rattle.std.specs.Prelude.{[], ◌∷◌, codes};
    ghost use Rattle.grammar_rules.specs.Tokens.{is_sign};
    ghost use Rattle.bindings.specs.Bindings.{further_path};
    ghost use Rattle.bindings.specs.inner.Takes.{further_path-takes};

    type Part = List<Identifier>;

    ghost tests = { is_sign (codes ",") ∷ [] };

    ghost rule = { further_path };

    fn begins(reader: &mut Reader) -> bool {
        reader.sign_at(0, b",")
    }

    fn part(reader: &mut Reader) -> Result<List<Identifier>, ReadError> {
        further_path(reader)
    }

    ghost takes_tokens = { further_path-takes };
}

// The further references of a binding.
struct FurtherReferences;

impl Parts for FurtherReferences {
    ghost use Rattle.std.specs.Prelude.{[], ◌∷◌, codes};
    ghost use Rattle.grammar_rules.specs.Tokens.{is_sign};
    ghost use Rattle.bindings.specs.Bindings.{further_reference};
    ghost use Rattle.bindings.specs.inner.Takes.{further_reference-takes};

    type Part = List<Identifier>;

    ghost tests = { is_sign (codes ",") ∷ [] };

    ghost rule = { further_reference };

    fn begins(reader: &mut Reader) -> bool {
        reader.sign_at(0, b",")
    }

    fn part(reader: &mut Reader) -> Result<List<Identifier>, ReadError> {
        further_reference(reader)
    }

    ghost takes_tokens = { further_reference-takes };
}
