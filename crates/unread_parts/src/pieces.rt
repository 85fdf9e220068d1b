//! What is told of the pieces of sections, and of what stands in braces.

ghost use Rattle.std.specs.Prelude.{◌≡◌, ◌++◌, ◌∷◌, [], IfOk, OnOk, cond, map, option_to_list};
ghost use Rattle.grammar_rules.specs.inner.Reader.{Gives};
ghost use Rattle.unread_parts.specs.Unread.{is_binding_name, is_of_components, is_told, name_behind, name_of, part_at, piece_parts, piece_start, property_name, reads, told_binding, told_braces, told_piece, told_section, told_so};

use crate::modes::has_modes;
use crate::rates::told_rate;
use crate::unread::{Part, What};
use aadl_syntax::{Binding, BindingKind, Identifier, TokenList, TokenSlice};
use bindings::{behind_brace, piece_binding, section_pieces};
use grammar_rules::{ReadError, Reader};
use plain_values::{List, Mem, Name, Spot, copied, is_same};
use profiles::Profile;
use std::alloc::{AllocError, Global};

/// Adds what is told of a `properties` section of a file, in the text of the component of a number.
pub(crate) fn add_section(
    parts: &mut List<Part>,
    alloc: Global,
    what: What,
    number: u32,
    file: u32,
    tokens: &TokenList,
) -> Mem<()>
    ensures { OnOk result (parts.new ≡ parts.old ++ told_section what number file tokens.now) }
{
    for piece in section_pieces(alloc, TokenSlice::of(tokens))?.items() {
        add_piece(parts, alloc, what, number, file, false, b"", piece)?;
    }
    Ok(())
}

/// Adds what is told of what stands in braces among the tokens behind the member of a name.
pub(crate) fn add_braces(
    parts: &mut List<Part>,
    alloc: Global,
    what: What,
    number: u32,
    file: u32,
    member: &[u8],
    tokens: &TokenList,
) -> Mem<()>
    ensures { OnOk result (parts.new ≡ parts.old ++ told_braces what number file member.now tokens.now) }
{
    for piece in section_pieces(alloc, behind_brace(tokens))?.items() {
        add_piece(parts, alloc, what, number, file, true, member, piece)?;
    }
    Ok(())
}

/// Adds what is told of a piece of a section, or of what stands in braces behind the member of a name.
fn add_piece(
    parts: &mut List<Part>,
    alloc: Global,
    what: What,
    number: u32,
    file: u32,
    braced: bool,
    member: &[u8],
    piece: &TokenList,
) -> Mem<()>
    ensures { OnOk result (parts.new ≡ parts.old ++ piece_parts what number file braced member.now piece.now) }
{
    let told = told_piece(alloc, what, braced, member, piece)?;
    let at = piece_start(piece);
    parts.push_some(part_told(number, Spot { file, at }, told))
}

/// The part of the component of a number that is told, if one is, which stands at this place.
fn part_told(number: u32, spot: Spot, told: Option<Name>) -> Option<Part>
    ensures { option_to_list result ≡ map (part_at number spot) (option_to_list told) }
{
    match told {
        Some(name) => Some(Part {
            component: number,
            name,
            spot,
        }),
        None => None,
    }
}

/// Where a piece begins.
fn piece_start(piece: &TokenList) -> u32
    ensures { result ≡ piece_start piece.now }
{
    match TokenSlice::of(piece).get(0) {
        Some(token) => token.start,
        None => 0,
    }
}

/// What is told of a piece of a section, or of what stands in braces behind the member of a name, if anything is.
fn told_piece(
    alloc: Global,
    what: What,
    braced: bool,
    member: &[u8],
    piece: &TokenList,
) -> Mem<Option<Name>>
    ensures { IfOk result (λ told. option_to_list told ≡ told_piece what braced member.now piece.now) }
{
    match name_of(alloc, piece)? {
        Some(name) => told_so(alloc, what, braced, member, piece, name.text()),
        None => Ok(None),
    }
}

/// What is told of a piece whose property has this name, if anything is.
fn told_so(
    alloc: Global,
    what: What,
    braced: bool,
    member: &[u8],
    piece: &TokenList,
    name: &[u8],
) -> Mem<Option<Name>>
    ensures { IfOk result (λ told. option_to_list told ≡ told_so what braced member.now piece.now name.now) }
{
    match what {
        What::Rates => told_rate(alloc, braced, member, piece, name),
        What::InModes | What::Unread(_) => told_binding(alloc, what, braced, piece, name),
    }
}

/// The name of a piece whose property has it, where it is told of a binding.
fn told_binding(
    alloc: Global,
    what: What,
    braced: bool,
    piece: &TokenList,
    name: &[u8],
) -> Mem<Option<Name>>
    ensures { IfOk result (λ told. option_to_list told ≡ told_binding what braced piece.now name.now) }
{
    if !is_binding_name(name) {
        return Ok(None);
    }
    let told = is_told(alloc, what, braced, piece)?;
    name_if(alloc, told, name)
}

fn name_if(alloc: Global, told: bool, name: &[u8]) -> Mem<Option<Name>>
    ensures { IfOk result (λ its. option_to_list its ≡ cond told (name.now ∷ []) []) }
{
    if told {
        return Ok(Some(copied(alloc, name)?));
    }
    Ok(None)
}

/// The name of the property of a piece, if it begins with one.
fn name_of(alloc: Global, piece: &TokenList) -> Mem<Option<Identifier>>
    ensures { IfOk result (λ name. name ≡ name_of piece.now) }
{
    let mut reader = Reader::new(alloc, 0, piece);
    match property_name(&mut reader) {
        Ok(name) => Ok(Some(name)),
        Err(ReadError::Refused) => Ok(None),
        Err(ReadError::Memory) => Err(AllocError),
    }
}

#[tactic(auto, unfolding(crate::specs::Unread::property_name))]
fn property_name(reader: &mut Reader) -> Result<Identifier, ReadError>
    ensures { Gives result property_name reader.old reader.new }
{
    let first = reader.identifier(&[])?;
    if reader.sign_at(0, b"::") {
        return name_behind(reader);
    }
    Ok(first)
}

#[tactic(auto, unfolding(crate::specs::Unread::name_behind))]
fn name_behind(reader: &mut Reader) -> Result<Identifier, ReadError>
    ensures { Gives result name_behind reader.old reader.new }
{
    reader.sign(b"::")?;
    reader.identifier(&[])
}

/// Whether a property is a binding by its name.
fn is_binding_name(name: &[u8]) -> bool
    ensures { result ≡ is_binding_name name.now }
{
    let from = name.len().saturating_sub(8);
    is_same(&name[from..], b"_binding")
}

/// Whether a piece is told of a binding.
fn is_told(alloc: Global, what: What, braced: bool, piece: &TokenList) -> Mem<bool>
    ensures { IfOk result (λ answer. answer ≡ is_told what braced piece.now) }
{
    match what {
        What::InModes => has_modes(alloc, piece),
        What::Unread(profile) => {
            let binding = piece_binding(alloc, 0, braced, piece)?;
            Ok(!reads(profile, braced, &binding))
        }
        What::Rates => Ok(false),
    }
}

/// Whether a profile reads a binding, where it has this form, if it has one.
fn reads(profile: Profile, braced: bool, binding: &Option<Binding>) -> bool
    ensures { result ≡ reads profile braced binding.now }
{
    match binding {
        Some(binding) => !profile.is_first() || (!braced && is_of_components(binding.kind)),
        None => false,
    }
}

/// Whether a binding of this kind is one of components.
fn is_of_components(kind: BindingKind) -> bool
    ensures { result ≡ is_of_components kind }
{
    match kind {
        BindingKind::Processor | BindingKind::Memory => true,
        BindingKind::Connection | BindingKind::Function => false,
    }
}
