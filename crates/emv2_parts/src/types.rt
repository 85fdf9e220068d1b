ghost use Rattle.std.specs.Prelude.{[], ◌∷◌, codes};
ghost use Rattle.grammar_rules.specs.inner.Reader.{Gives};
ghost use Rattle.grammar_rules.specs.Tokens.{is_word};
ghost use Rattle.emv2_parts.specs.Words.{is_name};
ghost use Rattle.emv2_parts.specs.Names.{use_types_after};
ghost use Rattle.emv2_parts.specs.Properties.{properties_after};
ghost use Rattle.emv2_parts.specs.Types.{set_kind, extended_type, plain_kind, renamed, alias_kind, type_kind, type_item, used_types, types_extends, types_properties, types_body, types_block};
ghost use Rattle.emv2_parts.specs.inner.Takes.{use_types-takes, type_item-takes};

use crate::naming::{block_end, reference, references_after, type_set, use_types_after};
use crate::properties::properties_after;
use crate::words::{error_name, name_at};
use aadl_syntax::{Association, Ref, TypeItem, TypeKind, TypesBlock};
use grammar_rules::{Gathered, Parts, ReadError, Reader, Tail, spot};
use plain_values::List;

#[tactic(auto, unfolding(crate::specs::Types::set_kind))]
fn set_kind(reader: &mut Reader) -> Result<TypeKind, ReadError>
    ensures { Gives result set_kind reader.old reader.new }
{
    reader.sign(b":")?;
    reader.word(b"type")?;
    reader.word(b"set")?;
    let set = type_set(reader)?;
    reader.until_inside::<Tail>()?;
    Ok(TypeKind::Set(set))
}

#[tactic(auto, unfolding(crate::specs::Types::extended_type))]
fn extended_type(reader: &mut Reader) -> Result<Option<Ref>, ReadError>
    ensures { Gives result extended_type reader.old reader.new }
{
    if reader.word_at(0, b"extends") {
        reader.word(b"extends")?;
        return Ok(Some(reference(reader)?));
    }
    Ok(None)
}

#[tactic(auto, unfolding(crate::specs::Types::plain_kind))]
fn plain_kind(reader: &mut Reader) -> Result<TypeKind, ReadError>
    ensures { Gives result plain_kind reader.old reader.new }
{
    reader.sign(b":")?;
    reader.word(b"type")?;
    let extended = extended_type(reader)?;
    reader.until_inside::<Tail>()?;
    Ok(TypeKind::Plain(extended))
}

#[tactic(auto, unfolding(crate::specs::Types::renamed))]
fn renamed(reader: &mut Reader) -> Result<TypeKind, ReadError>
    ensures { Gives result renamed reader.old reader.new }
{
    if reader.word_at(0, b"set") {
        reader.word(b"set")?;
        return Ok(TypeKind::SetAlias(reference(reader)?));
    }
    Ok(TypeKind::Alias(reference(reader)?))
}

#[tactic(auto, unfolding(crate::specs::Types::alias_kind))]
fn alias_kind(reader: &mut Reader) -> Result<TypeKind, ReadError>
    ensures { Gives result alias_kind reader.old reader.new }
{
    reader.word(b"renames")?;
    reader.word(b"type")?;
    renamed(reader)
}

#[tactic(auto, unfolding(crate::specs::Types::type_kind))]
fn type_kind(reader: &mut Reader) -> Result<TypeKind, ReadError>
    ensures { Gives result type_kind reader.old reader.new }
{
    if reader.sign_at(0, b":") && reader.word_at(1, b"type") && reader.word_at(2, b"set") {
        return set_kind(reader);
    }
    if reader.sign_at(0, b":") {
        return plain_kind(reader);
    }
    alias_kind(reader)
}

#[tactic(auto, unfolding(crate::specs::Types::type_item))]
fn type_item(reader: &mut Reader) -> Result<TypeItem, ReadError>
    ensures { Gives result type_item reader.old reader.new }
{
    let spot = spot(reader)?;
    let name = error_name(reader)?;
    let kind = type_kind(reader)?;
    reader.sign(b";")?;
    Ok(TypeItem { name, spot, kind })
}

#[tactic(auto, unfolding(crate::specs::Types::used_types))]
fn used_types(reader: &mut Reader) -> Result<List<Ref>, ReadError>
    ensures { Gives result used_types reader.old reader.new }
{
    let mut uses = List::new(reader.alloc());
    reader.gather::<UsedTypes>(&mut uses)?;
    Ok(uses)
}

#[tactic(auto, unfolding(crate::specs::Types::types_extends))]
fn types_extends(reader: &mut Reader) -> Result<List<Ref>, ReadError>
    ensures { Gives result types_extends reader.old reader.new }
{
    let mut refs = List::new(reader.alloc());
    if reader.word_at(0, b"extends") {
        reader.word(b"extends")?;
        references_after(reader, &mut refs)?;
        reader.word(b"with")?;
    }
    Ok(refs)
}

// A block of property associations.
fn some_properties(reader: &mut Reader) -> Result<List<Association>, ReadError>
    ensures { Gives result (properties_after []) reader.old reader.new }
{
    let mut associations = List::new(reader.alloc());
    properties_after(reader, &mut associations)?;
    Ok(associations)
}

#[tactic(auto, unfolding(crate::specs::Types::types_properties))]
fn types_properties(reader: &mut Reader) -> Result<List<Association>, ReadError>
    ensures { Gives result types_properties reader.old reader.new }
{
    if reader.word_at(0, b"properties") {
        return some_properties(reader);
    }
    Ok(List::new(reader.alloc()))
}

#[tactic(auto, unfolding(crate::specs::Types::types_body))]
fn types_body(reader: &mut Reader) -> Result<TypesBlock, ReadError>
    ensures { Gives result types_body reader.old reader.new }
{
    let uses = used_types(reader)?;
    let extends = types_extends(reader)?;
    let items = reader.parts::<TypeItems>()?;
    types_properties(reader)?;
    Ok(TypesBlock {
        uses,
        extends,
        items,
    })
}

/// Reads a block of error types.
#[tactic(auto, unfolding(crate::specs::Types::types_block))]
pub fn types_block(reader: &mut Reader) -> Result<TypesBlock, ReadError>
    ensures { Gives result types_block reader.old reader.new }
{
    reader.word(b"error")?;
    reader.word(b"types")?;
    let block = types_body(reader)?;
    block_end(reader, b"types")?;
    Ok(block)
}

// Each `use types` of a block.
pub(crate) struct UsedTypes;

impl Gathered for UsedTypes {
    type Whole = List<Ref>;

    ghost tests = { is_word (codes "use") ∷ [] };

    ghost rule = { use_types_after };

    fn begins(reader: &mut Reader) -> bool {
        reader.word_at(0, b"use")
    }

    fn part(reader: &mut Reader, whole: &mut List<Ref>) -> Result<(), ReadError> {
        use_types_after(reader, whole)
    }

    ghost takes_tokens = { use_types-takes };
}

// The items of a block.
pub(crate) struct TypeItems;

impl Parts for TypeItems {
    type Part = TypeItem;

    ghost tests = { is_name ∷ [] };

    ghost rule = { type_item };

    fn begins(reader: &mut Reader) -> bool {
        name_at(reader, 0)
    }

    fn part(reader: &mut Reader) -> Result<TypeItem, ReadError> {
        type_item(reader)
    }

    ghost takes_tokens = { type_item-takes };
}
