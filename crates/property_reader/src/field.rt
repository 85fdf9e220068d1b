ghost use Rattle.std.specs.Prelude.{◌≡◌, [], ◌∷◌, IfOk};
ghost use Rattle.grammar_rules.specs.inner.Reader.{Gives, Begins};
ghost use Rattle.grammar_rules.specs.Tokens.{is_identifier};
ghost use Rattle.property_reader.specs.Fields.{field, fields, rate_value, value_fields};

use aadl_syntax::{Identifier, TokenList};
use grammar_rules::{Parts, ReadError, Reader, Tail};
use plain_values::{List, Mem};
use std::alloc::{AllocError, Global};

/// A field of a value: its name, and the tokens of what it is.
#[derive(Drop)]
pub(crate) struct Field {
    pub(crate) name: Identifier,
    pub(crate) value: TokenList,
}

/// The fields of a value, if it is a list of fields.
pub(crate) fn fields_of(alloc: Global, value: &TokenList) -> Mem<Option<List<Field>>>
    ensures { IfOk result (λ fields. fields ≡ value_fields value.now) }
{
    let mut reader = Reader::new(alloc, 0, value);
    match rate_value(&mut reader) {
        Ok(fields) => Ok(Some(fields)),
        Err(ReadError::Refused) => Ok(None),
        Err(ReadError::Memory) => Err(AllocError),
    }
}

#[tactic(auto, unfolding(crate::specs::Fields::rate_value))]
fn rate_value(reader: &mut Reader) -> Result<List<Field>, ReadError>
    ensures { Gives result rate_value reader.old reader.new }
{
    reader.sign(b"[")?;
    let fields = all_fields(reader)?;
    reader.sign(b"]")?;
    reader.end()?;
    Ok(fields)
}

#[tactic(auto, unfolding(crate::specs::Fields::fields))]
fn all_fields(reader: &mut Reader) -> Result<List<Field>, ReadError>
    ensures { Gives result fields reader.old reader.new }
{
    reader.parts::<Fields>()
}

#[tactic(auto, unfolding(crate::specs::Fields::field))]
fn one_field(reader: &mut Reader) -> Result<Field, ReadError>
    ensures { Gives result field reader.old reader.new }
{
    let name = reader.identifier(&[])?;
    reader.sign(b"=>")?;
    let value = reader.until::<Tail>()?.copied(reader.alloc())?;
    reader.sign(b";")?;
    Ok(Field { name, value })
}

fn field_at(reader: &mut Reader) -> bool
    ensures { Begins result 0 (is_identifier [] ∷ []) reader.old reader.new }
{
    reader.identifier_at(0, &[])
}

// The fields of a value.
struct Fields;

impl Parts for Fields {
    ghost use Rattle.std.specs.Prelude.{[], ◌∷◌};
    ghost use Rattle.grammar_rules.specs.Tokens.{is_identifier};
    ghost use Rattle.property_reader.specs.Fields.{field};
    ghost use Rattle.property_reader.specs.inner.Takes.{field-takes};

    type Part = Field;

    ghost tests = { is_identifier [] ∷ [] };

    ghost rule = { field };

    fn begins(reader: &mut Reader) -> bool {
        field_at(reader)
    }

    fn part(reader: &mut Reader) -> Result<Field, ReadError> {
        one_field(reader)
    }

    ghost takes_tokens = { field-takes };
}
