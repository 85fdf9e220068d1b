ghost use Rattle.std.specs.Prelude.{◌≡◌, [], ◌∷◌, IfOk, codes};
ghost use Rattle.grammar_rules.specs.inner.Reader.{Gives, Begins};
ghost use Rattle.grammar_rules.specs.Tokens.{is_identifier, is_sign};
ghost use Rattle.hazard_values.specs.Records.{all_records, field, fields, fields_record, further_record, hazards_value, one_record, perhaps_records, record_list, some_records, value_records};

use aadl_syntax::{Identifier, TokenList};
use grammar_rules::{Parts, ReadError, Reader, Tail};
use plain_values::{List, Mem};
use std::alloc::{AllocError, Global};

/// A field of a record: its name, and the tokens of what it is.
#[derive(Drop)]
pub(crate) struct Field {
    pub(crate) name: Identifier,
    pub(crate) value: TokenList,
}

/// The records of a value, each as its fields, if it is a list of records or one record alone.
pub(crate) fn value_records(alloc: Global, value: &TokenList) -> Mem<Option<List<List<Field>>>>
    ensures { IfOk result (λ records. records ≡ value_records value.now) }
{
    let mut reader = Reader::new(alloc, 0, value);
    match hazards_value(&mut reader) {
        Ok(records) => Ok(Some(records)),
        Err(ReadError::Refused) => Ok(None),
        Err(ReadError::Memory) => Err(AllocError),
    }
}

/// Reads a list of records or one record alone, and the end.
#[tactic(auto, unfolding(crate::specs::Records::hazards_value))]
fn hazards_value(reader: &mut Reader) -> Result<List<List<Field>>, ReadError>
    ensures { Gives result hazards_value reader.old reader.new }
{
    let records = all_records(reader)?;
    reader.end()?;
    Ok(records)
}

/// Reads a list of records or one record alone.
#[tactic(auto, unfolding(crate::specs::Records::all_records))]
fn all_records(reader: &mut Reader) -> Result<List<List<Field>>, ReadError>
    ensures { Gives result all_records reader.old reader.new }
{
    if reader.sign_at(0, b"(") {
        return record_list(reader);
    }
    one_record(reader)
}

/// Reads records in brackets.
#[tactic(auto, unfolding(crate::specs::Records::record_list))]
fn record_list(reader: &mut Reader) -> Result<List<List<Field>>, ReadError>
    ensures { Gives result record_list reader.old reader.new }
{
    reader.sign(b"(")?;
    let records = perhaps_records(reader)?;
    reader.sign(b")")?;
    Ok(records)
}

/// Reads one record.
#[tactic(auto, unfolding(crate::specs::Records::one_record))]
fn one_record(reader: &mut Reader) -> Result<List<List<Field>>, ReadError>
    ensures { Gives result one_record reader.old reader.new }
{
    let mut records = List::new(reader.alloc());
    let fields = fields_record(reader)?;
    records.push(fields)?;
    Ok(records)
}

/// Reads records with commas between them, perhaps none.
#[tactic(auto, unfolding(crate::specs::Records::perhaps_records))]
fn perhaps_records(reader: &mut Reader) -> Result<List<List<Field>>, ReadError>
    ensures { Gives result perhaps_records reader.old reader.new }
{
    if reader.sign_at(0, b"[") {
        return some_records(reader);
    }
    Ok(List::new(reader.alloc()))
}

/// Reads records with commas between them.
#[tactic(auto, unfolding(crate::specs::Records::some_records))]
fn some_records(reader: &mut Reader) -> Result<List<List<Field>>, ReadError>
    ensures { Gives result some_records reader.old reader.new }
{
    let first = fields_record(reader)?;
    reader.parts_after::<FurtherRecords>(first)
}

/// Reads a comma and a record.
#[tactic(auto, unfolding(crate::specs::Records::further_record))]
fn further_record(reader: &mut Reader) -> Result<List<Field>, ReadError>
    ensures { Gives result further_record reader.old reader.new }
{
    reader.sign(b",")?;
    fields_record(reader)
}

/// Reads a record.
#[tactic(auto, unfolding(crate::specs::Records::fields_record))]
fn fields_record(reader: &mut Reader) -> Result<List<Field>, ReadError>
    ensures { Gives result fields_record reader.old reader.new }
{
    reader.sign(b"[")?;
    let fields = all_fields(reader)?;
    reader.sign(b"]")?;
    Ok(fields)
}

/// Reads fields, perhaps none.
#[tactic(auto, unfolding(crate::specs::Records::fields))]
fn all_fields(reader: &mut Reader) -> Result<List<Field>, ReadError>
    ensures { Gives result fields reader.old reader.new }
{
    reader.parts::<Fields>()
}

/// Reads a field.
#[tactic(auto, unfolding(crate::specs::Records::field))]
fn one_field(reader: &mut Reader) -> Result<Field, ReadError>
    ensures { Gives result field reader.old reader.new }
{
    let name = reader.identifier(&[])?;
    reader.sign(b"=>")?;
    let value = reader.until::<Tail>()?.copied(reader.alloc())?;
    reader.sign(b";")?;
    Ok(Field { name, value })
}

/// Whether a field begins.
fn field_at(reader: &mut Reader) -> bool
    ensures { Begins result 0 (is_identifier [] ∷ []) reader.old reader.new }
{
    reader.identifier_at(0, &[])
}

/// Whether a comma stands next.
pub(crate) fn comma_at(reader: &mut Reader) -> bool
    ensures { Begins result 0 (is_sign (codes ",") ∷ []) reader.old reader.new }
{
    reader.sign_at(0, b",")
}

// The fields of a record.
struct Fields;

impl Parts for Fields {
    ghost use Rattle.std.specs.Prelude.{[], ◌∷◌};
    ghost use Rattle.grammar_rules.specs.Tokens.{is_identifier};
    ghost use Rattle.hazard_values.specs.Records.{field};
    ghost use Rattle.hazard_values.specs.inner.Takes.{field-takes};

    type Part = Field;

    ghost tests = { is_identifier [] ∷ [] };

    ghost rule = { field };

    fn begins(reader: &mut Reader) -> bool {
        field_at(reader)
    }

    fn part(reader: &mut Reader) -> Result<Field, ReadError> {
        one_field(reader)
    }

    ghost takes_tokens = { field-takes };
}

// The records of a list behind the first.
struct FurtherRecords;

impl Parts for FurtherRecords {
    ghost use Rattle.std.specs.Prelude.{[], ◌∷◌, codes};
    ghost use Rattle.grammar_rules.specs.Tokens.{is_sign};
    ghost use Rattle.hazard_values.specs.Records.{further_record};
    ghost use Rattle.hazard_values.specs.inner.Takes.{further_record-takes};

    type Part = List<Field>;

    ghost tests = { is_sign (codes ",") ∷ [] };

    ghost rule = { further_record };

    fn begins(reader: &mut Reader) -> bool {
        comma_at(reader)
    }

    fn part(reader: &mut Reader) -> Result<List<Field>, ReadError> {
        further_record(reader)
    }

    ghost takes_tokens = { further_record-takes };
}
