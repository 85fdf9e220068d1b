//! The records of a value of `Hazards`.

ghost use Rattle.std.specs.Prelude.{◌≡◌, IfOk, map, option_copied};
ghost use Rattle.hazard_values.specs.Records.{failure_text, field_text, field_value, phases_text, record_of, records_of, records_said, text_or_none};

use crate::field::{Field, value_records};
use crate::text::text_of;
use aadl_syntax::TokenList;
use plain_values::{List, Mem, Name, is_same};
use std::alloc::Global;

/// What a record of hazards says: each text as `text_of` gives it. The severity and the likelihood are there only where the record has such a field.
#[derive(Drop)]
pub struct HazardRecord {
    /// `Failure`, or else `HazardTitle`, or else `FailureCondition`.
    pub failure: Name,
    pub severity: Option<Name>,
    pub likelihood: Option<Name>,
    /// `Phases`, or else `Phase`.
    pub phases: Name,
    pub cross_reference: Name,
    pub description: Name,
}

/// The records of a value of `Hazards`, in order: of `( [ name => value; .. ], .. )` or of one record alone. Any other value has none. Of two fields of one
/// name the first counts.
pub fn records_of(alloc: Global, value: &TokenList) -> Mem<List<HazardRecord>>
    ensures { IfOk result (λ records. records ≡ records_of value.now) }
{
    let records = value_records(alloc, value)?;
    records_said(alloc, &records)
}

/// What records say, where there are some.
fn records_said(alloc: Global, records: &Option<List<List<Field>>>) -> Mem<List<HazardRecord>>
    ensures { IfOk result (λ said. said ≡ records_said records.now) }
{
    match records {
        Some(records) => all_said(alloc, records.items()),
        None => Ok(List::new(alloc)),
    }
}

/// What records say.
fn all_said(alloc: Global, records: &[List<Field>]) -> Mem<List<HazardRecord>>
    ensures { IfOk result (λ said. said ≡ map record_of records.now) }
{
    let mut said = List::new(alloc);
    for record in records {
        let one = record_of(alloc, record.items())?;
        said.push(one)?;
    }
    Ok(said)
}

/// What a record says.
fn record_of(alloc: Global, fields: &[Field]) -> Mem<HazardRecord>
    ensures { IfOk result (λ said. said ≡ record_of fields.now) }
{
    let failure = failure_text(alloc, fields)?;
    let severity = field_text(alloc, fields, b"severity")?;
    let likelihood = field_text(alloc, fields, b"likelihood")?;
    let phases = phases_text(alloc, fields)?;
    let cross_reference = text_named(alloc, fields, b"crossreference")?;
    let description = text_named(alloc, fields, b"description")?;
    Ok(HazardRecord {
        failure,
        severity,
        likelihood,
        phases,
        cross_reference,
        description,
    })
}

/// The failure of a record.
fn failure_text(alloc: Global, fields: &[Field]) -> Mem<Name>
    ensures { IfOk result (λ text. text ≡ failure_text fields.now) }
{
    if let Some(value) = field_named(fields, b"failure") {
        return text_of(alloc, value);
    }
    if let Some(value) = field_named(fields, b"hazardtitle") {
        return text_of(alloc, value);
    }
    text_named(alloc, fields, b"failurecondition")
}

/// The phases of a record.
fn phases_text(alloc: Global, fields: &[Field]) -> Mem<Name>
    ensures { IfOk result (λ text. text ≡ phases_text fields.now) }
{
    if let Some(value) = field_named(fields, b"phases") {
        return text_of(alloc, value);
    }
    text_named(alloc, fields, b"phase")
}

/// What the first field of a name says, and nothing where there is none.
fn text_named(alloc: Global, fields: &[Field], name: &[u8]) -> Mem<Name>
    ensures { IfOk result (λ text. text ≡ text_or_none (field_text name.now fields.now)) }
{
    match field_named(fields, name) {
        Some(value) => text_of(alloc, value),
        None => Ok(List::new(alloc)),
    }
}

/// What the first field of a name says, if there is one.
fn field_text(alloc: Global, fields: &[Field], name: &[u8]) -> Mem<Option<Name>>
    ensures { IfOk result (λ text. text ≡ field_text name.now fields.now) }
{
    match field_named(fields, name) {
        Some(value) => Ok(Some(text_of(alloc, value)?)),
        None => Ok(None),
    }
}

/// The tokens of the first field of a name.
fn field_named<'f>(fields: &'f [Field], name: &[u8]) -> Option<&'f TokenList>
    ensures { option_copied result ≡ field_value name.now fields.now }
{
    let field = fields
        .iter()
        .find(|field| is_same(field.name.text(), name))?;
    Some(&field.value)
}
