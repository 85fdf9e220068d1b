ghost use Rattle.std.specs.Prelude.{◌≡◌, All, IfOk, IfSome, find, length, option_copied, replicate};
ghost use Rattle.aadl_syntax.specs.Form.{IsNumber};
ghost use Rattle.aadl_syntax.specs.inner.Token.{IsTokenText};
ghost use Rattle.aadl_syntax.specs.declared.token.TokenKind.TheVariants.{Number, Word};
ghost use Rattle.property_reader.specs.Fields.{value_fields};
ghost use Rattle.property_reader.specs.Rates.{association_rate, conservative_rate, distribution_kind, field_named, fields_give_rate, fields_kind, fields_number, fields_rate, gives_rate, only_text, rate_with, rate_word, value_rate};

use crate::field::{Field, fields_of};
use aadl_syntax::{Association, TokenKind, TokenList};
use plain_values::{List, Mem, Name, is_same};
use std::alloc::Global;

/// What the number of a rate is.
#[derive(Clone, Copy)]
pub enum RateKind {
    /// The probability that the event has occurred.
    Prob,
    /// The failure rate of an exponential distribution.
    Lambda,
}

/// How likely an event is: what the number is, and the number, as the model writes it.
#[derive(Drop)]
pub struct Rate {
    pub kind: RateKind,
    pub text: Name,
}

impl Rate {
    /// The rate of an event of which nothing else is known: the probability 1, a conservative mark and no claim.
    pub fn conservative(alloc: Global) -> Mem<Rate>
        ensures rate { IfOk result (λ rate. rate ≡ conservative_rate) }
        ensures number { IfOk result (λ rate. IsNumber rate.text) }
    {
        let text = List::of(Vec::from_slice(alloc, b"1")?)?;
        Ok(Rate {
            kind: RateKind::Prob,
            text,
        })
    }
}

/// The conservative rate for each of so many events.
pub fn conservative_rates(alloc: Global, count: u32) -> Mem<List<Rate>>
    ensures rates { IfOk result (λ rates. rates ≡ replicate count conservative_rate) }
    ensures each { IfOk result (λ rates. length rates ≡ count) }
    ensures numbers { IfOk result (λ rates. All (λ rate. IsNumber rate.text) rates) }
{
    let mut rates = List::new(alloc);
    for _ in 0..count {
        rates.push(Rate::conservative(alloc)?)?;
    }
    Ok(rates)
}

/// The rate that an association of `OccurrenceDistribution` gives, where there is one: its `ProbabilityValue`, one number whose
/// bytes are unchanged, as a probability under the `Distribution` Fixed, and as a failure rate under Poisson and Exponential; of
/// two fields of one name the first counts. Everything else gives the conservative rate.
pub fn rate_of(alloc: Global, association: Option<&Association>) -> Mem<Rate>
    ensures rate { IfOk result (λ rate. rate ≡ association_rate (option_copied association.entry)) }
    ensures number { IfOk result (λ rate. IsNumber rate.text) }
{
    match association {
        Some(association) => value_rate(alloc, &association.value),
        None => Rate::conservative(alloc),
    }
}

/// Whether an association gives a rate, where there is one. The rate of all others is the conservative one, which a model may also write.
pub fn gives_rate(alloc: Global, association: Option<&Association>) -> Mem<bool>
    ensures { IfOk result (λ gives. gives ≡ gives_rate (option_copied association.entry)) }
{
    match association {
        Some(association) => value_gives_rate(alloc, &association.value),
        None => Ok(false),
    }
}

/// Whether a value gives a rate.
fn value_gives_rate(alloc: Global, value: &TokenList) -> Mem<bool>
    ensures { IfOk result (λ gives. gives ≡ fields_give_rate (value_fields value.now)) }
{
    let fields = fields_of(alloc, value)?;
    Ok(fields_give_rate(&fields))
}

/// Whether fields give a rate.
fn fields_give_rate(fields: &Option<List<Field>>) -> bool
    ensures { result ≡ fields_give_rate fields.now }
{
    match fields {
        Some(fields) => kind_in(fields.items()).is_some() && number_in(fields.items()).is_some(),
        None => false,
    }
}

/// The rate that a value gives.
fn value_rate(alloc: Global, value: &TokenList) -> Mem<Rate>
    ensures rate { IfOk result (λ rate. rate ≡ value_rate value.now) }
    ensures number { IfOk result (λ rate. IsNumber rate.text) }
{
    let fields = fields_of(alloc, value)?;
    fields_rate(alloc, &fields)
}

/// The rate that fields give.
fn fields_rate(alloc: Global, fields: &Option<List<Field>>) -> Mem<Rate>
    ensures rate { IfOk result (λ rate. rate ≡ fields_rate fields.now) }
    ensures number { IfOk result (λ rate. IsNumber rate.text) }
{
    match fields {
        Some(fields) => rate_with(alloc, kind_in(fields.items()), number_in(fields.items())),
        None => Rate::conservative(alloc),
    }
}

/// The rate of a number under a distribution, where both are there.
fn rate_with(alloc: Global, kind: Option<RateKind>, number: Option<&[u8]>) -> Mem<Rate>
    requires form { IfSome number (λ text. IsNumber text.now) }
    ensures rate { IfOk result (λ rate. rate ≡ rate_with kind (option_copied number.entry)) }
    ensures number { IfOk result (λ rate. IsNumber rate.text) }
{
    match (kind, number) {
        (Some(kind), Some(number)) => number_rate(alloc, kind, number),
        _ => Rate::conservative(alloc),
    }
}

fn number_rate(alloc: Global, kind: RateKind, number: &[u8]) -> Mem<Rate>
    requires form { IsNumber number.now }
    ensures rate { IfOk result (λ rate. rate ≡ record { kind = kind; text = number.now }) }
    ensures number { IfOk result (λ rate. IsNumber rate.text) }
{
    let text = List::of(Vec::from_slice(alloc, number)?)?;
    Ok(Rate { kind, text })
}

/// What the number is under the distribution that fields give, where it is one word that names one of these.
fn kind_in(fields: &[Field]) -> Option<RateKind>
    ensures { result ≡ fields_kind fields.now }
{
    distribution_kind(word_of(field_named(fields, b"distribution")?)?)
}

/// What the number of a rate is under a distribution of this name, given in lower case.
fn distribution_kind(name: &[u8]) -> Option<RateKind>
    ensures { result ≡ distribution_kind name.now }
{
    if is_same(name, b"fixed") {
        return Some(RateKind::Prob);
    }
    if is_same(name, b"poisson") {
        return Some(RateKind::Lambda);
    }
    if is_same(name, b"exponential") {
        return Some(RateKind::Lambda);
    }
    None
}

/// The number that fields give, where it is one number.
fn number_in(fields: &[Field]) -> Option<&[u8]>
    ensures number { option_copied result ≡ fields_number fields.now }
    ensures form { IfSome result (λ text. IsNumber text.now) }
{
    number_of(field_named(fields, b"probabilityvalue")?)
}

/// The text of tokens that are one word.
fn word_of(tokens: &TokenList) -> Option<&[u8]>
    ensures { option_copied result ≡ only_text Word tokens.now }
{
    only_text(tokens, TokenKind::Word)
}

/// The text of tokens that are one number.
fn number_of(tokens: &TokenList) -> Option<&[u8]>
    ensures number { option_copied result ≡ only_text Number tokens.now }
    ensures form { IfSome result (λ text. IsNumber text.now) }
{
    only_text(tokens, TokenKind::Number)
}

/// The text of tokens that are one token of this kind.
fn only_text(tokens: &TokenList, kind: TokenKind) -> Option<&[u8]>
    ensures text { option_copied result ≡ only_text kind tokens.now }
    ensures form { IfSome result (λ text. IsTokenText kind text.now) }
{
    if tokens.len() != 1 {
        return None;
    }
    let token = tokens.get(0)?;
    if token.kind != kind {
        return None;
    }
    Some(token.text)
}

/// The tokens of the first field of a name.
fn field_named<'f>(fields: &'f [Field], name: &[u8]) -> Option<&'f TokenList>
    ensures { option_copied result ≡ field_named name.now fields.now }
{
    let field = fields
        .iter()
        .find(|field| is_same(field.name.text(), name))?;
    Some(&field.value)
}

/// The word that is written before the number of a rate of this kind.
pub fn rate_word(kind: RateKind) -> &'static [u8]
    ensures { result.now ≡ rate_word kind }
{
    match kind {
        RateKind::Prob => b"prob=",
        RateKind::Lambda => b"lambda=",
    }
}
