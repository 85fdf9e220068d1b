ghost use Rattle.std.specs.Prelude.{[], ◌∷◌, codes};
ghost use Rattle.grammar_rules.specs.inner.Reader.{Gives};
ghost use Rattle.grammar_rules.specs.Parts.{parts_after};
ghost use Rattle.grammar_rules.specs.Tokens.{is_sign, is_word};
ghost use Rattle.emv2_parts.specs.Conditions.{inward, atom, bound, further_condition, condition_list, counted, enclosed, primary, and_primary, conjunction, or_conjunction, disjunction, condition_within, whole_condition};

use crate::naming::{optional_set, point};
use crate::words::{count, count_at};
use aadl_syntax::{Atom, Condition};
use grammar_rules::{ReadError, Reader, spot};
use plain_values::List;

/// More parentheses than may be open at once in a condition.
const LEVELS: usize = 65;

/// Reads a condition.
#[tactic(auto, unfolding(crate::specs::Conditions::whole_condition))]
pub fn whole_condition(reader: &mut Reader) -> Result<Condition, ReadError>
    ensures { Gives result whole_condition reader.old reader.new }
{
    condition_within(reader, LEVELS)
}

#[tactic(auto, unfolding(crate::specs::Conditions::inward))]
fn inward(reader: &mut Reader) -> Result<bool, ReadError>
    ensures { Gives result inward reader.old reader.new }
{
    if reader.word_at(0, b"in") {
        reader.word(b"in")?;
        return Ok(true);
    }
    Ok(false)
}

#[tactic(auto, unfolding(crate::specs::Conditions::atom))]
fn atom(reader: &mut Reader) -> Result<Atom, ReadError>
    ensures { Gives result atom reader.old reader.new }
{
    let inward = inward(reader)?;
    let point = point(reader)?;
    let set = optional_set(reader)?;
    Ok(Atom {
        inward,
        names: point.names,
        spot: point.spot,
        set,
    })
}

/// Reads `ormore` or `orless`, and says whether it is `orless`.
#[tactic(auto, unfolding(crate::specs::Conditions::bound))]
fn bound(reader: &mut Reader) -> Result<bool, ReadError>
    ensures { Gives result bound reader.old reader.new }
{
    if reader.word_at(0, b"orless") {
        reader.word(b"orless")?;
        return Ok(true);
    }
    reader.word(b"ormore")?;
    Ok(false)
}

/// Reads a condition in which fewer than `levels` parentheses are open at once.
#[cycle(condition)]
#[tactic(auto, unfolding(crate::specs::Conditions::condition_within))]
fn condition_within(reader: &mut Reader, levels: usize) -> Result<Condition, ReadError>
    ensures { Gives result (condition_within levels) reader.old reader.new }
{
    if levels == 0 {
        return Err(ReadError::Refused);
    }
    disjunction(reader, levels - 1)
}

#[cycle(condition)]
#[tactic(auto, unfolding(crate::specs::Conditions::disjunction))]
fn disjunction(reader: &mut Reader, levels: usize) -> Result<Condition, ReadError>
    ensures { Gives result (disjunction (condition_within levels)) reader.old reader.new }
{
    let first = conjunction(reader, levels)?;
    if !reader.word_at(0, b"or") {
        return Ok(first);
    }
    Ok(Condition::Any(or_parts(reader, levels, first)?))
}

#[cycle(condition)]
fn or_parts(
    reader: &mut Reader,
    levels: usize,
    first: Condition,
) -> Result<List<Condition>, ReadError>
    ensures { Gives result (parts_after (first ∷ []) (is_word (codes "or") ∷ []) (or_conjunction (condition_within levels))) reader.old reader.new }
{
    let mut parts = List::new(reader.alloc());
    parts.push(first)?;
    while reader.word_at(0, b"or") {
        parts.push(or_conjunction(reader, levels)?)?;
    }
    Ok(parts)
}

#[cycle(condition)]
#[tactic(auto, unfolding(crate::specs::Conditions::or_conjunction))]
fn or_conjunction(reader: &mut Reader, levels: usize) -> Result<Condition, ReadError>
    ensures { Gives result (or_conjunction (condition_within levels)) reader.old reader.new }
{
    reader.word(b"or")?;
    conjunction(reader, levels)
}

#[cycle(condition)]
#[tactic(auto, unfolding(crate::specs::Conditions::conjunction))]
fn conjunction(reader: &mut Reader, levels: usize) -> Result<Condition, ReadError>
    ensures { Gives result (conjunction (condition_within levels)) reader.old reader.new }
{
    let first = primary(reader, levels)?;
    if !reader.word_at(0, b"and") {
        return Ok(first);
    }
    Ok(Condition::All(and_parts(reader, levels, first)?))
}

#[cycle(condition)]
fn and_parts(
    reader: &mut Reader,
    levels: usize,
    first: Condition,
) -> Result<List<Condition>, ReadError>
    ensures { Gives result (parts_after (first ∷ []) (is_word (codes "and") ∷ []) (and_primary (condition_within levels))) reader.old reader.new }
{
    let mut parts = List::new(reader.alloc());
    parts.push(first)?;
    while reader.word_at(0, b"and") {
        parts.push(and_primary(reader, levels)?)?;
    }
    Ok(parts)
}

#[cycle(condition)]
#[tactic(auto, unfolding(crate::specs::Conditions::and_primary))]
fn and_primary(reader: &mut Reader, levels: usize) -> Result<Condition, ReadError>
    ensures { Gives result (and_primary (condition_within levels)) reader.old reader.new }
{
    reader.word(b"and")?;
    primary(reader, levels)
}

#[cycle(condition)]
#[tactic(auto, unfolding(crate::specs::Conditions::primary))]
fn primary(reader: &mut Reader, levels: usize) -> Result<Condition, ReadError>
    ensures { Gives result (primary (condition_within levels)) reader.old reader.new }
{
    if reader.sign_at(0, b"(") {
        return enclosed(reader, levels);
    }
    if count_at(reader) {
        return counted(reader, levels);
    }
    Ok(Condition::Atom(atom(reader)?))
}

#[cycle(condition)]
#[tactic(auto, unfolding(crate::specs::Conditions::enclosed))]
fn enclosed(reader: &mut Reader, levels: usize) -> Result<Condition, ReadError>
    ensures { Gives result (enclosed (condition_within levels)) reader.old reader.new }
{
    reader.sign(b"(")?;
    let inner = condition_within(reader, levels)?;
    reader.sign(b")")?;
    Ok(inner)
}

#[cycle(condition)]
#[tactic(auto, unfolding(crate::specs::Conditions::counted))]
fn counted(reader: &mut Reader, levels: usize) -> Result<Condition, ReadError>
    ensures { Gives result (counted (condition_within levels)) reader.old reader.new }
{
    let spot = spot(reader)?;
    let number = count(reader)?;
    let at_most = bound(reader)?;
    let parts = condition_list(reader, levels)?;
    if at_most {
        return Ok(Condition::AtMost(number, parts, spot));
    }
    Ok(Condition::AtLeast(number, parts))
}

#[cycle(condition)]
#[tactic(auto, unfolding(crate::specs::Conditions::condition_list))]
fn condition_list(reader: &mut Reader, levels: usize) -> Result<List<Condition>, ReadError>
    ensures { Gives result (condition_list (condition_within levels)) reader.old reader.new }
{
    reader.sign(b"(")?;
    let first = condition_within(reader, levels)?;
    let parts = further_parts(reader, levels, first)?;
    reader.sign(b")")?;
    Ok(parts)
}

#[cycle(condition)]
fn further_parts(
    reader: &mut Reader,
    levels: usize,
    first: Condition,
) -> Result<List<Condition>, ReadError>
    ensures { Gives result (parts_after (first ∷ []) (is_sign (codes ",") ∷ []) (further_condition (condition_within levels))) reader.old reader.new }
{
    let mut parts = List::new(reader.alloc());
    parts.push(first)?;
    while reader.sign_at(0, b",") {
        parts.push(further_condition(reader, levels)?)?;
    }
    Ok(parts)
}

#[cycle(condition)]
#[tactic(auto, unfolding(crate::specs::Conditions::further_condition))]
fn further_condition(reader: &mut Reader, levels: usize) -> Result<Condition, ReadError>
    ensures { Gives result (further_condition (condition_within levels)) reader.old reader.new }
{
    reader.sign(b",")?;
    condition_within(reader, levels)
}
