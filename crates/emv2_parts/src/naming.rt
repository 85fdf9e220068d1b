ghost use Rattle.std.specs.Prelude.{[], ◌∷◌, codes};
ghost use Rattle.grammar_rules.specs.inner.Reader.{Gives, given};
ghost use Rattle.grammar_rules.specs.Rules.{chooses};
ghost use Rattle.grammar_rules.specs.Tokens.{is_sign, is_one_of};
ghost use Rattle.emv2_parts.specs.Words.{is_name, point_words};
ghost use Rattle.grammar_rules.specs.Tokens.{spot};
ghost use Rattle.emv2_parts.specs.Names.{further_name, names, reference, further_reference, references_after, use_types_after, block_end, condition_open, condition_close, dotted_name, dotted_names, point_word, point, factor, product, set_term, further_term, type_set, optional_set, flow_end, state_reference, label};
ghost use Rattle.emv2_parts.specs.inner.Takes.{further_name-takes, further_reference-takes, dotted_name-takes, factor-takes, further_term-takes};

use crate::words::{error_name, name_at, point_name, point_word_at};
use aadl_syntax::{Identifier, PointRef, Ref, StateRef, Term, TypeSet};
use grammar_rules::{Parts, ReadError, Reader, spot};
use plain_values::{List, Spot};

/// A point, perhaps with a set of types.
#[derive(Drop)]
pub struct FlowEnd {
    pub point: PointRef,
    pub set: Option<TypeSet>,
}

/// Reads identifiers with `::` between them.
#[tactic(auto, unfolding(crate::specs::Names::names))]
pub fn names(reader: &mut Reader) -> Result<List<Identifier>, ReadError>
    ensures { Gives result names reader.old reader.new }
{
    let first = error_name(reader)?;
    reader.parts_after::<FurtherNames>(first)
}

#[tactic(auto, unfolding(crate::specs::Names::further_name))]
fn further_name(reader: &mut Reader) -> Result<Identifier, ReadError>
    ensures { Gives result further_name reader.old reader.new }
{
    reader.sign(b"::")?;
    error_name(reader)
}

/// Reads names as a reference.
#[tactic(auto, unfolding(crate::specs::Names::reference))]
pub fn reference(reader: &mut Reader) -> Result<Ref, ReadError>
    ensures { Gives result reference reader.old reader.new }
{
    let spot = spot(reader)?;
    let names = names(reader)?;
    Ok(Ref {
        names,
        item: None,
        spot,
    })
}

#[tactic(auto, unfolding(crate::specs::Names::further_reference))]
fn further_reference(reader: &mut Reader) -> Result<Ref, ReadError>
    ensures { Gives result further_reference reader.old reader.new }
{
    reader.sign(b",")?;
    reference(reader)
}

/// Reads references with commas between them, and gives them after others.
#[tactic(auto, unfolding(crate::specs::Names::references_after))]
pub(crate) fn references_after(reader: &mut Reader, refs: &mut List<Ref>) -> Result<(), ReadError>
    ensures { Gives (given result refs.new) (references_after refs.old) reader.old reader.new }
{
    let first = reference(reader)?;
    refs.push(first)?;
    reader.more_parts::<FurtherReferences>(refs)
}

/// Reads a `use types`, and gives its libraries after others.
#[tactic(auto, unfolding(crate::specs::Names::use_types_after))]
pub fn use_types_after(reader: &mut Reader, uses: &mut List<Ref>) -> Result<(), ReadError>
    ensures { Gives (given result uses.new) (use_types_after uses.old) reader.old reader.new }
{
    reader.word(b"use")?;
    reader.word(b"types")?;
    references_after(reader, uses)?;
    reader.sign(b";")?;
    Ok(())
}

/// Reads the end of a block of this word.
#[tactic(auto, unfolding(crate::specs::Names::block_end))]
pub fn block_end(reader: &mut Reader, name: &[u8]) -> Result<(), ReadError>
    ensures { Gives result (block_end name.now) reader.old reader.new }
{
    reader.word(b"end")?;
    reader.word(name)?;
    reader.sign(b";")
}

/// Reads what stands before the condition of a transition or of an outgoing condition.
#[tactic(auto, unfolding(crate::specs::Names::condition_open))]
pub fn condition_open(reader: &mut Reader) -> Result<(), ReadError>
    ensures { Gives result condition_open reader.old reader.new }
{
    reader.sign(b"-")?;
    reader.sign(b"[")
}

/// Reads what stands after a condition that leads to something.
#[tactic(auto, unfolding(crate::specs::Names::condition_close))]
pub fn condition_close(reader: &mut Reader) -> Result<(), ReadError>
    ensures { Gives result condition_close reader.old reader.new }
{
    reader.sign(b"]")?;
    reader.sign(b"->")
}

#[tactic(auto, unfolding(crate::specs::Names::dotted_name))]
fn dotted_name(reader: &mut Reader) -> Result<Identifier, ReadError>
    ensures { Gives result dotted_name reader.old reader.new }
{
    reader.sign(b".")?;
    error_name(reader)
}

/// Reads identifiers with dots between them.
#[tactic(auto, unfolding(crate::specs::Names::dotted_names))]
pub fn dotted_names(reader: &mut Reader) -> Result<List<Identifier>, ReadError>
    ensures { Gives result dotted_names reader.old reader.new }
{
    let first = error_name(reader)?;
    reader.parts_after::<DottedNames>(first)
}

/// Reads a word that names a point.
#[tactic(auto, unfolding(crate::specs::Names::point_word))]
pub fn point_word(reader: &mut Reader) -> Result<List<Identifier>, ReadError>
    ensures { Gives result point_word reader.old reader.new }
{
    let mut names = List::new(reader.alloc());
    names.push(point_name(reader)?)?;
    Ok(names)
}

// The names of a point.
fn point_names(reader: &mut Reader) -> Result<List<Identifier>, ReadError>
    ensures { Gives result (chooses (is_one_of point_words ∷ []) point_word dotted_names) reader.old reader.new }
{
    if point_word_at(reader, 0) {
        return point_word(reader);
    }
    dotted_names(reader)
}

/// Reads a point.
#[tactic(auto, unfolding(crate::specs::Names::point))]
pub fn point(reader: &mut Reader) -> Result<PointRef, ReadError>
    ensures { Gives result point reader.old reader.new }
{
    let spot = spot(reader)?;
    let names = point_names(reader)?;
    Ok(PointRef { names, spot })
}

#[tactic(auto, unfolding(crate::specs::Names::factor))]
fn factor(reader: &mut Reader) -> Result<List<Identifier>, ReadError>
    ensures { Gives result factor reader.old reader.new }
{
    reader.sign(b"*")?;
    names(reader)
}

#[tactic(auto, unfolding(crate::specs::Names::product))]
fn product(reader: &mut Reader, spot: Spot) -> Result<Term, ReadError>
    ensures { Gives result (product spot) reader.old reader.new }
{
    let names = names(reader)?;
    if reader.sign_at(0, b"*") {
        reader.parts::<Factors>()?;
        return Ok(Term::Product(spot));
    }
    Ok(Term::One(Ref {
        names,
        item: None,
        spot,
    }))
}

#[tactic(auto, unfolding(crate::specs::Names::set_term))]
fn set_term(reader: &mut Reader) -> Result<Term, ReadError>
    ensures { Gives result set_term reader.old reader.new }
{
    let spot = spot(reader)?;
    if reader.word_at(0, b"noerror") {
        reader.word(b"noerror")?;
        return Ok(Term::NoError(spot));
    }
    product(reader, spot)
}

#[tactic(auto, unfolding(crate::specs::Names::further_term))]
fn further_term(reader: &mut Reader) -> Result<Term, ReadError>
    ensures { Gives result further_term reader.old reader.new }
{
    reader.sign(b",")?;
    set_term(reader)
}

/// Reads a set of types.
#[tactic(auto, unfolding(crate::specs::Names::type_set))]
pub fn type_set(reader: &mut Reader) -> Result<TypeSet, ReadError>
    ensures { Gives result type_set reader.old reader.new }
{
    let spot = spot(reader)?;
    reader.sign(b"{")?;
    let first = set_term(reader)?;
    let terms = reader.parts_after::<FurtherTerms>(first)?;
    reader.sign(b"}")?;
    Ok(TypeSet { terms, spot })
}

/// Reads a set of types where a `{` stands.
#[tactic(auto, unfolding(crate::specs::Names::optional_set))]
pub fn optional_set(reader: &mut Reader) -> Result<Option<TypeSet>, ReadError>
    ensures { Gives result optional_set reader.old reader.new }
{
    if reader.sign_at(0, b"{") {
        return Ok(Some(type_set(reader)?));
    }
    Ok(None)
}

/// Reads a point, perhaps with a set of types.
#[tactic(auto, unfolding(crate::specs::Names::flow_end))]
pub fn flow_end(reader: &mut Reader) -> Result<FlowEnd, ReadError>
    ensures { Gives result flow_end reader.old reader.new }
{
    let point = point(reader)?;
    let set = optional_set(reader)?;
    Ok(FlowEnd { point, set })
}

/// Reads a state, perhaps with a set of types.
#[tactic(auto, unfolding(crate::specs::Names::state_reference))]
pub fn state_reference(reader: &mut Reader) -> Result<StateRef, ReadError>
    ensures { Gives result state_reference reader.old reader.new }
{
    let spot = spot(reader)?;
    let name = error_name(reader)?;
    let set = optional_set(reader)?;
    Ok(StateRef { name, spot, set })
}

/// Reads a name and a colon where both stand.
#[tactic(auto, unfolding(crate::specs::Names::label))]
pub fn label(reader: &mut Reader) -> Result<Option<Identifier>, ReadError>
    ensures { Gives result label reader.old reader.new }
{
    if name_at(reader, 0) && reader.sign_at(1, b":") {
        let name = error_name(reader)?;
        reader.sign(b":")?;
        return Ok(Some(name));
    }
    Ok(None)
}

// Names after the first of a reference.
pub(crate) struct FurtherNames;

impl Parts for FurtherNames {
    type Part = Identifier;

    ghost tests = { is_sign (codes "::") ∷ is_name ∷ [] };

    ghost rule = { further_name };

    fn begins(reader: &mut Reader) -> bool {
        reader.sign_at(0, b"::") && name_at(reader, 1)
    }

    fn part(reader: &mut Reader) -> Result<Identifier, ReadError> {
        further_name(reader)
    }

    ghost takes_tokens = { further_name-takes };
}

// References after the first.
pub(crate) struct FurtherReferences;

impl Parts for FurtherReferences {
    type Part = Ref;

    ghost tests = { is_sign (codes ",") ∷ [] };

    ghost rule = { further_reference };

    fn begins(reader: &mut Reader) -> bool {
        reader.sign_at(0, b",")
    }

    fn part(reader: &mut Reader) -> Result<Ref, ReadError> {
        further_reference(reader)
    }

    ghost takes_tokens = { further_reference-takes };
}

// Names after a dot.
pub(crate) struct DottedNames;

impl Parts for DottedNames {
    type Part = Identifier;

    ghost tests = { is_sign (codes ".") ∷ is_name ∷ [] };

    ghost rule = { dotted_name };

    fn begins(reader: &mut Reader) -> bool {
        reader.sign_at(0, b".") && name_at(reader, 1)
    }

    fn part(reader: &mut Reader) -> Result<Identifier, ReadError> {
        dotted_name(reader)
    }

    ghost takes_tokens = { dotted_name-takes };
}

// Further types of a product.
pub(crate) struct Factors;

impl Parts for Factors {
    type Part = List<Identifier>;

    ghost tests = { is_sign (codes "*") ∷ [] };

    ghost rule = { factor };

    fn begins(reader: &mut Reader) -> bool {
        reader.sign_at(0, b"*")
    }

    fn part(reader: &mut Reader) -> Result<List<Identifier>, ReadError> {
        factor(reader)
    }

    ghost takes_tokens = { factor-takes };
}

// Further terms of a set.
pub(crate) struct FurtherTerms;

impl Parts for FurtherTerms {
    type Part = Term;

    ghost tests = { is_sign (codes ",") ∷ [] };

    ghost rule = { further_term };

    fn begins(reader: &mut Reader) -> bool {
        reader.sign_at(0, b",")
    }

    fn part(reader: &mut Reader) -> Result<Term, ReadError> {
        further_term(reader)
    }

    ghost takes_tokens = { further_term-takes };
}
