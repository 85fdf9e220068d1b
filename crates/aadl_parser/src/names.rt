ghost use Rattle.std.specs.Prelude.{◌≡◌, ◌<◌, [], ◌∷◌, codes, IfOk, MatchOption};
ghost use Rattle.grammar_rules.specs.inner.Reader.{Gives, given};
ghost use Rattle.grammar_rules.specs.Tokens.{is_sign};
ghost use Rattle.aadl_parser.specs.Words.{is_name};
ghost use Rattle.aadl_parser.specs.Names.{further_name, names_after, names, two_names, last_name, dotted_name, optional_item, reference, further_names, with_packages, optional_group, grouped_category, virtual_category, single_category, category};
ghost use Rattle.aadl_parser.specs.inner.Takes.{further_name-takes, further_names-takes, dotted_name-takes};

use crate::words::{
    category_word, core_name, group_at, group_word, grouped_at, grouped_word, name_at,
    platform_word, virtual_at, virtual_word,
};
use aadl_syntax::{Category, Identifier, Ref};
use grammar_rules::{Parts, ReadError, Reader, spot};
use plain_values::{List, Mem, Spot};
use std::alloc::Global;

/// The name of a classifier, where one is written, and the `(` of bindings of prototypes after it, where they stand.
#[derive(Drop)]
pub(crate) struct Classifier {
    pub(crate) reference: Option<Ref>,
    pub(crate) binds: Option<Spot>,
}

#[tactic(auto, unfolding(crate::specs::Names::further_name))]
fn further_name(reader: &mut Reader) -> Result<Identifier, ReadError>
    ensures { Gives result further_name reader.old reader.new }
{
    reader.sign(b"::")?;
    core_name(reader)
}

#[tactic(auto, unfolding(crate::specs::Names::names_after))]
fn names_after(reader: &mut Reader, names: &mut List<Identifier>) -> Result<(), ReadError>
    ensures { Gives (given result names.new) (names_after names.old) reader.old reader.new }
{
    reader.more_parts::<FurtherNames>(names)
}

/// Reads identifiers with `::` between them.
#[tactic(auto, unfolding(crate::specs::Names::names))]
pub(crate) fn names(reader: &mut Reader) -> Result<List<Identifier>, ReadError>
    ensures { Gives result names reader.old reader.new }
{
    let mut names = List::new(reader.alloc());
    names.push(core_name(reader)?)?;
    names_after(reader, &mut names)?;
    Ok(names)
}

/// Reads two identifiers or more with `::` between them.
#[tactic(auto, unfolding(crate::specs::Names::two_names))]
pub(crate) fn two_names(reader: &mut Reader) -> Result<List<Identifier>, ReadError>
    ensures { Gives result two_names reader.old reader.new }
{
    let mut names = List::new(reader.alloc());
    names.push(core_name(reader)?)?;
    names.push(further_name(reader)?)?;
    names_after(reader, &mut names)?;
    Ok(names)
}

/// A copy of the last of some names, where there is one.
pub(crate) fn last_name(alloc: Global, names: &[Identifier]) -> Mem<Option<Identifier>>
    ensures { IfOk result (λ last. MatchOption last (names.now ≡ []) (λ name. name ≡ last_name names.now)) }
{
    match names {
        [.., last] => Ok(Some(Identifier::of(alloc, last.text())?)),
        [] => Ok(None),
    }
}

/// Reads an identifier after a dot.
#[tactic(auto, unfolding(crate::specs::Names::dotted_name))]
pub(crate) fn dotted_name(reader: &mut Reader) -> Result<Identifier, ReadError>
    ensures { Gives result dotted_name reader.old reader.new }
{
    reader.sign(b".")?;
    core_name(reader)
}

#[tactic(auto, unfolding(crate::specs::Names::optional_item))]
fn optional_item(reader: &mut Reader) -> Result<Option<Identifier>, ReadError>
    ensures { Gives result optional_item reader.old reader.new }
{
    if reader.sign_at(0, b".") {
        return Ok(Some(dotted_name(reader)?));
    }
    Ok(None)
}

/// Reads a reference: names, and perhaps an item after a dot.
#[tactic(auto, unfolding(crate::specs::Names::reference))]
pub(crate) fn reference(reader: &mut Reader) -> Result<Ref, ReadError>
    ensures { Gives result reference reader.old reader.new }
{
    let spot = spot(reader)?;
    let names = names(reader)?;
    let item = optional_item(reader)?;
    Ok(Ref { names, item, spot })
}

#[tactic(auto, unfolding(crate::specs::Names::further_names))]
fn further_names(reader: &mut Reader) -> Result<List<Identifier>, ReadError>
    ensures { Gives result further_names reader.old reader.new }
{
    reader.sign(b",")?;
    names(reader)
}

/// Reads a `with` clause.
#[tactic(auto, unfolding(crate::specs::Names::with_packages))]
pub(crate) fn with_packages(reader: &mut Reader) -> Result<(), ReadError>
    ensures { Gives result with_packages reader.old reader.new }
{
    reader.word(b"with")?;
    names(reader)?;
    reader.parts::<FurtherPackages>()?;
    reader.sign(b";")
}

#[tactic(auto, unfolding(crate::specs::Names::optional_group))]
fn optional_group(reader: &mut Reader) -> Result<Option<Identifier>, ReadError>
    ensures { Gives result optional_group reader.old reader.new }
{
    if group_at(reader) {
        return Ok(Some(group_word(reader)?));
    }
    Ok(None)
}

#[tactic(auto, unfolding(crate::specs::Names::grouped_category))]
fn grouped_category(reader: &mut Reader) -> Result<Category, ReadError>
    ensures { Gives result grouped_category reader.old reader.new }
{
    let word = grouped_word(reader)?;
    let second = optional_group(reader)?;
    Ok(Category { word, second })
}

#[tactic(auto, unfolding(crate::specs::Names::virtual_category))]
fn virtual_category(reader: &mut Reader) -> Result<Category, ReadError>
    ensures { Gives result virtual_category reader.old reader.new }
{
    let word = virtual_word(reader)?;
    let second = platform_word(reader)?;
    Ok(Category {
        word,
        second: Some(second),
    })
}

#[tactic(auto, unfolding(crate::specs::Names::single_category))]
fn single_category(reader: &mut Reader) -> Result<Category, ReadError>
    ensures { Gives result single_category reader.old reader.new }
{
    let word = category_word(reader)?;
    Ok(Category { word, second: None })
}

/// Reads the category of a component.
#[tactic(auto, unfolding(crate::specs::Names::category))]
pub(crate) fn category(reader: &mut Reader) -> Result<Category, ReadError>
    ensures { Gives result category reader.old reader.new }
{
    if grouped_at(reader) {
        return grouped_category(reader);
    }
    if virtual_at(reader) {
        return virtual_category(reader);
    }
    single_category(reader)
}

// Names after the first.
pub(crate) struct FurtherNames;

impl Parts for FurtherNames {
    type Part = Identifier;

    ghost tests = { is_sign (codes "::") ∷ is_name ∷ [] };

    ghost rule = { further_name };

    fn begins(reader: &mut Reader) -> bool {
        reader.sign_at(0, b"::") && name_at(reader, 1)
    }

    fn part(reader: &mut Reader) -> Result<Identifier, ReadError> {
        further_name(reader)
    }

    ghost takes_tokens = { further_name-takes };
}

// Packages of a `with` clause after the first.
pub(crate) struct FurtherPackages;

impl Parts for FurtherPackages {
    type Part = List<Identifier>;

    ghost tests = { is_sign (codes ",") ∷ [] };

    ghost rule = { further_names };

    fn begins(reader: &mut Reader) -> bool {
        reader.sign_at(0, b",")
    }

    fn part(reader: &mut Reader) -> Result<List<Identifier>, ReadError> {
        further_names(reader)
    }

    ghost takes_tokens = { further_names-takes };
}

// Names after a dot.
pub(crate) struct DottedNames;

impl Parts for DottedNames {
    type Part = Identifier;

    ghost tests = { is_sign (codes ".") ∷ is_name ∷ [] };

    ghost rule = { dotted_name };

    fn begins(reader: &mut Reader) -> bool {
        reader.sign_at(0, b".") && name_at(reader, 1)
    }

    fn part(reader: &mut Reader) -> Result<Identifier, ReadError> {
        dotted_name(reader)
    }

    ghost takes_tokens = { dotted_name-takes };
}
