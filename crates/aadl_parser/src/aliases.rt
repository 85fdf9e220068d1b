ghost use Rattle.grammar_rules.specs.inner.Reader.{Gives};
ghost use Rattle.aadl_parser.specs.Aliases.{package_alias, group_alias, classifier_alias, alias_of, named_alias, renames_all, last_alias, renamed, unnamed_alias};

use crate::names::{category, last_name, names, two_names};
use crate::words::{core_name, name_at};
use aadl_syntax::{Alias, Identifier};
use grammar_rules::{ReadError, Reader, spot};
use plain_values::Spot;

#[tactic(auto, unfolding(crate::specs::Aliases::package_alias))]
fn package_alias(
    reader: &mut Reader,
    name: Identifier,
    spot: Spot,
) -> Result<Option<Alias>, ReadError>
    ensures { Gives result (package_alias name spot) reader.old reader.new }
{
    reader.word(b"package")?;
    let names = names(reader)?;
    Ok(Some(Alias {
        name,
        package: true,
        names,
        spot,
    }))
}

#[tactic(auto, unfolding(crate::specs::Aliases::group_alias))]
fn group_alias(reader: &mut Reader) -> Result<Option<Alias>, ReadError>
    ensures { Gives result group_alias reader.old reader.new }
{
    reader.word(b"feature")?;
    reader.word(b"group")?;
    names(reader)?;
    Ok(None)
}

#[tactic(auto, unfolding(crate::specs::Aliases::classifier_alias))]
fn classifier_alias(
    reader: &mut Reader,
    name: Identifier,
    spot: Spot,
) -> Result<Option<Alias>, ReadError>
    ensures { Gives result (classifier_alias name spot) reader.old reader.new }
{
    category(reader)?;
    let names = two_names(reader)?;
    Ok(Some(Alias {
        name,
        package: false,
        names,
        spot,
    }))
}

#[tactic(auto, unfolding(crate::specs::Aliases::alias_of))]
fn alias_of(reader: &mut Reader, name: Identifier, spot: Spot) -> Result<Option<Alias>, ReadError>
    ensures { Gives result (alias_of name spot) reader.old reader.new }
{
    if reader.word_at(0, b"package") {
        return package_alias(reader, name, spot);
    }
    if reader.word_at(0, b"feature") {
        return group_alias(reader);
    }
    classifier_alias(reader, name, spot)
}

/// Reads an alias that begins with its name.
#[tactic(auto, unfolding(crate::specs::Aliases::named_alias))]
pub(crate) fn named_alias(reader: &mut Reader) -> Result<Option<Alias>, ReadError>
    ensures { Gives result named_alias reader.old reader.new }
{
    let spot = spot(reader)?;
    let name = core_name(reader)?;
    reader.word(b"renames")?;
    let alias = alias_of(reader, name, spot)?;
    reader.sign(b";")?;
    Ok(alias)
}

#[tactic(auto, unfolding(crate::specs::Aliases::renames_all))]
fn renames_all(reader: &mut Reader) -> Result<Option<Alias>, ReadError>
    ensures { Gives result renames_all reader.old reader.new }
{
    names(reader)?;
    reader.sign(b"::")?;
    reader.word(b"all")?;
    Ok(None)
}

#[tactic(auto, unfolding(crate::specs::Aliases::last_alias))]
fn last_alias(reader: &mut Reader) -> Result<Option<Alias>, ReadError>
    ensures { Gives result last_alias reader.old reader.new }
{
    category(reader)?;
    let spot = spot(reader)?;
    let names = two_names(reader)?;
    let Some(name) = last_name(reader.alloc(), names.items())? else {
        return Err(ReadError::Refused);
    };
    Ok(Some(Alias {
        name,
        package: false,
        names,
        spot,
    }))
}

#[tactic(auto, unfolding(crate::specs::Aliases::renamed))]
fn renamed(reader: &mut Reader) -> Result<Option<Alias>, ReadError>
    ensures { Gives result renamed reader.old reader.new }
{
    if name_at(reader, 0) {
        return renames_all(reader);
    }
    if reader.word_at(0, b"feature") {
        return group_alias(reader);
    }
    last_alias(reader)
}

/// Reads an alias that begins with `renames`.
#[tactic(auto, unfolding(crate::specs::Aliases::unnamed_alias))]
pub(crate) fn unnamed_alias(reader: &mut Reader) -> Result<Option<Alias>, ReadError>
    ensures { Gives result unnamed_alias reader.old reader.new }
{
    reader.word(b"renames")?;
    let alias = renamed(reader)?;
    reader.sign(b";")?;
    Ok(alias)
}
