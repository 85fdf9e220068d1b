ghost use Rattle.std.specs.Prelude.{◌≡◌, [], ◌∷◌, OnOk};
ghost use Rattle.grammar_rules.specs.inner.Reader.{Gives, given};
ghost use Rattle.grammar_rules.specs.Tokens.{is_one_of};
ghost use Rattle.aadl_parser.specs.Words.{unit_words, begins_declaration};
ghost use Rattle.aadl_parser.specs.Packages.{with_alias, named_alias_part, unnamed_alias_part, classifier_part, annex_part, with_part, group_part, other_declaration, declaration, declarations, package_part, package_properties, package_end, empty_package, package_body, package_unit, property_set_head, property_set, unit, file_units};
ghost use Rattle.aadl_parser.specs.inner.Takes.{declaration-takes, unit-takes};

use crate::aliases::{named_alias, unnamed_alias};
use crate::annexes::library_annex;
use crate::classifiers::{classifier, group_type, type_end};
use crate::names::{names, with_packages};
use crate::runs::past;
use crate::words::{core_name, declaration_at, name_at, unit_at};
use aadl_syntax::{Alias, Emv2Library, Identifier, PackageUnit, Unit};
use grammar_rules::{Gathered, Parts, ReadError, Reader, ToEnd, spot};
use plain_values::{List, Mem, Spot};
use std::alloc::Global;

fn with_alias(aliases: &mut List<Alias>, alias: Option<Alias>) -> Mem<()>
    ensures { OnOk result (aliases.new ≡ with_alias aliases.old alias) }
{
    if let Some(alias) = alias {
        aliases.push(alias)?;
    }
    Ok(())
}

#[tactic(auto, unfolding(crate::specs::Packages::named_alias_part))]
fn named_alias_part(reader: &mut Reader, whole: &mut PackageUnit) -> Result<(), ReadError>
    ensures { Gives (given result whole.new) (named_alias_part whole.old) reader.old reader.new }
{
    let alias = named_alias(reader)?;
    Ok(with_alias(&mut whole.aliases, alias)?)
}

#[tactic(auto, unfolding(crate::specs::Packages::unnamed_alias_part))]
fn unnamed_alias_part(reader: &mut Reader, whole: &mut PackageUnit) -> Result<(), ReadError>
    ensures { Gives (given result whole.new) (unnamed_alias_part whole.old) reader.old reader.new }
{
    let alias = unnamed_alias(reader)?;
    Ok(with_alias(&mut whole.aliases, alias)?)
}

#[tactic(auto, unfolding(crate::specs::Packages::classifier_part))]
fn classifier_part(reader: &mut Reader, whole: &mut PackageUnit) -> Result<(), ReadError>
    ensures { Gives (given result whole.new) (classifier_part whole.old) reader.old reader.new }
{
    let decl = classifier(reader)?;
    Ok(whole.decls.push(decl)?)
}

#[tactic(auto, unfolding(crate::specs::Packages::annex_part))]
fn annex_part(reader: &mut Reader, whole: &mut PackageUnit) -> Result<(), ReadError>
    ensures { Gives (given result whole.new) (annex_part whole.old) reader.old reader.new }
{
    library_annex(reader, &mut whole.library)
}

#[tactic(auto, unfolding(crate::specs::Packages::other_declaration, crate::specs::Packages::group_part))]
fn other_declaration(reader: &mut Reader, whole: &mut PackageUnit) -> Result<(), ReadError>
    ensures { Gives (given result whole.new) (other_declaration whole.old) reader.old reader.new }
{
    if reader.word_at(0, b"feature") {
        return group_type(reader);
    }
    if reader.word_at(0, b"annex") {
        return annex_part(reader, whole);
    }
    classifier_part(reader, whole)
}

#[tactic(auto, unfolding(crate::specs::Packages::declaration, crate::specs::Packages::with_part))]
fn declaration(reader: &mut Reader, whole: &mut PackageUnit) -> Result<(), ReadError>
    ensures { Gives (given result whole.new) (declaration whole.old) reader.old reader.new }
{
    if name_at(reader, 0) {
        return named_alias_part(reader, whole);
    }
    if reader.word_at(0, b"renames") {
        return unnamed_alias_part(reader, whole);
    }
    if reader.word_at(0, b"with") {
        return with_packages(reader);
    }
    other_declaration(reader, whole)
}

#[tactic(auto, unfolding(crate::specs::Packages::declarations))]
fn declarations(reader: &mut Reader, whole: &mut PackageUnit) -> Result<(), ReadError>
    ensures { Gives (given result whole.new) (declarations whole.old) reader.old reader.new }
{
    reader.gather::<PackageDeclarations>(whole)
}

#[tactic(auto, unfolding(crate::specs::Packages::package_part))]
fn package_part(reader: &mut Reader, name: &[u8], whole: &mut PackageUnit) -> Result<(), ReadError>
    ensures { Gives (given result whole.new) (package_part name.now whole.old) reader.old reader.new }
{
    if reader.word_at(0, name) {
        reader.word(name)?;
        return declarations(reader, whole);
    }
    Ok(())
}

#[tactic(auto, unfolding(crate::specs::Packages::package_properties))]
fn package_properties(reader: &mut Reader) -> Result<(), ReadError>
    ensures { Gives result package_properties reader.old reader.new }
{
    if reader.word_at(0, b"properties") {
        reader.word(b"properties")?;
        return past(reader);
    }
    Ok(())
}

#[tactic(auto, unfolding(crate::specs::Packages::package_end))]
fn package_end(reader: &mut Reader) -> Result<(), ReadError>
    ensures { Gives result package_end reader.old reader.new }
{
    reader.word(b"end")?;
    names(reader)?;
    reader.sign(b";")
}

fn empty_package(alloc: Global, name: List<Identifier>, spot: Spot) -> PackageUnit
    ensures { result ≡ empty_package name spot }
{
    PackageUnit {
        name,
        spot,
        aliases: List::new(alloc),
        decls: List::new(alloc),
        library: Emv2Library {
            blocks: List::new(alloc),
            machines: List::new(alloc),
        },
    }
}

#[tactic(auto, unfolding(crate::specs::Packages::package_body))]
fn package_body(reader: &mut Reader, mut whole: PackageUnit) -> Result<Unit, ReadError>
    ensures { Gives result (package_body whole) reader.old reader.new }
{
    package_part(reader, b"public", &mut whole)?;
    package_part(reader, b"private", &mut whole)?;
    package_properties(reader)?;
    package_end(reader)?;
    Ok(Unit::Package(whole))
}

#[tactic(auto, unfolding(crate::specs::Packages::package_unit))]
fn package_unit(reader: &mut Reader) -> Result<Unit, ReadError>
    ensures { Gives result package_unit reader.old reader.new }
{
    reader.word(b"package")?;
    let spot = spot(reader)?;
    let name = names(reader)?;
    let empty = empty_package(reader.alloc(), name, spot);
    package_body(reader, empty)
}

#[tactic(auto, unfolding(crate::specs::Packages::property_set_head))]
fn property_set_head(reader: &mut Reader) -> Result<(), ReadError>
    ensures { Gives result property_set_head reader.old reader.new }
{
    reader.word(b"property")?;
    reader.word(b"set")
}

#[tactic(auto, unfolding(crate::specs::Packages::property_set))]
fn property_set(reader: &mut Reader) -> Result<Unit, ReadError>
    ensures { Gives result property_set reader.old reader.new }
{
    property_set_head(reader)?;
    let spot = spot(reader)?;
    let name = core_name(reader)?;
    reader.word(b"is")?;
    reader.until::<ToEnd>()?;
    type_end(reader)?;
    Ok(Unit::PropertySet(name, spot))
}

#[tactic(auto, unfolding(crate::specs::Packages::unit))]
fn unit(reader: &mut Reader) -> Result<Unit, ReadError>
    ensures { Gives result unit reader.old reader.new }
{
    if reader.word_at(0, b"property") {
        return property_set(reader);
    }
    package_unit(reader)
}

/// Reads units, one or more, as long as the next tokens begin one.
#[tactic(auto, unfolding(crate::specs::Packages::file_units))]
pub(crate) fn file_units(reader: &mut Reader) -> Result<List<Unit>, ReadError>
    ensures { Gives result file_units reader.old reader.new }
{
    let first = unit(reader)?;
    reader.parts_after::<FileUnits>(first)
}

// The declarations of a package.
pub(crate) struct PackageDeclarations;

impl Gathered for PackageDeclarations {
    type Whole = PackageUnit;

    ghost tests = { begins_declaration ∷ [] };

    ghost rule = { declaration };

    fn begins(reader: &mut Reader) -> bool {
        declaration_at(reader)
    }

    fn part(reader: &mut Reader, whole: &mut PackageUnit) -> Result<(), ReadError> {
        declaration(reader, whole)
    }

    ghost takes_tokens = { declaration-takes };
}

// The units of a file after the first.
pub(crate) struct FileUnits;

impl Parts for FileUnits {
    type Part = Unit;

    ghost tests = { is_one_of unit_words ∷ [] };

    ghost rule = { unit };

    fn begins(reader: &mut Reader) -> bool {
        unit_at(reader)
    }

    fn part(reader: &mut Reader) -> Result<Unit, ReadError> {
        unit(reader)
    }

    ghost takes_tokens = { unit-takes };
}
