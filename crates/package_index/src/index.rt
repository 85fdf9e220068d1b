ghost use Rattle.std.specs.Prelude.{◌≡◌, ◌<◌, ◌^◌, [], length, None, Some, option_copied, slice_get, IfOk, IfErr, IsSome, OnOk, flat_map};
ghost use Rattle.std.specs.HashMap.{get};
ghost use Rattle.plain_values.specs.Order.{IsClear};
ghost use Rattle.noted_refusals.specs.inner.Noted.{Tells, noting};
ghost use Rattle.plain_values.specs.declared.refusal.Place.TheVariants.{Words as InWords};
ghost use Rattle.package_index.specs.Duplicates.{IsDuplicate, duplicates, packages_again};
ghost use Rattle.plain_values.specs.inner.Stops.{StopsAtFirst};
ghost use Rattle.package_index.specs.Lookup.{aliased_in, classifier_in, declared_by, declared_in, declared_package, decl_of, look_classifier, look_in, look_package, package_alias, package_at, package_meant, package_of, packages_of, refused_at};
ghost use Rattle.plain_values.specs.Refusal.{place_of};
ghost use Rattle.package_index.specs.inner.Names.{names_of};
ghost use Rattle.package_index.specs.inner.Tables.{Gathered, Knows, has_words, same_words};

use crate::id::ClassifierId;
use crate::package::Package;
use crate::table::add;
use crate::words::{Words, text_of};
use aadl_syntax::{Decl, Identifier, PackageUnit, Ref, Unit};
use noted_refusals::Refusals;
use plain_values::{Answer, Code, List, Mem, Name, Place, Refusal, Root};
use std::alloc::Global;
use std::collections::HashMap;
use std::marker::Model;

/// The packages of all files by name. Contracts see them as a list, in the order of the files and of the text; a package
/// is named by its place in it.
#[derive(Drop)]
pub struct Index<'a> {
    packages: List<Package<'a>>,
    numbers: HashMap<Words<'a>, u32>,
}

impl<'a> Model for Index<'a> {
    ghost use Rattle.std.specs.Prelude.{List};
    ghost use Rattle.std.specs.Coded.{codes};
    ghost use Rattle.aadl_syntax.specs.contracts.error_model.Condition as condition;
    ghost use Rattle.aadl_syntax.specs.declared.core_model.PackageUnit.{PackageUnit};

    ghost Value = { List PackageUnit };

    ghost coded = { Prim.hlevel (codes, condition.the_row.coded) };

    ghost view = { λ i. i.packages };

    ghost use Rattle.std.specs.HashMap.{get};
    ghost use Rattle.package_index.specs.inner.Tables.{Knows, has_words, same_words};

    ghost invariant = { λ i. Knows has_words i.packages (get same_words i.numbers) };
}

impl<'a> Index<'a> {
    /// The index of the units of each file.
    ///
    /// N1 where a second package has a name, or a second classifier of a package has a name and an item: the first by
    /// place, at the later name. They are noted, in place of what was noted before.
    pub fn new(alloc: Global, files: &'a [List<Unit>], refusals: &mut Refusals) -> Answer<Index<'a>>
        ensures packages { IfOk result (λ index. index ≡ packages_of files.now) }
        ensures accepted { OnOk result (IsClear (IsDuplicate (packages_of files.now))) }
        ensures refused { IfErr result (StopsAtFirst (IsDuplicate (packages_of files.now))) }
        ensures told { IfErr result (Tells (duplicates (packages_of files.now)) refusals.new) }
    {
        refusals.clear();
        let packages = tables_of(alloc, files, refusals)?;
        let numbers = numbers_of(alloc, packages.items(), refusals)?;
        refusals.settle()?;
        Ok(Index { packages, numbers })
    }

    /// The package that a package name means where it stands in a package.
    pub fn find_package(&self, from: u32, name: Words) -> Option<u32>
        ensures { result ≡ look_package self.now (Some from) (names_of name.entry) }
    {
        self.look_package(Some(from), name)
    }

    /// The classifier that a reference means where it stands in a package.
    ///
    /// N2 where its package is not found, N3 where the classifier is not, both at the reference.
    pub fn find_classifier(&self, from: u32, reference: &Ref) -> Result<ClassifierId, Refusal>
        ensures found { result ≡ refused_at (place_of reference.now.spot) (look_classifier self.now (Some from) reference.now.names reference.now.item) }
        ensures declared { IfOk result (λ id. IsSome (decl_of self.now id)) }
    {
        let names = Words::Identifiers(reference.names.items());
        let found = self.look_classifier(Some(from), names, text_of(&reference.item));
        refused_at(reference.spot.place(), found)
    }

    /// The classifier that the words of a command name. No package alias counts for it.
    ///
    /// N2 where its package is not found, N3 where the classifier is not, both at the words.
    pub fn root(&self, root: &Root) -> Result<ClassifierId, Refusal>
        ensures found { result ≡ refused_at InWords (look_classifier self.now None root.now.names root.now.item) }
        ensures declared { IfOk result (λ id. IsSome (decl_of self.now id)) }
    {
        let names = Words::Names(root.names.items());
        let found = self.look_classifier(None, names, bytes_of(&root.item));
        refused_at(Place::Words, found)
    }

    /// The declaration of a classifier.
    pub fn decl(&self, id: ClassifierId) -> Option<&'a Decl>
        ensures { option_copied result ≡ decl_of self.now id }
    {
        self.package(id.package)?
            .decls
            .items()
            .get(id.decl as usize)
    }

    /// The package of a number.
    pub fn package(&self, number: u32) -> Option<&'a PackageUnit>
        ensures { option_copied result ≡ slice_get self.now number }
    {
        Some(self.at(number)?.unit())
    }

    /// The packages, in order.
    pub fn packages(&self) -> &[Package<'a>]
        ensures packages { result.now ≡ self.now }
        ensures few { length self.now < 2 ^ 32 }
    {
        self.packages.items()
    }

    fn at(&self, number: u32) -> Option<&Package<'a>>
        ensures { option_copied result ≡ slice_get self.now number }
    {
        self.packages.items().get(number as usize)
    }

    fn declared_package(&self, name: Words) -> Option<u32>
        ensures { result ≡ declared_package self.now (names_of name.entry) }
    {
        self.numbers.get(&name).copied()
    }

    fn package_alias(&self, from: Option<u32>, name: Words) -> Option<&'a [Identifier]>
        ensures { option_copied result ≡ package_alias (package_at self.now from) (names_of name.entry) }
    {
        self.at(from?)?.alias(true, name.one()?)
    }

    fn look_package(&self, from: Option<u32>, name: Words) -> Option<u32>
        ensures { result ≡ look_package self.now from (names_of name.entry) }
    {
        match self.package_alias(from, name) {
            Some(names) => self.declared_package(Words::Identifiers(names)),
            None => self.declared_package(name),
        }
    }

    fn package_meant(&self, from: Option<u32>, names: Words) -> Option<u32>
        ensures { result ≡ package_meant self.now from (names_of names.entry) }
    {
        if names.len() == 0 {
            return from;
        }
        self.look_package(from, names)
    }

    fn declared_in(&self, number: u32, name: &[u8], item: Option<&[u8]>) -> Option<ClassifierId>
        ensures { result ≡ declared_in self.now number name.now (option_copied item.entry) }
    {
        let decl = self.at(number)?.classifier(name, item)?;
        Some(ClassifierId {
            package: number,
            decl,
        })
    }

    fn declared_by(
        &self,
        from: Option<u32>,
        names: Words,
        item: Option<&[u8]>,
    ) -> Option<ClassifierId>
        ensures { result ≡ declared_by self.now from (names_of names.entry) (option_copied item.entry) }
    {
        let number = self.package_meant(from, names.front())?;
        self.declared_in(number, names.last()?, item)
    }

    fn aliased_in(&self, number: u32, name: &[u8], item: Option<&[u8]>) -> Option<ClassifierId>
        ensures { result ≡ aliased_in self.now number name.now (option_copied item.entry) }
    {
        let names = self.at(number)?.alias(false, name)?;
        self.declared_by(Some(number), Words::Identifiers(names), item)
    }

    fn classifier_in(&self, number: u32, name: &[u8], item: Option<&[u8]>) -> Option<ClassifierId>
        ensures { result ≡ classifier_in self.now number name.now (option_copied item.entry) }
    {
        match self.declared_in(number, name, item) {
            Some(id) => Some(id),
            None => self.aliased_in(number, name, item),
        }
    }

    fn last_in(&self, number: u32, names: Words, item: Option<&[u8]>) -> Result<ClassifierId, Code>
        ensures { result ≡ look_in self.now (Some number) (names_of names.entry) (option_copied item.entry) }
    {
        let Some(name) = names.last() else {
            return Err(Code::UnknownClassifier);
        };
        match self.classifier_in(number, name, item) {
            Some(id) => Ok(id),
            None => Err(Code::UnknownClassifier),
        }
    }

    fn look_classifier(
        &self,
        from: Option<u32>,
        names: Words,
        item: Option<&[u8]>,
    ) -> Result<ClassifierId, Code>
        ensures { result ≡ look_classifier self.now from (names_of names.entry) (option_copied item.entry) }
    {
        match self.package_meant(from, names.front()) {
            Some(number) => self.last_in(number, names, item),
            None => Err(Code::UnknownPackage),
        }
    }
}

fn refused_at(place: Place, found: Result<ClassifierId, Code>) -> Result<ClassifierId, Refusal>
    ensures { result ≡ refused_at place found }
{
    match found {
        Ok(id) => Ok(id),
        Err(code) => Err(Refusal::new(code, place)),
    }
}

fn bytes_of(item: &Option<Name>) -> Option<&[u8]>
    ensures { option_copied result ≡ item.now }
{
    match item {
        Some(item) => Some(item.items()),
        None => None,
    }
}

/// The tables of all packages. Their classifiers that were declared before are noted.
fn tables_of<'a>(
    alloc: Global,
    files: &'a [List<Unit>],
    refusals: &mut Refusals,
) -> Mem<List<Package<'a>>>
    ensures { IfOk result (λ packages. Gathered [] packages refusals.old refusals.new (packages_of files.now)) }
{
    let mut packages = List::new(alloc);
    for file in files {
        add_file(alloc, &mut packages, file.items(), refusals)?;
    }
    Ok(packages)
}

fn add_file<'a>(
    alloc: Global,
    packages: &mut List<Package<'a>>,
    units: &'a [Unit],
    refusals: &mut Refusals,
) -> Mem<()>
    ensures { OnOk result (Gathered packages.old packages.new refusals.old refusals.new (flat_map package_of units.now)) }
{
    for unit in units {
        add_unit(alloc, packages, unit, refusals)?;
    }
    Ok(())
}

fn add_unit<'a>(
    alloc: Global,
    packages: &mut List<Package<'a>>,
    unit: &'a Unit,
    refusals: &mut Refusals,
) -> Mem<()>
    ensures { OnOk result (Gathered packages.old packages.new refusals.old refusals.new (package_of unit.now)) }
{
    if let Unit::Package(unit) = unit {
        let tables = Package::of(alloc, unit, refusals)?;
        packages.push(tables)?;
    }
    Ok(())
}

/// The numbers of the packages by name. Those whose name an earlier one has are noted.
fn numbers_of<'a>(
    alloc: Global,
    packages: &[Package<'a>],
    refusals: &mut Refusals,
) -> Mem<HashMap<Words<'a>, u32>>
    requires { length packages.now < 2 ^ 32 }
    ensures table { IfOk result (λ table. Knows has_words packages.now (get same_words table)) }
    ensures noted { OnOk result (refusals.new ≡ noting refusals.old (packages_again packages.now)) }
{
    let mut table = HashMap::new(alloc);
    for (number, package) in packages.iter().enumerate() {
        let unit = package.unit();
        let is_new = add(
            &mut table,
            Words::Identifiers(unit.name.items()),
            number as u32,
        )?;
        refusals.note_if(!is_new, Code::DuplicateUnit, unit.spot);
    }
    Ok(table)
}
