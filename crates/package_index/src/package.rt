ghost use Rattle.std.specs.Prelude.{◌≡◌, ◌<◌, ◌^◌, length, IfOk, OnOk, option_copied, option_map, position, slice_get};
ghost use Rattle.std.specs.HashMap.{get};
ghost use Rattle.noted_refusals.specs.inner.Noted.{noting};
ghost use Rattle.package_index.specs.Duplicates.{classifiers_again};
ghost use Rattle.package_index.specs.Lookup.{alias_in, declared, is_alias};
ghost use Rattle.package_index.specs.inner.Tables.{Knows, has_alias, has_key, same_alias_key, same_key};

use crate::table::add;
use crate::words::text_of;
use aadl_syntax::{Alias, Decl, Identifier, PackageUnit};
use noted_refusals::Refusals;
use plain_values::{Code, Mem};
use std::alloc::Global;
use std::collections::HashMap;
use std::marker::Model;

/// A package with tables of its names. Contracts see the package.
#[derive(Drop)]
pub struct Package<'a> {
    unit: &'a PackageUnit,
    classifiers: HashMap<(&'a [u8], Option<&'a [u8]>), u32>,
    aliases: HashMap<(bool, &'a [u8]), u32>,
}

impl<'a> Model for Package<'a> {
    ghost use Rattle.aadl_syntax.specs.declared.core_model.PackageUnit.{PackageUnit};
    ghost use Rattle.std.specs.Coded.{codes};
    ghost use Rattle.aadl_syntax.specs.contracts.error_model.Condition as condition;

    ghost Value = { PackageUnit };

    ghost coded = { Prim.hlevel (codes, condition.the_row.coded) };

    ghost view = { λ p. p.unit.now };

    ghost use Rattle.std.specs.HashMap.{get};
    ghost use Rattle.package_index.specs.inner.Tables.{Knows, has_alias, has_key, same_alias_key, same_key};

    ghost invariant = { λ p. Knows has_key p.unit.now.decls (get same_key p.classifiers)
        × Knows has_alias p.unit.now.aliases (get same_alias_key p.aliases) };
}

impl<'a> Package<'a> {
    /// The tables of a package. Its classifiers that were declared before are noted.
    pub(crate) fn of(
        alloc: Global,
        unit: &'a PackageUnit,
        refusals: &mut Refusals,
    ) -> Mem<Package<'a>>
        ensures unit { IfOk result (λ made. made ≡ unit.now) }
        ensures noted { OnOk result (refusals.new ≡ noting refusals.old (classifiers_again unit.now.decls)) }
    {
        let classifiers = classifiers_of(alloc, unit.decls.items(), refusals)?;
        let aliases = aliases_of(alloc, unit.aliases.items())?;
        Ok(Package {
            unit,
            classifiers,
            aliases,
        })
    }

    /// The package itself.
    pub fn unit(&self) -> &'a PackageUnit
        ensures { result.now ≡ self.now }
    {
        self.unit
    }

    /// The place of the classifier of a name and an item.
    pub(crate) fn classifier(&self, name: &[u8], item: Option<&[u8]>) -> Option<u32>
        ensures { result ≡ declared self.now name.now (option_copied item.entry) }
    {
        self.classifiers.get(&(name, item)).copied()
    }

    /// The names for which an alias stands, of a package or of a classifier.
    pub(crate) fn alias(&self, of_package: bool, name: &[u8]) -> Option<&'a [Identifier]>
        ensures { option_copied result ≡ alias_in of_package self.now name.now }
    {
        match self.alias_place(of_package, name) {
            Some(place) => self.alias_names(place),
            None => None,
        }
    }

    fn alias_place(&self, of_package: bool, name: &[u8]) -> Option<u32>
        ensures { result ≡ position (is_alias of_package name.now) self.now.aliases }
    {
        self.aliases.get(&(of_package, name)).copied()
    }

    fn alias_names(&self, place: u32) -> Option<&'a [Identifier]>
        ensures { option_copied result ≡ option_map (λ a. a.names) (slice_get self.now.aliases place) }
    {
        match self.unit.aliases.items().get(place as usize) {
            Some(alias) => Some(alias.names.items()),
            None => None,
        }
    }
}

/// The classifiers of a package by name and item. Those that were declared before are noted.
fn classifiers_of<'a>(
    alloc: Global,
    decls: &'a [Decl],
    refusals: &mut Refusals,
) -> Mem<HashMap<(&'a [u8], Option<&'a [u8]>), u32>>
    requires { length decls.now < 2 ^ 32 }
    ensures table { IfOk result (λ table. Knows has_key decls.now (get same_key table)) }
    ensures noted { OnOk result (refusals.new ≡ noting refusals.old (classifiers_again decls.now)) }
{
    let mut table = HashMap::new(alloc);
    for (number, decl) in decls.iter().enumerate() {
        let is_new = add(
            &mut table,
            (decl.name.text(), text_of(&decl.item)),
            number as u32,
        )?;
        refusals.note_if(!is_new, Code::DuplicateUnit, decl.spot);
    }
    Ok(table)
}

/// The aliases of a package by what they stand for and their names.
fn aliases_of<'a>(alloc: Global, aliases: &'a [Alias]) -> Mem<HashMap<(bool, &'a [u8]), u32>>
    requires { length aliases.now < 2 ^ 32 }
    ensures { IfOk result (λ table. Knows has_alias aliases.now (get same_alias_key table)) }
{
    let mut table = HashMap::new(alloc);
    for (number, alias) in aliases.iter().enumerate() {
        add(
            &mut table,
            (alias.package, alias.name.text()),
            number as u32,
        )?;
    }
    Ok(table)
}
