ghost use Rattle.std.specs.Prelude.{◌≡◌, ◌++◌, codes, flat_map, OnOk};
ghost use Rattle.std.specs.List.{AllByRecursion};
ghost use Rattle.aadl_syntax.specs.inner.Token.{IsIdentifier};
ghost use Rattle.error_libraries.specs.Printed.{printed};
ghost use Rattle.error_libraries.specs.inner.Printed.{AreIdentifiers};

use aadl_syntax::{Identifier, PackageUnit, TypeItem};
use plain_values::Mem;
use std::marker::Model;

/// The name of an error type by its own declaration. Contracts see the identifiers of the name of its library, which is that of
/// the package, and its own name.
#[derive(Drop)]
pub struct TypeName<'a> {
    library: &'a [Identifier],
    name: &'a Identifier,
}

impl<'a> Model for TypeName<'a> {
    ghost use Rattle.error_libraries.specs.Printed.{TypeName as Parts};

    ghost Value = { Parts };

    ghost view = { λ t. record { library = t.library.now; name = t.name.now } };
}

impl<'a> TypeName<'a> {
    /// The name of the type that an item of a package declares.
    pub(crate) fn of(unit: &'a PackageUnit, item: &'a TypeItem) -> TypeName<'a>
        ensures { result ≡ record { library = unit.now.name; name = item.now.name } }
    {
        TypeName {
            library: unit.name.items(),
            name: &item.name,
        }
    }

    /// Its own name.
    pub fn name(&self) -> &'a Identifier
        ensures { result.now ≡ self.now.name }
    {
        self.name
    }

    /// Adds it to a text as it prints: each identifier of its library with `::` behind it, and then its own name.
    pub fn print(&self, text: &mut Vec<u8>) -> Mem<()>
        ensures { OnOk result (text.new.items ≡ text.old.items ++ printed self.now) }
    {
        push_library(text, self.library)?;
        text.extend_from_slice(self.name.text())?;
        Ok(())
    }

    /// Its parts are identifiers.
    pub fn form(&self)
        ensures { AreIdentifiers self.now }
    {
        identifiers_form(self.library);
        let _ = self.name.text();
    }
}

/// Adds identifiers with `::` behind each.
fn push_library(text: &mut Vec<u8>, library: &[Identifier]) -> Mem<()>
    ensures { OnOk result (text.new.items ≡ text.old.items ++ flat_map (λ identifier. identifier ++ codes "::") library.now) }
{
    for identifier in library {
        push_identifier(text, identifier)?;
    }
    Ok(())
}

fn push_identifier(text: &mut Vec<u8>, identifier: &Identifier) -> Mem<()>
    ensures { OnOk result (text.new.items ≡ text.old.items ++ (identifier.now ++ codes "::")) }
{
    text.extend_from_slice(identifier.text())?;
    text.extend_from_slice(b"::")?;
    Ok(())
}

fn identifiers_form(identifiers: &[Identifier])
    ensures { AllByRecursion IsIdentifier identifiers.now }
{
    for identifier in identifiers {
        let _ = identifier.text();
    }
}
