//! The implementations of a root that is a component type.

ghost use Rattle.std.specs.Prelude.{◌≡◌, ◌++◌, IfOk, OnOk, codes, flat_map};
ghost use Rattle.unread_parts.specs.Root.{implementation_name, implementation_with, implementations_at, implementations_in, implementations_of, implementing, root_implementations};

use aadl_syntax::{Decl, Identifier, PackageUnit};
use instantiator::Instance;
use package_index::{ClassifierId, Index};
use plain_values::{List, Mem, Name, Spot, copied, is_same};
use std::alloc::Global;

/// An implementation: its name, `p::s.i`, and where it stands.
#[derive(Drop)]
pub struct Implementation {
    pub name: Name,
    pub spot: Spot,
}

impl Implementation {
    /// The same once more.
    pub fn again(&self, alloc: Global) -> Mem<Implementation>
        ensures { IfOk result (λ one. one ≡ self.now) }
    {
        Ok(Implementation {
            name: copied(alloc, self.name.items())?,
            spot: self.spot,
        })
    }
}

/// The implementations of the root, where it is a component type, in the order of its package.
pub fn root_implementations(alloc: Global, instance: &Instance) -> Mem<List<Implementation>>
    ensures { IfOk result (λ found. found ≡ root_implementations instance.now) }
{
    match instance.classifier(0) {
        Some(id) => implementations_at(alloc, instance.index(), id),
        None => Ok(List::new(alloc)),
    }
}

/// The implementations of a classifier.
fn implementations_at(alloc: Global, index: &Index, id: ClassifierId) -> Mem<List<Implementation>>
    ensures { IfOk result (λ found. found ≡ implementations_at index.now id) }
{
    match index.decl(id) {
        Some(decl) => implementations_of(alloc, index, id.package, decl),
        None => Ok(List::new(alloc)),
    }
}

fn implementations_of(
    alloc: Global,
    index: &Index,
    number: u32,
    decl: &Decl,
) -> Mem<List<Implementation>>
    ensures { IfOk result (λ found. found ≡ implementations_of index.now number decl.now) }
{
    match index.package(number) {
        Some(unit) => implementations_in(alloc, unit, decl),
        None => Ok(List::new(alloc)),
    }
}

/// Those of a classifier of a package; an implementation has none.
fn implementations_in(alloc: Global, unit: &PackageUnit, decl: &Decl) -> Mem<List<Implementation>>
    ensures { IfOk result (λ found. found ≡ implementations_in unit.now decl.now.name decl.now.item) }
{
    match decl.item {
        Some(_) => Ok(List::new(alloc)),
        None => implementing(alloc, unit, decl.name.text(), unit.decls.items()),
    }
}

/// The implementations among classifiers of a package of the type of a name.
fn implementing(
    alloc: Global,
    unit: &PackageUnit,
    name: &[u8],
    decls: &[Decl],
) -> Mem<List<Implementation>>
    ensures { IfOk result (λ found. found ≡ flat_map (implementing unit.now name.now) decls.now) }
{
    let mut found = List::new(alloc);
    for decl in decls {
        add_implementing(&mut found, alloc, unit, name, decl)?;
    }
    Ok(found)
}

/// Adds a classifier of a package, if it is an implementation of the type of a name.
fn add_implementing(
    found: &mut List<Implementation>,
    alloc: Global,
    unit: &PackageUnit,
    name: &[u8],
    decl: &Decl,
) -> Mem<()>
    ensures { OnOk result (found.new ≡ found.old ++ implementing unit.now name.now decl.now) }
{
    if is_same(decl.name.text(), name) {
        return add_one(found, alloc, unit, decl);
    }
    Ok(())
}

/// Adds a classifier of a package, if it is an implementation.
fn add_one(
    found: &mut List<Implementation>,
    alloc: Global,
    unit: &PackageUnit,
    decl: &Decl,
) -> Mem<()>
    ensures { OnOk result (found.new ≡ found.old ++ implementation_with unit.now decl.now decl.now.item) }
{
    if let Some(item) = &decl.item {
        let name = implementation_name(alloc, unit, &decl.name, item)?;
        found.push(Implementation {
            name,
            spot: decl.spot,
        })?;
    }
    Ok(())
}

fn implementation_name(
    alloc: Global,
    unit: &PackageUnit,
    name: &Identifier,
    item: &Identifier,
) -> Mem<Name>
    ensures { IfOk result (λ text. text ≡ implementation_name unit.now name.now item.now) }
{
    let mut text = Vec::new(alloc);
    push_package(&mut text, unit.name.items())?;
    text.extend_from_slice(name.text())?;
    text.extend_from_slice(b".")?;
    text.extend_from_slice(item.text())?;
    List::of(text)
}

fn push_package(text: &mut Vec<u8>, names: &[Identifier]) -> Mem<()>
    ensures { OnOk result (text.new.items ≡ text.old.items ++ flat_map (λ part. part ++ codes "::") names.now) }
{
    for part in names {
        text.extend_from_slice(part.text())?;
        text.extend_from_slice(b"::")?;
    }
    Ok(())
}
