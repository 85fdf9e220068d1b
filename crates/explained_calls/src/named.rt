//! The name at a byte of a text, and the names of packages and classifiers that are nearest to it.

ghost use Rattle.std.specs.Prelude.{◌≡◌, ◌==◌, ◌++◌, ◌∷◌, ◌-◌, [], IfOk, OnOk, drop, length, map, not, take};
ghost use Rattle.std.specs.List.{before_last, flat_map, suffix_len, take_while};
ghost use Rattle.package_index.specs.Lookup.{package_of};
ghost use Rattle.page_tokens.specs.Keys.{joined};
ghost use Rattle.fta_words.specs.inner.Shown.{request_shown};
ghost use Rattle.fta_run.specs.inner.Read.{units_read};
ghost use Rattle.explained_calls.specs.inner.Texts.{IsNearAt, IsToldOf, is_name_byte, is_packaged, name_at, near_classifiers, near_either, near_others, near_packages, package_names, package_part, texts_for};

use crate::near::{classifiers_in, model_texts, near_among, push_names, slices_of};
use crate::unplaced::has_sign;
use aadl_lexer::is_letter_or_digit;
use aadl_syntax::{PackageUnit, Unit};
use fta_run::{Status, units_read};
use fta_words::{Request, is_among};
use plain_values::{Code, List, Mem, Name, fold};
use std::alloc::{AllocError, Global};

/// The lines of the names that are nearest to the name in the file of a number of which a refusal is.
pub(crate) fn near_name(
    alloc: Global,
    asked: &Request,
    texts: &[Name],
    code: Code,
    file: u32,
    name: &[u8],
) -> Mem<Vec<u8>>
    ensures { IfOk result (λ near. IsNearAt (request_shown asked.now) texts.now code file name.now near.items) }
{
    match code {
        Code::UnknownPackage => near_package(alloc, model_texts(asked, texts), name),
        Code::UnknownClassifier => {
            near_classifier(alloc, texts_for(asked, texts, file, name), name)
        }
        _ => Ok(Vec::new(alloc)),
    }
}

/// The name that stands at a byte of a text, in lower case.
pub(crate) fn name_at(alloc: Global, text: &[u8], at: u32) -> Mem<Name>
    ensures { IfOk result (λ name. name ≡ name_at text.now at) }
{
    fold(alloc, name_front(from_byte(text, at as usize)))
}

/// A text from a byte on.
fn from_byte(text: &[u8], at: usize) -> &[u8]
    ensures { result.now ≡ drop at text.now }
{
    if at < text.len() { &text[at..] } else { &[] }
}

/// The name with which a text begins.
fn name_front(text: &[u8]) -> &[u8]
    ensures { result.now ≡ take_while is_name_byte text.now }
{
    let mut count: usize = 0;
    while count < text.len() && is_name_byte(text[count]) {
        count += 1;
    }
    &text[..count]
}

/// Whether a byte may stand in a name that has a package before it and an item behind it.
fn is_name_byte(byte: u8) -> bool
    ensures { result ≡ is_name_byte byte }
{
    is_letter_or_digit(byte) || byte == b'_' || byte == b':' || byte == b'.'
}

/// Whether a name has a package before it.
fn is_packaged(name: &[u8]) -> bool
    ensures { result ≡ is_packaged name.now }
{
    has_sign(b':', name)
}

/// What stands before the last `::` of a name.
fn package_part(name: &[u8]) -> &[u8]
    ensures { result.now ≡ package_part name.now }
{
    match before_colon(name) {
        [front @ .., last] if *last == b':' => front,
        front => front,
    }
}

/// What stands before the last `:` of a name.
fn before_colon(name: &[u8]) -> &[u8]
    ensures { result.now ≡ before_last (λ byte. byte == 58) name.now }
{
    let behind = behind_colon(name);
    &name[..behind.saturating_sub(1)]
}

/// Where what stands behind the last `:` of a name begins.
fn behind_colon(name: &[u8]) -> usize
    ensures { result ≡ length name.now - suffix_len (λ byte. not (byte == 58)) name.now }
{
    let mut begin: usize = 0;
    for (number, byte) in name.iter().enumerate() {
        if *byte == b':' {
            begin = number + 1;
        }
    }
    begin
}

/// The texts in which a classifier of a name is looked for that stands in the file of a number.
fn texts_for<'t>(asked: &Request, texts: &'t [Name], file: u32, name: &[u8]) -> &'t [Name]
    ensures { result.now ≡ texts_for (request_shown asked.now) texts.now file name.now }
{
    if is_packaged(name) {
        return model_texts(asked, texts);
    }
    one_of(texts, file as usize)
}

/// The text of a number, as a list.
fn one_of(texts: &[Name], number: usize) -> &[Name]
    ensures { result.now ≡ take 1 (drop number texts.now) }
{
    if number < texts.len() {
        &texts[number..number + 1]
    } else {
        &[]
    }
}

/// The lines of the packages in some texts that are nearest to a name.
fn near_package(alloc: Global, texts: &[Name], name: &[u8]) -> Mem<Vec<u8>>
    ensures { IfOk result (λ near. IsToldOf (units_read texts.now) (near_packages name.now) near.items) }
{
    match units_read(alloc, texts) {
        Ok(files) => near_packages(alloc, name, files.items()),
        Err(Status::Memory) => Err(AllocError),
        Err(_) => Ok(Vec::new(alloc)),
    }
}

/// The lines of the classifiers in some texts that are nearest to a name.
fn near_classifier(alloc: Global, texts: &[Name], name: &[u8]) -> Mem<Vec<u8>>
    ensures { IfOk result (λ near. IsToldOf (units_read texts.now) (near_classifiers name.now) near.items) }
{
    match units_read(alloc, texts) {
        Ok(files) => near_classifiers(alloc, name, files.items()),
        Err(Status::Memory) => Err(AllocError),
        Err(_) => Ok(Vec::new(alloc)),
    }
}

/// The lines of the packages of some files that are nearest to a name, or else to what stands before its last `::`.
fn near_packages(alloc: Global, name: &[u8], files: &[List<Unit>]) -> Mem<Vec<u8>>
    ensures { IfOk result (λ near. near.items ≡ near_packages name.now files.now) }
{
    let names = package_names(alloc, files)?;
    let slices = slices_of(alloc, names.items())?;
    near_either(alloc, name, slices.as_slice())
}

/// The lines of those of some names that are nearest to a name, or else to what stands before its last `::`.
fn near_either(alloc: Global, name: &[u8], names: &[&[u8]]) -> Mem<Vec<u8>>
    ensures { IfOk result (λ near. near.items ≡ near_either name.now (map (λ name. name.now) names.now)) }
{
    let near = near_among(alloc, name, names)?;
    if near.as_slice().is_empty() {
        return near_among(alloc, package_part(name), names);
    }
    Ok(near)
}

/// The lines of the classifiers of some files that are nearest to a name.
fn near_classifiers(alloc: Global, name: &[u8], files: &[List<Unit>]) -> Mem<Vec<u8>>
    ensures { IfOk result (λ near. near.items ≡ near_classifiers name.now files.now) }
{
    let names = classifiers_in(alloc, is_packaged(name), files)?;
    let slices = slices_of(alloc, names.items())?;
    near_others(alloc, name, slices.as_slice())
}

/// The lines of the nearest of some names, where none of them is this one.
fn near_others(alloc: Global, name: &[u8], names: &[&[u8]]) -> Mem<Vec<u8>>
    ensures { IfOk result (λ near. near.items ≡ near_others name.now (map (λ name. name.now) names.now)) }
{
    if is_among(names, name) {
        return Ok(Vec::new(alloc));
    }
    near_among(alloc, name, names)
}

/// The names of the packages of some files.
fn package_names(alloc: Global, files: &[List<Unit>]) -> Mem<List<Name>>
    ensures { IfOk result (λ names. names ≡ package_names files.now) }
{
    let mut names = List::new(alloc);
    for units in files {
        add_packages(alloc, &mut names, units.items())?;
    }
    Ok(names)
}

/// Adds the names of the packages among some units.
fn add_packages(alloc: Global, names: &mut List<Name>, units: &[Unit]) -> Mem<()>
    ensures { OnOk result (names.new ≡ names.old ++ map (λ unit. joined unit.name) (flat_map package_of units.now)) }
{
    for unit in units {
        add_package(alloc, names, unit)?;
    }
    Ok(())
}

/// Adds the name of a package, where a unit is one.
fn add_package(alloc: Global, names: &mut List<Name>, unit: &Unit) -> Mem<()>
    ensures { OnOk result (names.new ≡ names.old ++ map (λ unit. joined unit.name) (package_of unit.now)) }
{
    match unit {
        Unit::Package(holder) => add_joined(alloc, names, holder),
        Unit::PropertySet(_, _) => Ok(()),
    }
}

/// Adds the name of a package.
fn add_joined(alloc: Global, names: &mut List<Name>, holder: &PackageUnit) -> Mem<()>
    ensures { OnOk result (names.new ≡ names.old ++ (joined holder.now.name ∷ [])) }
{
    let mut text = Vec::new(alloc);
    push_names(&mut text, holder.name.items())?;
    names.push(List::of(text)?)?;
    Ok(())
}
