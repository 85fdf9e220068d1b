//! The nearest names to a word of a call.

ghost use Rattle.std.specs.Prelude.{◌≡◌, ◌++◌, ◌∷◌, [], IfOk, OnOk, codes, drop, get_or, map, slice_index_or, take, unwrap_or};
ghost use Rattle.std.specs.List.{flat_map};
ghost use Rattle.package_index.specs.Lookup.{package_of};
ghost use Rattle.page_tokens.specs.Keys.{dotted, joined};
ghost use Rattle.near_names.specs.inner.Near.{near_text};
ghost use Rattle.fta_words.specs.inner.Shown.{request_shown};
ghost use Rattle.fta_run.specs.Forms.{profile_of};
ghost use Rattle.fta_run.specs.inner.Read.{model_read, units_read};
ghost use Rattle.explained_calls.specs.inner.Texts.{IsNear, IsNearAt, IsNearOf, IsToldOf, classifier_name, classifier_names, model_texts, name_at, names_in, near_events, near_facts, near_roots, package_before, token_of};

use crate::named::{name_at, near_name};
use aadl_syntax::{Decl, Identifier, PackageUnit, Unit};
use fault_system::{EventInfo, FactInfo};
use fta_run::{Status, model_read, units_read};
use fta_words::{Kind, Options, Request};
use model_phases::FlatModel;
use near_names::push_near;
use plain_values::{Code, List, Mem, Name, Place, Refusal, Word, fold};
use std::alloc::{AllocError, Global};

/// The lines of the names that are nearest to what a refusal is about: a word of the call, or a name in a text; none where its place is a
/// whole file.
pub(crate) fn near_word(
    alloc: Global,
    call: &[Word],
    asked: &Request,
    texts: &[Name],
    refusal: &Refusal,
) -> Mem<Vec<u8>>
    ensures { IfOk result (λ near. IsNear call.now (request_shown asked.now) texts.now refusal.now.code refusal.now.place near.items) }
{
    match refusal.place {
        Place::Words => near_of(alloc, call, asked, texts, refusal.code),
        Place::Whole(_) => Ok(Vec::new(alloc)),
        Place::At { file, at } => near_at(alloc, asked, texts, refusal.code, file, at),
    }
}

/// The lines of the names that are nearest to the name at a byte of a file, where a refusal of this code is.
fn near_at(
    alloc: Global,
    asked: &Request,
    texts: &[Name],
    code: Code,
    file: u32,
    at: u32,
) -> Mem<Vec<u8>>
    ensures { IfOk result (λ near. IsNearAt (request_shown asked.now) texts.now code file (name_at (get_or texts.now file []) at) near.items) }
{
    let name = name_at(alloc, text_at(texts, file), at)?;
    near_name(alloc, asked, texts, code, file, name.items())
}

/// The text of a number.
pub(crate) fn text_at(texts: &[Name], number: u32) -> &[u8]
    ensures { result.now ≡ get_or texts.now number [] }
{
    match texts.get(number as usize) {
        Some(text) => text.items(),
        None => &[],
    }
}

/// The lines of the names that are nearest to the word of a call that a refusal of this code is about.
fn near_of(
    alloc: Global,
    call: &[Word],
    asked: &Request,
    texts: &[Name],
    code: Code,
) -> Mem<Vec<u8>>
    ensures { IfOk result (λ near. IsNearOf call.now (request_shown asked.now) texts.now code near.items) }
{
    let texts = model_texts(asked, texts);
    match code {
        Code::UnknownPackage => near_root(alloc, call, texts),
        Code::UnknownClassifier => near_root(alloc, call, texts),
        Code::UnknownTarget => near_target(alloc, asked, texts),
        Code::BadToken => near_token(alloc, asked, texts),
        _ => Ok(Vec::new(alloc)),
    }
}

/// The texts of the model, among those of the files.
pub(crate) fn model_texts<'t>(asked: &Request, texts: &'t [Name]) -> &'t [Name]
    ensures { result.now ≡ model_texts (request_shown asked.now) texts.now }
{
    match asked.kind {
        Kind::Confirm => others_of(texts),
        Kind::Require => others_of(texts),
        Kind::Compare => first_of(texts, asked.number as usize),
        _ => texts,
    }
}

/// The first texts, of which there are so many.
fn first_of(texts: &[Name], count: usize) -> &[Name]
    ensures { result.now ≡ take count texts.now }
{
    &texts[..count.min(texts.len())]
}

/// The texts but for the first.
fn others_of(texts: &[Name]) -> &[Name]
    ensures { result.now ≡ drop 1 texts.now }
{
    match texts.split_first() {
        Some((_, others)) => others,
        None => &[],
    }
}

/// The lines of the classifiers that are nearest to the root of a call.
fn near_root(alloc: Global, call: &[Word], texts: &[Name]) -> Mem<Vec<u8>>
    ensures { IfOk result (λ near. IsToldOf (units_read texts.now) (near_roots call.now) near.items) }
{
    match units_read(alloc, texts) {
        Ok(files) => near_roots(alloc, call, files.items()),
        Err(Status::Memory) => Err(AllocError),
        Err(_) => Ok(Vec::new(alloc)),
    }
}

/// The lines of the facts that are nearest to the target of a call.
fn near_target(alloc: Global, asked: &Request, texts: &[Name]) -> Mem<Vec<u8>>
    ensures { IfOk result (λ near. IsToldOf (model_read (profile_of asked.now.options.form) asked.now.root texts.now) (near_facts asked.now.target) near.items) }
{
    match model_read(alloc, &asked.options.form, &asked.root, texts) {
        Ok(model) => near_facts(alloc, asked.target.items(), &model),
        Err(Status::Memory) => Err(AllocError),
        Err(_) => Ok(Vec::new(alloc)),
    }
}

/// The lines of the events that are nearest to the text of a set.
fn near_token(alloc: Global, asked: &Request, texts: &[Name]) -> Mem<Vec<u8>>
    ensures { IfOk result (λ near. IsToldOf (model_read (profile_of asked.now.options.form) asked.now.root texts.now) (near_events (token_of asked.now.options)) near.items) }
{
    let token = token_of(alloc, &asked.options)?;
    match model_read(alloc, &asked.options.form, &asked.root, texts) {
        Ok(model) => near_events(alloc, token.as_slice(), &model),
        Err(Status::Memory) => Err(AllocError),
        Err(_) => Ok(Vec::new(alloc)),
    }
}

/// The text of a set among the options, or that behind which a page begins.
pub(crate) fn token_of(alloc: Global, options: &Options) -> Mem<Vec<u8>>
    ensures { IfOk result (λ text. text.items ≡ token_of options.now) }
{
    let mut text = Vec::from_slice(alloc, options.set.items())?;
    text.extend_from_slice(text_after(options))?;
    Ok(text)
}

/// The text behind which a page begins, if one is given.
fn text_after(options: &Options) -> &[u8]
    ensures { result.now ≡ unwrap_or options.now.paging.after [] }
{
    match &options.paging.after {
        Some(after) => after.items(),
        None => &[],
    }
}

/// The lines of the facts of a model that are nearest to a word.
fn near_facts(alloc: Global, word: &[u8], model: &FlatModel) -> Mem<Vec<u8>>
    ensures { IfOk result (λ near. near.items ≡ near_facts word.now model.now) }
{
    let names = fact_names(alloc, model.system.fact_infos())?;
    near_among(alloc, word, names.as_slice())
}

/// The lines of the events of a model that are nearest to a word.
fn near_events(alloc: Global, word: &[u8], model: &FlatModel) -> Mem<Vec<u8>>
    ensures { IfOk result (λ near. near.items ≡ near_events word.now model.now) }
{
    let names = event_names(alloc, model.system.event_infos())?;
    near_among(alloc, word, names.as_slice())
}

/// The lines of those of some names that are nearest to a word.
pub(crate) fn near_among(alloc: Global, word: &[u8], names: &[&[u8]]) -> Mem<Vec<u8>>
    ensures { IfOk result (λ near. near.items ≡ near_text [] word.now (map (λ name. name.now) names.now)) }
{
    let mut near = Vec::new(alloc);
    push_near(alloc, &mut near, b"", word, names)?;
    Ok(near)
}

/// The names of facts.
fn fact_names<'f>(alloc: Global, facts: &'f [FactInfo]) -> Mem<Vec<&'f [u8]>>
    ensures { IfOk result (λ names. map (λ name. name.now) names.items ≡ map (λ fact. fact.name) facts.now) }
{
    let mut names = Vec::new(alloc);
    for fact in facts {
        names.push(fact.name.items())?;
    }
    Ok(names)
}

/// The names of events.
fn event_names<'e>(alloc: Global, events: &'e [EventInfo]) -> Mem<Vec<&'e [u8]>>
    ensures { IfOk result (λ names. map (λ name. name.now) names.items ≡ map (λ event. event.name) events.now) }
{
    let mut names = Vec::new(alloc);
    for event in events {
        names.push(event.name.items())?;
    }
    Ok(names)
}

/// The lines of the classifiers in some files that are nearest to the root of a call.
fn near_roots(alloc: Global, call: &[Word], files: &[List<Unit>]) -> Mem<Vec<u8>>
    ensures { IfOk result (λ near. near.items ≡ near_roots call.now files.now) }
{
    let word = fold(alloc, word_at(call, 1))?;
    let names = classifiers_in(alloc, true, files)?;
    let slices = slices_of(alloc, names.items())?;
    near_among(alloc, word.items(), slices.as_slice())
}

/// The word of a call at a place.
pub(crate) fn word_at(call: &[Word], place: usize) -> &[u8]
    ensures { result.now ≡ slice_index_or call.now place [] }
{
    match call.get(place) {
        Some(word) => word.items(),
        None => &[],
    }
}

/// Some names as slices.
pub(crate) fn slices_of<'n>(alloc: Global, names: &'n [Name]) -> Mem<Vec<&'n [u8]>>
    ensures { IfOk result (λ slices. map (λ slice. slice.now) slices.items ≡ names.now) }
{
    let mut slices = Vec::new(alloc);
    for name in names {
        slices.push(name.items())?;
    }
    Ok(slices)
}

/// The names of the classifiers in some files, with their packages or without.
pub(crate) fn classifiers_in(alloc: Global, packaged: bool, files: &[List<Unit>]) -> Mem<List<Name>>
    ensures { IfOk result (λ names. names ≡ names_in packaged files.now) }
{
    let mut names = List::new(alloc);
    for units in files {
        add_units(alloc, &mut names, packaged, units.items())?;
    }
    Ok(names)
}

/// Adds the names of the classifiers in some units.
fn add_units(alloc: Global, names: &mut List<Name>, packaged: bool, units: &[Unit]) -> Mem<()>
    ensures { OnOk result (names.new ≡ names.old ++ flat_map (classifier_names packaged) (flat_map package_of units.now)) }
{
    for unit in units {
        add_unit(alloc, names, packaged, unit)?;
    }
    Ok(())
}

/// Adds the names of the classifiers in a unit.
fn add_unit(alloc: Global, names: &mut List<Name>, packaged: bool, unit: &Unit) -> Mem<()>
    ensures { OnOk result (names.new ≡ names.old ++ flat_map (classifier_names packaged) (package_of unit.now)) }
{
    match unit {
        Unit::Package(holder) => add_classifiers(alloc, names, packaged, holder),
        Unit::PropertySet(_, _) => Ok(()),
    }
}

/// Adds the names of the classifiers of a package.
fn add_classifiers(
    alloc: Global,
    names: &mut List<Name>,
    packaged: bool,
    holder: &PackageUnit,
) -> Mem<()>
    ensures { OnOk result (names.new ≡ names.old ++ classifier_names packaged holder.now) }
{
    for decl in holder.decls.items() {
        names.push(classifier_name(alloc, packaged, holder, decl)?)?;
    }
    Ok(())
}

/// The name of a classifier of a package: as a root is written, or without its package.
fn classifier_name(alloc: Global, packaged: bool, holder: &PackageUnit, decl: &Decl) -> Mem<Name>
    ensures { IfOk result (λ name. name ≡ classifier_name packaged holder.now decl.now) }
{
    let mut text = Vec::new(alloc);
    push_package(&mut text, packaged, holder)?;
    push_decl(&mut text, decl)?;
    List::of(text)
}

/// Adds the name of a package before that of a classifier, if it is asked for.
fn push_package(text: &mut Vec<u8>, packaged: bool, holder: &PackageUnit) -> Mem<()>
    ensures { OnOk result (text.new.items ≡ text.old.items ++ package_before packaged holder.now) }
{
    if packaged {
        push_before(text, holder)
    } else {
        Ok(())
    }
}

/// Adds the name of a package and `::`.
fn push_before(text: &mut Vec<u8>, holder: &PackageUnit) -> Mem<()>
    ensures { OnOk result (text.new.items ≡ text.old.items ++ (joined holder.now.name ++ codes "::")) }
{
    push_names(text, holder.name.items())?;
    text.extend_from_slice(b"::")?;
    Ok(())
}

/// Adds the name of a classifier in its package.
fn push_decl(text: &mut Vec<u8>, decl: &Decl) -> Mem<()>
    ensures { OnOk result (text.new.items ≡ text.old.items ++ (decl.now.name ++ dotted decl.now.item)) }
{
    text.extend_from_slice(decl.name.text())?;
    push_item(text, &decl.item)
}

/// Adds names with `::` between them.
pub(crate) fn push_names(text: &mut Vec<u8>, names: &[Identifier]) -> Mem<()>
    ensures { OnOk result (text.new.items ≡ text.old.items ++ joined names.now) }
{
    let Some((name, others)) = names.split_first() else {
        return Ok(());
    };
    text.extend_from_slice(name.text())?;
    for other in others {
        push_name(text, other)?;
    }
    Ok(())
}

/// Adds a name behind `::`.
fn push_name(text: &mut Vec<u8>, name: &Identifier) -> Mem<()>
    ensures { OnOk result (text.new.items ≡ text.old.items ++ (58 ∷ 58 ∷ name.now)) }
{
    text.extend_from_slice(b"::")?;
    text.extend_from_slice(name.text())?;
    Ok(())
}

/// Adds an item behind a dot, where there is one.
fn push_item(text: &mut Vec<u8>, item: &Option<Identifier>) -> Mem<()>
    ensures { OnOk result (text.new.items ≡ text.old.items ++ dotted item.now) }
{
    if let Some(item) = item {
        text.push(b'.')?;
        text.extend_from_slice(item.text())?;
    }
    Ok(())
}
