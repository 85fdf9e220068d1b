//! What a component is, and where what goes wrong in it is felt next.

ghost use Rattle.std.specs.Prelude.{◌≡◌, ◌++◌, ◌∷◌, IfOk, OnOk, option_copied};
ghost use Rattle.sheet_model.specs.Parts.{category_of, category_text, classifier_of, classifier_text, decl_in, dotted, joined, second_word, text_in};

use aadl_syntax::{Category, Decl, Identifier, PackageUnit};
use package_index::{ClassifierId, Index};
use plain_values::{List, Mem, Name};
use std::alloc::Global;

/// A component: the words of the category of its classifier, the name of this, and the rising numbers of the components in which what
/// goes wrong in it is felt next. Where it has no classifier the words and the name are empty.
#[derive(Drop)]
pub struct Part {
    /// The words of its category, as `device` or `virtual bus`.
    pub category: Name,
    /// The name of its classifier, with its package.
    pub classifier: Name,
    /// The component in which it stands, and those to which a link leads from it.
    pub next: List<u32>,
}

/// The words of the category of a classifier; empty where there is none.
pub(crate) fn category_of(
    alloc: Global,
    index: &Index<'_>,
    classifier: Option<ClassifierId>,
) -> Mem<Name>
    ensures { IfOk result (λ text. text ≡ category_of index.now classifier) }
{
    match decl_of(index, classifier) {
        Some(decl) => category_text(alloc, &decl.category),
        None => Ok(List::new(alloc)),
    }
}

/// The declaration of a classifier, if there is one.
fn decl_of<'a>(index: &Index<'a>, classifier: Option<ClassifierId>) -> Option<&'a Decl>
    ensures { option_copied result ≡ decl_in index.now classifier }
{
    index.decl(classifier?)
}

/// The words of a category.
fn category_text(alloc: Global, category: &Category) -> Mem<Name>
    ensures { IfOk result (λ text. text ≡ category_text category.now) }
{
    let mut text = Vec::from_slice(alloc, category.word.text())?;
    push_second(&mut text, &category.second)?;
    List::of(text)
}

/// Adds a second word, if there is one.
fn push_second(text: &mut Vec<u8>, word: &Option<Identifier>) -> Mem<()>
    ensures { OnOk result (text.new.items ≡ text.old.items ++ second_word word.now) }
{
    match word {
        Some(word) => push_behind(text, b' ', word),
        None => Ok(()),
    }
}

/// Adds a name behind a sign.
fn push_behind(text: &mut Vec<u8>, sign: u8, name: &Identifier) -> Mem<()>
    ensures { OnOk result (text.new.items ≡ text.old.items ++ (sign ∷ name.now)) }
{
    text.push(sign)?;
    text.extend_from_slice(name.text())?;
    Ok(())
}

/// The name of a classifier with its package; empty where there is none.
pub(crate) fn classifier_of(
    alloc: Global,
    index: &Index<'_>,
    classifier: Option<ClassifierId>,
) -> Mem<Name>
    ensures { IfOk result (λ text. text ≡ classifier_of index.now classifier) }
{
    match classifier {
        Some(id) => text_in(alloc, index.package(id.package), index.decl(id)),
        None => Ok(List::new(alloc)),
    }
}

/// The name of a classifier that is declared so in a package, where both are there.
fn text_in(alloc: Global, unit: Option<&PackageUnit>, decl: Option<&Decl>) -> Mem<Name>
    ensures { IfOk result (λ text. text ≡ text_in (option_copied unit.entry) (option_copied decl.entry)) }
{
    match (unit, decl) {
        (Some(unit), Some(decl)) => classifier_text(alloc, unit, decl),
        _ => Ok(List::new(alloc)),
    }
}

/// The name of a classifier with its package.
fn classifier_text(alloc: Global, unit: &PackageUnit, decl: &Decl) -> Mem<Name>
    ensures { IfOk result (λ text. text ≡ classifier_text unit.now decl.now) }
{
    let mut text = Vec::new(alloc);
    push_names(&mut text, unit.name.items())?;
    text.extend_from_slice(b"::")?;
    push_decl(&mut text, decl)?;
    List::of(text)
}

/// Adds the name of a classifier in its package.
fn push_decl(text: &mut Vec<u8>, decl: &Decl) -> Mem<()>
    ensures { OnOk result (text.new.items ≡ text.old.items ++ (decl.now.name ++ dotted decl.now.item)) }
{
    text.extend_from_slice(decl.name.text())?;
    push_item(text, &decl.item)
}

/// Adds the item of an implementation behind a dot.
fn push_item(text: &mut Vec<u8>, item: &Option<Identifier>) -> Mem<()>
    ensures { OnOk result (text.new.items ≡ text.old.items ++ dotted item.now) }
{
    match item {
        Some(item) => push_behind(text, b'.', item),
        None => Ok(()),
    }
}

/// Adds names with `::` between them.
fn push_names(text: &mut Vec<u8>, names: &[Identifier]) -> Mem<()>
    ensures { OnOk result (text.new.items ≡ text.old.items ++ joined names.now) }
{
    let Some((name, others)) = names.split_first() else {
        return Ok(());
    };
    text.extend_from_slice(name.text())?;
    for other in others {
        push_name(text, other)?;
    }
    Ok(())
}

/// Adds a name behind `::`.
fn push_name(text: &mut Vec<u8>, name: &Identifier) -> Mem<()>
    ensures { OnOk result (text.new.items ≡ text.old.items ++ (58 ∷ 58 ∷ name.now)) }
{
    text.extend_from_slice(b"::")?;
    text.extend_from_slice(name.text())?;
    Ok(())
}
