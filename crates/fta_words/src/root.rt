ghost use Rattle.std.specs.Prelude.{◌≡◌, List, ℕ, Some, IfOk, IfSome};
ghost use Rattle.std.specs.List.{AllByRecursion};
ghost use Rattle.aadl_syntax.specs.Form.{IsWord};
ghost use Rattle.plain_values.specs.Name.{folded};
ghost use Rattle.plain_values.specs.declared.name.Root.{Root};
ghost use Rattle.fta_words.specs.Words.{IsRoot, NamesModel, with_colons};
ghost use Rattle.fta_words.specs.inner.Words.{AreJoined};

use crate::text::{is_identifier, split_once};
use plain_values::{List, Mem, Name, Root, Word, fold};
use std::alloc::Global;

/// The root that a word stands for, if it does and there is a file.
pub(crate) fn root_in(alloc: Global, word: &[u8], files: &[Word]) -> Mem<Option<Root>>
    ensures found { IfOk result (λ answer. IfSome answer (λ root. NamesModel word.now root files.now)) }
    ensures only { (root : Root) → NamesModel word.now root files.now → IfOk result (λ answer. answer ≡ Some root) }
{
    if files.is_empty() {
        return Ok(None);
    }
    root_of(alloc, word)
}

/// The root that a word stands for, if it does.
fn root_of(alloc: Global, word: &[u8]) -> Mem<Option<Root>>
    ensures found { IfOk result (λ answer. IfSome answer (λ root. IsRoot (folded word.now) root)) }
    ensures only { (root : Root) → IsRoot (folded word.now) root → IfOk result (λ answer. answer ≡ Some root) }
{
    let text = fold(alloc, word)?;
    let (front, item) = split_once(text.items(), b".");
    let Some(names) = names_of(alloc, front)? else {
        return Ok(None);
    };
    if names.items().len() < 2 {
        return Ok(None);
    }
    match item {
        None => Ok(Some(Root { names, item: None })),
        Some(item) if is_identifier(item) => Ok(Some(Root {
            names,
            item: Some(name_of(alloc, item)?),
        })),
        Some(_) => Ok(None),
    }
}

/// The identifiers of a text that has `::` between them, if it has that form.
fn names_of(alloc: Global, text: &[u8]) -> Mem<Option<List<Name>>>
    ensures found { IfOk result (λ answer. IfSome answer (λ names. (text.now ≡ with_colons names) × AllByRecursion IsWord names)) }
    ensures only { (names : List (List ℕ)) → AreJoined text.now names → IfOk result (λ answer. answer ≡ Some names) }
{
    let mut names = List::new(alloc);
    let mut rest = text;
    loop {
        let (name, more) = split_once(rest, b"::");
        if !is_identifier(name) {
            return Ok(None);
        }
        names.push(name_of(alloc, name)?)?;
        match more {
            Some(more) => rest = more,
            None => return Ok(Some(names)),
        }
    }
}

fn name_of(alloc: Global, bytes: &[u8]) -> Mem<Name>
    ensures { IfOk result (λ name. name ≡ bytes.now) }
{
    List::of(Vec::from_slice(alloc, bytes)?)
}
