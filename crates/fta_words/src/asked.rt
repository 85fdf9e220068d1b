ghost use Rattle.std.specs.Prelude.{◌≡◌, Option, MatchOption, IfOk, option_map, option_to_list};
ghost use Rattle.fta_words.specs.Table.{name_of, shape_of};
ghost use Rattle.fta_words.specs.Words.{no_root};
ghost use Rattle.fta_words.specs.declared.kind.Kind.{Kind};
ghost use Rattle.fta_words.specs.declared.kind.Shape.TheVariants as shape;
ghost use Rattle.fta_words.specs.inner.Reading.{AsksAs};

use crate::files::{before_to, behind_to, copies, without_to};
use crate::kind::{Kind, Shape};
use crate::number::number_of;
use crate::root::root_in;
use crate::table::{CODES, is_among, kind_named, shape_of};
use plain_values::{List, Mem, Name, Root, Word, fold};
use std::alloc::Global;

/// What the plain words behind the name of a command say. What their shape does not have is empty, zero or none.
#[derive(Drop)]
pub(crate) struct Asked {
    pub(crate) root: Root,
    pub(crate) target: Name,
    pub(crate) number: u32,
    pub(crate) of: Option<Kind>,
    pub(crate) files: List<Word>,
}

/// What the plain words behind the name of a command say, if they have its shape.
pub(crate) fn asked_of(alloc: Global, kind: Kind, words: &[Word]) -> Mem<Option<Asked>>
    ensures { IfOk result (AsksAs (shape_of kind) words.now) }
{
    match shape_of(kind) {
        Shape::Model => model(alloc, words),
        Shape::Target => target(alloc, words),
        Shape::Derivation => derivation(alloc, words),
        Shape::Requirements => requirements(alloc, words),
        Shape::Compared => compared(alloc, words),
        Shape::Number => Ok(number(alloc, words)),
        Shape::File => file(alloc, words),
        Shape::Place => place(alloc, words),
        Shape::Code => code(alloc, words),
        Shape::Topic => Ok(topic(alloc, words)),
        Shape::Alone => Ok(alone(alloc, words)),
    }
}

/// `ROOT FILE..`
fn model(alloc: Global, words: &[Word]) -> Mem<Option<Asked>>
    ensures { IfOk result (AsksAs shape.Model words.now) }
{
    let [root, files @ ..] = words else {
        return Ok(None);
    };
    let Some(root) = root_in(alloc, root.items(), files)? else {
        return Ok(None);
    };
    Ok(Some(Asked {
        root,
        target: List::new(alloc),
        number: 0,
        of: None,
        files: copies(alloc, files)?,
    }))
}

/// `ROOT TARGET FILE..`
fn target(alloc: Global, words: &[Word]) -> Mem<Option<Asked>>
    ensures { IfOk result (AsksAs shape.Target words.now) }
{
    let [root, target, files @ ..] = words else {
        return Ok(None);
    };
    let Some(root) = root_in(alloc, root.items(), files)? else {
        return Ok(None);
    };
    let target = fold(alloc, target.items())?;
    Ok(Some(Asked {
        root,
        target,
        number: 0,
        of: None,
        files: copies(alloc, files)?,
    }))
}

/// `ROOT TARGET DERIVATION FILE..`
fn derivation(alloc: Global, words: &[Word]) -> Mem<Option<Asked>>
    ensures { IfOk result (AsksAs shape.Derivation words.now) }
{
    if words.len() < 4 {
        return Ok(None);
    }
    target(alloc, words)
}

/// `ROOT REQUIREMENTS FILE..`
fn requirements(alloc: Global, words: &[Word]) -> Mem<Option<Asked>>
    ensures { IfOk result (AsksAs shape.Requirements words.now) }
{
    if words.len() < 3 {
        return Ok(None);
    }
    model(alloc, words)
}

/// `ROOT TARGET FILE.. to FILE..`
fn compared(alloc: Global, words: &[Word]) -> Mem<Option<Asked>>
    ensures { IfOk result (AsksAs shape.Compared words.now) }
{
    let [root, target, names @ ..] = words else {
        return Ok(None);
    };
    let older = before_to(names);
    if behind_to(names).is_empty() {
        return Ok(None);
    }
    let Some(root) = root_in(alloc, root.items(), older)? else {
        return Ok(None);
    };
    let target = fold(alloc, target.items())?;
    let number = copies(alloc, older)?.len_u32();
    Ok(Some(Asked {
        root,
        target,
        number,
        of: None,
        files: without_to(alloc, names)?,
    }))
}

/// `N`, from 1 to 512
fn number(alloc: Global, words: &[Word]) -> Option<Asked>
    ensures { AsksAs shape.Number words.now result }
{
    let [number] = words else {
        return None;
    };
    let number = number_of(number.items())?;
    if number < 1 || number > 512 {
        return None;
    }
    Some(Asked {
        root: no_root(alloc),
        target: List::new(alloc),
        number,
        of: None,
        files: List::new(alloc),
    })
}

/// `FILE`
fn file(alloc: Global, words: &[Word]) -> Mem<Option<Asked>>
    ensures { IfOk result (AsksAs shape.File words.now) }
{
    if words.len() != 1 {
        return Ok(None);
    }
    Ok(Some(Asked {
        root: no_root(alloc),
        target: List::new(alloc),
        number: 0,
        of: None,
        files: copies(alloc, words)?,
    }))
}

/// `FILE BYTE`
fn place(alloc: Global, words: &[Word]) -> Mem<Option<Asked>>
    ensures { IfOk result (AsksAs shape.Place words.now) }
{
    let [files @ .., byte] = words else {
        return Ok(None);
    };
    if files.len() != 1 {
        return Ok(None);
    }
    let Some(number) = number_of(byte.items()) else {
        return Ok(None);
    };
    Ok(Some(Asked {
        root: no_root(alloc),
        target: List::new(alloc),
        number,
        of: None,
        files: copies(alloc, files)?,
    }))
}

/// The name of the code of a refusal.
fn code(alloc: Global, words: &[Word]) -> Mem<Option<Asked>>
    ensures { IfOk result (AsksAs shape.Code words.now) }
{
    let [code] = words else {
        return Ok(None);
    };
    let target = fold(alloc, code.items())?;
    if !is_among(&CODES, target.items()) {
        return Ok(None);
    }
    Ok(Some(Asked {
        root: no_root(alloc),
        target,
        number: 0,
        of: None,
        files: List::new(alloc),
    }))
}

/// The name of a command, or nothing.
fn topic(alloc: Global, words: &[Word]) -> Option<Asked>
    ensures { AsksAs shape.Topic words.now result }
{
    let of = topic_in(words)?;
    Some(Asked {
        root: no_root(alloc),
        target: List::new(alloc),
        number: 0,
        of,
        files: List::new(alloc),
    })
}

/// The command that words name, or none where there is no word.
fn topic_in(words: &[Word]) -> Option<Option<Kind>>
    ensures { MatchOption result ((of : Option Kind) → words.now ≡ option_to_list (option_map name_of of) → ⊥) (λ of. words.now ≡ option_to_list (option_map name_of of)) }
{
    match words {
        [] => Some(None),
        [name] => Some(Some(kind_named(name.items())?)),
        _ => None,
    }
}

/// Nothing.
fn alone(alloc: Global, words: &[Word]) -> Option<Asked>
    ensures { AsksAs shape.Alone words.now result }
{
    if !words.is_empty() {
        return None;
    }
    Some(Asked {
        root: no_root(alloc),
        target: List::new(alloc),
        number: 0,
        of: None,
        files: List::new(alloc),
    })
}

/// No root.
fn no_root(alloc: Global) -> Root
    ensures { result ≡ no_root }
{
    Root {
        names: List::new(alloc),
        item: None,
    }
}
