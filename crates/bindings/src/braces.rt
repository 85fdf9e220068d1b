ghost use Rattle.std.specs.Prelude.{◌≡◌, ◌++◌, ◌∷◌, IfOk, OnOk, map};
ghost use Rattle.bindings.specs.Bindings.{around, braced_binding, braced_bindings};

use crate::binding::piece_binding;
use crate::piece::{behind_brace, section_pieces};
use aadl_syntax::{Binding, Identifier, TokenList};
use plain_values::{List, Mem};
use std::alloc::Global;

/// Adds the bindings that stand in braces among the tokens behind a subcomponent or a connection of this name, in their order, as
/// bindings of the classifier that declares it. The other pieces there say nothing.
pub fn add_braced(
    alloc: Global,
    file: u32,
    name: &Identifier,
    tail: &TokenList,
    bindings: &mut List<Binding>,
) -> Mem<()>
    ensures { OnOk result (bindings.new ≡ bindings.old ++ braced_bindings file name.now tail.now) }
{
    for piece in section_pieces(alloc, behind_brace(tail))?.items() {
        bindings.push_some(braced_binding(alloc, file, name, piece)?)?;
    }
    Ok(())
}

/// The binding of a piece that stands in braces behind the member of this name, if it reads as one.
fn braced_binding(
    alloc: Global,
    file: u32,
    name: &Identifier,
    piece: &TokenList,
) -> Mem<Option<Binding>>
    ensures { IfOk result (λ binding. binding ≡ braced_binding file name.now piece.now) }
{
    match piece_binding(alloc, file, true, piece)? {
        Some(binding) => Ok(Some(around(alloc, name, binding)?)),
        None => Ok(None),
    }
}

/// A binding as it is stated around the member of this name, behind which it stands: its targets are in that, or that itself.
fn around(alloc: Global, name: &Identifier, binding: Binding) -> Mem<Binding>
    ensures { IfOk result (λ made. made ≡ around name.now binding) }
{
    let targets = targets_behind(alloc, name, binding.targets.items())?;
    Ok(Binding {
        kind: binding.kind,
        spot: binding.spot,
        references: binding.references,
        targets,
    })
}

/// These paths, each with the name before it.
fn targets_behind(
    alloc: Global,
    name: &Identifier,
    targets: &[List<Identifier>],
) -> Mem<List<List<Identifier>>>
    ensures { IfOk result (λ paths. paths ≡ map (λ target. name.now ∷ target) targets.now) }
{
    let mut paths = List::new(alloc);
    for target in targets {
        paths.push(path_behind(alloc, name, target.items())?)?;
    }
    Ok(paths)
}

/// This path with the name before it.
fn path_behind(alloc: Global, name: &Identifier, target: &[Identifier]) -> Mem<List<Identifier>>
    ensures { IfOk result (λ path. path ≡ name.now ∷ target.now) }
{
    let mut path = List::new(alloc);
    path.push(Identifier::of(alloc, name.text())?)?;
    for next in target {
        path.push(Identifier::of(alloc, next.text())?)?;
    }
    Ok(path)
}
