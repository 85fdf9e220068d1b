//! What properties of hazards are said of.

ghost use Rattle.std.specs.Prelude.{◌≡◌, ◌++◌, [], IfOk, OnOk, codes, flat_map, map};
ghost use Rattle.hazard_records.specs.Targets.{applied, dotted, has_target, is_named, is_named_behind, or_none, other_names, other_target, plain_target, says_of, targets_of};

use aadl_syntax::{Association, Identifier, OtherTarget};
use plain_values::{List, Mem, Name, copied, is_same};
use profiles::Profile;
use std::alloc::Global;

/// A target of an association: its text, and the names of the path that it is, if it is one.
#[derive(Drop)]
pub(crate) struct Target {
    pub(crate) text: Name,
    pub(crate) names: Option<List<Name>>,
}

/// Whether a property is that of this word, of whatever property set.
pub(crate) fn is_named(word: &[u8], names: &[Identifier]) -> bool
    ensures { result ≡ is_named word.now names.now }
{
    match names.split_first() {
        Some((first, rest)) => is_named_behind(word, first, rest),
        None => false,
    }
}

/// The same, where this is its first name.
fn is_named_behind(word: &[u8], first: &Identifier, rest: &[Identifier]) -> bool
    ensures { result ≡ is_named_behind word.now first.now rest.now }
{
    match rest.split_first() {
        Some((second, further)) => further.is_empty() && is_same(second.text(), word),
        None => is_same(first.text(), word),
    }
}

/// The targets of an association.
pub(crate) fn targets_of(
    alloc: Global,
    profile: Profile,
    association: &Association,
) -> Mem<List<Target>>
    ensures { IfOk result (λ targets. targets ≡ targets_of profile association.now) }
{
    let targets = applied(alloc, profile, association)?;
    or_none(alloc, targets)
}

/// The targets to which an association applies.
fn applied(alloc: Global, profile: Profile, association: &Association) -> Mem<List<Target>>
    ensures { IfOk result (λ targets. targets ≡ applied profile association.now) }
{
    let mut targets = List::new(alloc);
    add_plain(&mut targets, alloc, association.targets.items())?;
    add_others(&mut targets, alloc, profile, association.others.items())?;
    Ok(targets)
}

/// These targets, or that of an association that applies to nothing.
fn or_none(alloc: Global, targets: List<Target>) -> Mem<List<Target>>
    ensures { IfOk result (λ all. all ≡ or_none targets) }
{
    if targets.items().is_empty() {
        return no_targets(alloc);
    }
    Ok(targets)
}

/// The target of an association that applies to nothing.
fn no_targets(alloc: Global) -> Mem<List<Target>>
    ensures { IfOk result (λ targets. targets ≡ or_none []) }
{
    let mut targets = List::new(alloc);
    let text = copied(alloc, b"-")?;
    targets.push(Target { text, names: None })?;
    Ok(targets)
}

/// Adds the targets that are names with single dots between them.
fn add_plain(targets: &mut List<Target>, alloc: Global, all: &[List<Identifier>]) -> Mem<()>
    ensures { OnOk result (targets.new ≡ targets.old ++ map plain_target all.now) }
{
    for names in all {
        let target = plain_target(alloc, names.items())?;
        targets.push(target)?;
    }
    Ok(())
}

/// Adds all other targets.
fn add_others(
    targets: &mut List<Target>,
    alloc: Global,
    profile: Profile,
    others: &[OtherTarget],
) -> Mem<()>
    ensures { OnOk result (targets.new ≡ targets.old ++ map (other_target profile) others.now) }
{
    for other in others {
        let target = other_target(alloc, profile, other)?;
        targets.push(target)?;
    }
    Ok(())
}

/// The target of names with single dots between them.
fn plain_target(alloc: Global, names: &[Identifier]) -> Mem<Target>
    ensures { IfOk result (λ target. target ≡ plain_target names.now) }
{
    let text = dotted(alloc, names)?;
    let own = names_in(alloc, names)?;
    Ok(Target {
        text,
        names: Some(own),
    })
}

/// The target of a path that is more than that.
fn other_target(alloc: Global, profile: Profile, other: &OtherTarget) -> Mem<Target>
    ensures { IfOk result (λ target. target ≡ other_target profile other.now) }
{
    let text = copied(alloc, other.text.items())?;
    let names = other_names(alloc, profile, other)?;
    Ok(Target { text, names })
}

/// The names of such a path, if it has some by a profile.
fn other_names(alloc: Global, profile: Profile, other: &OtherTarget) -> Mem<Option<List<Name>>>
    ensures { IfOk result (λ names. names ≡ other_names profile other.now) }
{
    match profile {
        Profile::First => Ok(None),
        Profile::Second => perhaps_names(alloc, &other.names),
    }
}

/// The names, if there are some.
fn perhaps_names(alloc: Global, names: &Option<List<Identifier>>) -> Mem<Option<List<Name>>>
    ensures { IfOk result (λ own. own ≡ names.now) }
{
    match names {
        Some(names) => Ok(Some(names_in(alloc, names.items())?)),
        None => Ok(None),
    }
}

/// The names of a path.
fn names_in(alloc: Global, path: &[Identifier]) -> Mem<List<Name>>
    ensures { IfOk result (λ names. names ≡ path.now) }
{
    let mut names = List::new(alloc);
    for name in path {
        let name = copied(alloc, name.text())?;
        names.push(name)?;
    }
    Ok(names)
}

/// Names with single dots between them.
fn dotted(alloc: Global, names: &[Identifier]) -> Mem<Name>
    ensures { IfOk result (λ text. text ≡ dotted names.now) }
{
    let Some((first, rest)) = names.split_first() else {
        return Ok(List::new(alloc));
    };
    let mut text = copied(alloc, first.text())?;
    add_dotted(&mut text, rest)?;
    Ok(text)
}

/// Adds names, each behind a dot.
fn add_dotted(text: &mut Name, names: &[Identifier]) -> Mem<()>
    ensures { OnOk result (text.new ≡ text.old ++ flat_map (λ other. codes "." ++ other) names.now) }
{
    for name in names {
        put_dotted(text, name.text())?;
    }
    Ok(())
}

/// Adds a dot, and a name.
pub(crate) fn put_dotted(text: &mut Name, name: &[u8]) -> Mem<()>
    ensures { OnOk result (text.new ≡ text.old ++ (codes "." ++ name.now)) }
{
    put(text, b".")?;
    put(text, name)
}

/// Adds bytes.
pub(crate) fn put(text: &mut Name, bytes: &[u8]) -> Mem<()>
    ensures { OnOk result (text.new ≡ text.old ++ bytes.now) }
{
    for byte in bytes {
        text.push(*byte)?;
    }
    Ok(())
}

/// Whether one of the targets has this text.
fn has_target(text: &[u8], targets: &[Target]) -> bool
    ensures { result ≡ has_target text.now targets.now }
{
    targets
        .iter()
        .any(|target| is_same(target.text.items(), text))
}

/// Whether an association is one of the property of this word, and has a target of this text.
pub(crate) fn says_of(
    alloc: Global,
    profile: Profile,
    word: &[u8],
    text: &[u8],
    association: &Association,
) -> Mem<bool>
    ensures { IfOk result (λ is. is ≡ says_of profile word.now text.now association.now) }
{
    if !is_named(word, association.name.items()) {
        return Ok(false);
    }
    let targets = targets_of(alloc, profile, association)?;
    Ok(has_target(text, targets.items()))
}
