ghost use Rattle.std.specs.Prelude.{◌≡◌, ◌∷◌, ◌++◌, [], IfOk, OnOk, filter, fold, option_copied};
ghost use Rattle.std.specs.HashMap.{get};
ghost use Rattle.noted_refusals.specs.inner.Noted.{noting};
ghost use Rattle.component_extension.specs.Members.{declarations, declare, declared_by, is_declared_earlier, is_declared_farther, member_key, members_of, refined_by, refines_nothing, stands, unknown_members};
ghost use Rattle.component_extension.specs.inner.Rows.{KnowsRows, same_words};

use crate::classifier::Classifier;
use crate::declaration::Declaration;
use crate::member::{Inherited, MemberKind};
use crate::names::PlainNames;
use crate::rows::{KeyWords, named, put, row_by};
use noted_refusals::Refusals;
use plain_values::{Code, Mem, Spot};
use std::alloc::Global;
use std::collections::HashMap;

/// The declarations of a kind along a chain, from the farthest classifier to the nearest.
pub(crate) fn declarations<'a, M: MemberKind>(
    alloc: Global,
    classifiers: &[Classifier<'a>],
) -> Mem<Vec<Declaration<'a, M>>>
    ensures { IfOk result (λ all. all.items ≡ declarations M.kind classifiers.now) }
{
    let mut all = Vec::new(alloc);
    for (level, classifier) in classifiers.iter().enumerate() {
        add_declared(&mut all, level, classifier)?;
    }
    Ok(all)
}

fn add_declared<'a, M: MemberKind>(
    all: &mut Vec<Declaration<'a, M>>,
    level: usize,
    classifier: &Classifier<'a>,
) -> Mem<()>
    ensures { OnOk result (all.new.items ≡ all.old.items ++ declared_by M.kind level classifier.now) }
{
    for item in M::items(classifier.item()) {
        all.push(Declaration::new(level, classifier.package(), item))?;
    }
    Ok(())
}

/// Whether a farther classifier declares a member of the kind and the name of a declaration.
fn is_declared_farther<'a, M: MemberKind>(
    names: &PlainNames<'a>,
    declaration: &Declaration<'a, M>,
) -> bool
    ensures { result ≡ is_declared_farther M.kind names.now declaration.now }
{
    names.has_before(declaration.item().name().text(), declaration.level(), 0)
}

/// Whether an earlier declaration of the kind has the name of a declaration.
fn is_declared_earlier<'a, M: MemberKind>(
    names: &PlainNames<'a>,
    declaration: &Declaration<'a, M>,
) -> bool
    ensures { result ≡ is_declared_earlier M.kind names.now declaration.now }
{
    let item = declaration.item();
    names.has_before(item.name().text(), declaration.level(), item.spot().at)
}

/// Whether a declaration makes a member: one that is `refined to` where a farther classifier declares one of its name, and any
/// other where it is the first of its name.
fn stands<'a, M: MemberKind>(names: &PlainNames<'a>, declaration: &Declaration<'a, M>) -> bool
    ensures { result ≡ stands M.kind names.now declaration.now }
{
    if declaration.item().is_refined() {
        is_declared_farther(names, declaration)
    } else {
        !is_declared_earlier(names, declaration)
    }
}

/// Whether a declaration is `refined to` where there is nothing to refine.
fn refines_nothing<'a, M: MemberKind>(
    names: &PlainNames<'a>,
    declaration: &Declaration<'a, M>,
) -> bool
    ensures { result ≡ refines_nothing M.kind names.now declaration.now }
{
    declaration.item().is_refined() && !is_declared_farther(names, declaration)
}

/// Notes each declaration that refines nothing.
pub(crate) fn note_unknown<'a, M: MemberKind>(
    refusals: &mut Refusals,
    names: &PlainNames<'a>,
    all: &[Declaration<'a, M>],
)
    ensures { refusals.new ≡ noting refusals.old (unknown_members M.kind names.now all.now) }
{
    for declaration in all {
        let is_unknown = refines_nothing(names, declaration);
        refusals.note_if(is_unknown, Code::UnknownMember, declaration.item().spot());
    }
}

/// The members of a kind, from the declarations that make members.
pub(crate) fn members_of<'a, M: MemberKind>(
    alloc: Global,
    names: &PlainNames<'a>,
    all: &[Declaration<'a, M>],
) -> Mem<Vec<Inherited<'a, M>>>
    ensures { IfOk result (λ members. members.items ≡ members_of M.kind names.now all.now) }
{
    let mut places = HashMap::new(alloc);
    let mut members = Vec::new(alloc);
    for declaration in all {
        declare_member(&mut places, &mut members, names, declaration)?;
    }
    Ok(members)
}

/// Declares a member, where the declaration makes one.
fn declare_member<'a, M: MemberKind>(
    places: &mut HashMap<KeyWords<'a>, usize>,
    members: &mut Vec<Inherited<'a, M>>,
    names: &PlainNames<'a>,
    declaration: &Declaration<'a, M>,
) -> Mem<()>
    requires { KnowsRows (member_key M.kind) members.now.items (get same_words places.now) }
    ensures members { OnOk result (members.new.items ≡ fold (declare M.kind) members.old.items (filter (stands M.kind names.now) (declaration.now ∷ []))) }
    ensures knows { OnOk result (KnowsRows (member_key M.kind) members.new.items (get same_words places.new)) }
{
    if stands(names, declaration) {
        declare(places, members, declaration)?;
    }
    Ok(())
}

fn declare<'a, M: MemberKind>(
    places: &mut HashMap<KeyWords<'a>, usize>,
    members: &mut Vec<Inherited<'a, M>>,
    declaration: &Declaration<'a, M>,
) -> Mem<()>
    requires { KnowsRows (member_key M.kind) members.now.items (get same_words places.now) }
    ensures members { OnOk result (members.new.items ≡ declare M.kind members.old.items declaration.now) }
    ensures knows { OnOk result (KnowsRows (member_key M.kind) members.new.items (get same_words places.new)) }
{
    let key = named(declaration.item().name());
    let member = refined_by(row_by(places, members.as_slice(), key), declaration);
    put(places, members, Some(key), member)
}

fn refined_by<'a, M: MemberKind>(
    inherited: Option<&Inherited<'a, M>>,
    declaration: &Declaration<'a, M>,
) -> Inherited<'a, M>
    ensures { result ≡ refined_by M.kind (option_copied inherited.entry) declaration.now }
{
    Inherited::new(
        declaration.again(),
        stated_by(inherited, declaration),
        array_by(inherited, declaration),
    )
}

fn stated_by<'a, M: MemberKind>(
    inherited: Option<&Inherited<'a, M>>,
    declaration: &Declaration<'a, M>,
) -> Option<Declaration<'a, M>>
    ensures { result ≡ (refined_by M.kind (option_copied inherited.entry) declaration.now).stated }
{
    if declaration.item().states() {
        return Some(declaration.again());
    }
    match inherited?.stated() {
        Some(stated) => Some(stated.again()),
        None => None,
    }
}

fn array_by<'a, M: MemberKind>(
    inherited: Option<&Inherited<'a, M>>,
    declaration: &Declaration<'a, M>,
) -> Option<Spot>
    ensures { result ≡ (refined_by M.kind (option_copied inherited.entry) declaration.now).array }
{
    match declaration.item().array() {
        Some(array) => Some(array),
        None => inherited?.array(),
    }
}
