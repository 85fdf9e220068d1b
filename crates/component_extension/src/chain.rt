ghost use Rattle.std.specs.Prelude.{◌≡◌, ◌∷◌, ◌++◌, [], Some, None, IfOk, slice_get};
ghost use Rattle.package_index.specs.Lookup.{decl_of};
ghost use Rattle.component_extension.specs.Chain.{chain_of, extended, first_type, is_among, next_of, onward, own_type, tested, type_of};
ghost use Rattle.component_extension.specs.inner.Chain.{Answers};

use aadl_syntax::{Decl, Identifier, Ref};
use package_index::{ClassifierId, Index};
use plain_values::{Answer, Code, List, Mem, Refusal, Stop};
use std::alloc::Global;
use std::collections::HashMap;
use std::marker::Model;

/// A chain so far, with the table of its classifiers. Contracts see the list of these, the nearest first.
#[derive(Drop)]
struct Walked {
    ids: List<ClassifierId>,
    seen: HashMap<(u32, u32), ()>,
}

impl Model for Walked {
    ghost use Rattle.std.specs.Prelude.{◌≡◌, List, is_some};
    ghost use Rattle.std.specs.HashMap.{get};
    ghost use Rattle.package_index.specs.declared.id.ClassifierId.{ClassifierId};
    ghost use Rattle.component_extension.specs.Chain.{is_among};
    ghost use Rattle.package_index.specs.inner.Tables.{same_pair};

    ghost Value = { List ClassifierId };

    ghost view = { λ w. w.ids };

    ghost invariant = { λ w. (id : ClassifierId) → is_some (get same_pair w.seen (id.«package», id.decl)) ≡ is_among w.ids id };
}

impl Walked {
    fn new(alloc: Global) -> Walked
        ensures { result ≡ [] }
    {
        Walked {
            ids: List::new(alloc),
            seen: HashMap::new(alloc),
        }
    }

    fn has(&self, id: ClassifierId) -> bool
        ensures { result ≡ is_among self.now id }
    {
        self.seen.contains_key(&(id.package, id.decl))
    }

    fn with(self, id: ClassifierId) -> Mem<Walked>
        ensures { IfOk result (λ walked. walked ≡ self ++ id ∷ []) }
    {
        let Walked { mut ids, mut seen } = self;
        seen.insert((id.package, id.decl), ())?;
        ids.push(id)?;
        Ok(Walked { ids, seen })
    }

    fn first(&self) -> Option<ClassifierId>
        ensures { result ≡ slice_get self.now 0 }
    {
        self.ids.items().first().copied()
    }

    fn ids(self) -> List<ClassifierId>
        ensures { result ≡ self }
    {
        self.ids
    }
}

/// The chain of a classifier, the nearest first: an implementation, those that it extends in turn, then its own type and the
/// types that this extends in turn.
///
/// From the nearest on, each `extends` is tested, and then the prototypes of that classifier: N2 and N3 where the extended
/// name means no classifier, or one of the other sort, N4 where the chain comes back to a classifier, P1 at bindings and
/// at a section of prototypes; at the end of the implementations N3 where the first of them has no type.
pub fn chain_of(alloc: Global, index: &Index, id: ClassifierId) -> Answer<List<ClassifierId>>
    ensures { Answers (chain_of index.now id) result }
{
    let mut walked = Walked::new(alloc);
    let mut next = id;
    for _ in 0..u64::MAX {
        walked = walked.with(next)?;
        match next_of(alloc, index, &walked, next)? {
            None => return Ok(walked.ids()),
            Some(base) => next = base,
        }
    }
    Err(Stop::Memory)
}

fn next_of(
    alloc: Global,
    index: &Index,
    chain: &Walked,
    id: ClassifierId,
) -> Answer<Option<ClassifierId>>
    ensures { Answers (next_of index.now chain.now id (decl_of index.now id)) result }
{
    match index.decl(id) {
        Some(decl) => after(alloc, index, chain, id, decl),
        None => Ok(None),
    }
}

fn after(
    alloc: Global,
    index: &Index,
    chain: &Walked,
    id: ClassifierId,
    decl: &Decl,
) -> Answer<Option<ClassifierId>>
    ensures { Answers (next_of index.now chain.now id (Some decl.now)) result }
{
    let base = extended(index, chain, id, decl)?;
    if let Some(spot) = decl.prototypes {
        return Err(Stop::Refused(Refusal::at(Code::Prototype, spot)));
    }
    onward(alloc, index, chain, decl, base)
}

fn extended(
    index: &Index,
    chain: &Walked,
    id: ClassifierId,
    decl: &Decl,
) -> Result<Option<ClassifierId>, Refusal>
    ensures { result ≡ extended index.now chain.now id decl.now decl.now.extends }
{
    let Some(reference) = &decl.extends else {
        return Ok(None);
    };
    let base = index.find_classifier(id.package, reference)?;
    tested(chain, decl, reference, base)
}

fn tested(
    chain: &Walked,
    decl: &Decl,
    reference: &Ref,
    base: ClassifierId,
) -> Result<Option<ClassifierId>, Refusal>
    ensures { result ≡ tested chain.now decl.now reference.now base }
{
    if decl.item.is_some() != reference.item.is_some() {
        return Err(Refusal::at(Code::UnknownClassifier, reference.spot));
    }
    if chain.has(base) {
        return Err(Refusal::at(Code::CyclicExtends, reference.spot));
    }
    match decl.binds {
        Some(spot) => Err(Refusal::at(Code::Prototype, spot)),
        None => Ok(Some(base)),
    }
}

fn onward(
    alloc: Global,
    index: &Index,
    chain: &Walked,
    decl: &Decl,
    base: Option<ClassifierId>,
) -> Answer<Option<ClassifierId>>
    ensures { Answers (onward index.now chain.now decl.now base) result }
{
    match base {
        Some(base) => Ok(Some(base)),
        None => own_type(alloc, index, chain, decl),
    }
}

fn own_type(
    alloc: Global,
    index: &Index,
    chain: &Walked,
    decl: &Decl,
) -> Answer<Option<ClassifierId>>
    ensures { Answers (own_type index.now chain.now decl.now.item) result }
{
    match &decl.item {
        Some(_) => first_type(alloc, index, chain.first()),
        None => Ok(None),
    }
}

/// The type of the first implementation of a chain.
fn first_type(
    alloc: Global,
    index: &Index,
    first: Option<ClassifierId>,
) -> Answer<Option<ClassifierId>>
    ensures { Answers (first_type index.now first) result }
{
    match first {
        Some(id) => type_of(alloc, index, id),
        None => Ok(None),
    }
}

fn type_of(alloc: Global, index: &Index, id: ClassifierId) -> Answer<Option<ClassifierId>>
    ensures { Answers (type_of index.now id (decl_of index.now id)) result }
{
    match index.decl(id) {
        Some(decl) => named_type(alloc, index, id, decl),
        None => Ok(None),
    }
}

fn named_type(
    alloc: Global,
    index: &Index,
    id: ClassifierId,
    decl: &Decl,
) -> Answer<Option<ClassifierId>>
    ensures { Answers (type_of index.now id (Some decl.now)) result }
{
    let reference = type_reference(alloc, decl)?;
    Ok(Some(index.find_classifier(id.package, &reference)?))
}

/// The name of an implementation before its dot.
fn type_reference(alloc: Global, decl: &Decl) -> Mem<Ref>
    ensures { IfOk result (λ reference. (reference.names ≡ decl.now.name ∷ []) × (reference.item ≡ None) × (reference.spot ≡ decl.now.spot)) }
{
    let mut names = List::new(alloc);
    names.push(Identifier::of(alloc, decl.name.text())?)?;
    Ok(Ref {
        names,
        item: None,
        spot: decl.spot,
    })
}
