ghost use Rattle.std.specs.Prelude.{◌≡◌, IfOk, map, option_copied};
ghost use Rattle.instantiator.specs.Components.{meant, occurrence_of, part_of, parts_of, root_of, stated_by};

use crate::path::Path;
use aadl_syntax::{Identifier, Ref, Subcomponent};
use component_extension::{Declaration, Inherited};
use package_index::{ClassifierId, Index};
use plain_values::{List, Mem, Place, Refusal};
use std::alloc::Global;
use std::marker::Model;

/// What the name of a classifier means: a classifier, or none where there is no name, or else the name is refused.
pub type Meant = Result<Option<ClassifierId>, Refusal>;

/// A subcomponent: its name, where that stands in the nearest declaration, and what the name of its classifier means.
#[derive(Drop)]
pub struct Part<'a> {
    name: &'a Identifier,
    place: Place,
    classifier: Meant,
}

impl<'a> Model for Part<'a> {
    ghost use Rattle.std.specs.Coded.{codes};
    ghost use Rattle.instantiator.specs.Components.{Part as Seen};

    ghost Value = { Seen };

    ghost coded = { Prim.hlevel codes };

    ghost view = { λ p. record { name = p.name.now; place = p.place; classifier = p.classifier } };
}

impl<'a> Part<'a> {
    /// The subcomponent that a member makes.
    fn of(index: &Index<'a>, member: &Inherited<'a, Subcomponent>) -> Part<'a>
        ensures { result ≡ part_of index.now member.now }
    {
        let subcomponent = member.nearest().item();
        Part {
            name: &subcomponent.name,
            place: subcomponent.spot.place(),
            classifier: stated_by(index, member.stated()),
        }
    }

    /// Its name.
    pub fn name(&self) -> &'a Identifier
        ensures { result.now ≡ self.now.name }
    {
        self.name
    }

    /// Where its name stands in its nearest declaration.
    pub fn place(&self) -> Place
        ensures { result ≡ self.now.place }
    {
        self.place
    }

    /// What the name of its classifier means.
    pub fn classifier(&self) -> Meant
        ensures { result ≡ self.now.classifier }
    {
        self.classifier
    }
}

fn stated_by<'a>(index: &Index<'a>, stated: Option<&Declaration<'a, Subcomponent>>) -> Meant
    ensures { result ≡ stated_by index.now (option_copied stated.entry) }
{
    match stated {
        Some(declaration) => meant(index, declaration.package(), &declaration.item().classifier),
        None => Ok(None),
    }
}

fn meant(index: &Index, home: u32, reference: &Option<Ref>) -> Meant
    ensures { result ≡ meant index.now home reference.now }
{
    match reference {
        Some(reference) => Ok(Some(index.find_classifier(home, reference)?)),
        None => Ok(None),
    }
}

/// The subcomponents of an effective classifier, in order.
pub fn parts_of<'a>(
    alloc: Global,
    index: &Index<'a>,
    members: &[Inherited<'a, Subcomponent>],
) -> Mem<List<Part<'a>>>
    ensures { IfOk result (λ parts. parts ≡ map (part_of index.now) members.now) }
{
    let mut parts = List::new(alloc);
    for member in members {
        parts.push(Part::of(index, member))?;
    }
    Ok(parts)
}

/// A component as the text gives it: its path, where the last of its names stands, and what the name of its classifier
/// means.
#[derive(Drop)]
pub(crate) struct Occurrence<'a> {
    pub path: Path<'a>,
    pub place: Place,
    pub classifier: Meant,
}

impl<'a> Occurrence<'a> {
    /// The root, which stands in the words.
    pub(crate) fn root(alloc: Global, id: ClassifierId) -> Occurrence<'a>
        ensures { result ≡ root_of id }
    {
        Occurrence {
            path: Path::root(alloc),
            place: Place::Words,
            classifier: Ok(Some(id)),
        }
    }

    /// A subcomponent of the component of a path.
    pub(crate) fn below(alloc: Global, path: &Path<'a>, part: &Part<'a>) -> Mem<Occurrence<'a>>
        ensures { IfOk result (λ one. one ≡ occurrence_of path.now part.now) }
    {
        Ok(Occurrence {
            path: path.with(alloc, part.name())?,
            place: part.place(),
            classifier: part.classifier(),
        })
    }
}
