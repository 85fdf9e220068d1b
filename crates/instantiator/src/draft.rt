ghost use Rattle.std.specs.Prelude.{◌≡◌, ◌≤◌, [], length, None, Some, IfOk, IfErr, MatchResult};
ghost use Rattle.instantiator.specs.Components.{found};
ghost use Rattle.plain_values.specs.inner.Stops.{StopsAt};
ghost use Rattle.instantiator.specs.Refused.{component_group, component_refusal, limit_refusal};
ghost use Rattle.noted_refusals.specs.inner.Noted.{TellsFirst};
ghost use Rattle.instantiator.specs.inner.Tables.{Added};

use crate::kinds::Kinds;
use crate::occurrence::{Meant, Occurrence};
use crate::path::Component;
use noted_refusals::Refusals;
use package_index::{ClassifierId, Index};
use plain_values::{Answer, Code, List, Refusal, Stop};
use std::alloc::Global;

/// The components of an instance so far, and their kinds.
#[derive(Drop)]
pub(crate) struct Draft<'i, 'a> {
    pub kinds: Kinds<'i, 'a>,
    pub components: List<Component<'a>>,
}

impl<'i, 'a> Draft<'i, 'a> {
    /// No components yet.
    pub(crate) fn new(alloc: Global, index: &'i Index<'a>) -> Draft<'i, 'a>
        ensures { result ≡ record { kinds = record { packages = index.now; ids = [] }; components = [] } }
    {
        Draft {
            kinds: Kinds::new(alloc, index),
            components: List::new(alloc),
        }
    }

    /// Adds a component, and gives the number of its kind if it has a classifier.
    pub(crate) fn add(
        &mut self,
        alloc: Global,
        one: &Occurrence<'a>,
        refusals: &mut Refusals,
    ) -> Answer<Option<usize>>
        ensures added { MatchResult result (Added self.old self.new one.now) (StopsAt (component_refusal self.old.kinds.packages (length self.old.components) one.now)) }
        ensures told { IfErr result (TellsFirst (component_group self.old.kinds.packages (length self.old.components) one.now) refusals.new) }
    {
        if let Err(refusal) = within_limits(self.components.items().len(), one) {
            return Err(refusals.only(Stop::Refused(refusal)));
        }
        let kind = self.kinds.enter(alloc, one.classifier, refusals)?;
        self.components.push(Component {
            path: one.path.again(alloc)?,
            classifier: found(&one.classifier),
        })?;
        Ok(kind)
    }
}

/// The classifier, or none where its name is refused.
fn found(classifier: &Meant) -> Option<ClassifierId>
    ensures { result ≡ found classifier.now }
{
    match classifier {
        Ok(classifier) => *classifier,
        Err(_) => None,
    }
}

/// Refuses the component of a number where there are too many, or where it is too deep.
fn within_limits(number: usize, one: &Occurrence<'_>) -> Result<(), Refusal>
    ensures within { MatchResult result (λ _. limit_refusal number one.now ≡ None) (λ refusal. limit_refusal number one.now ≡ Some refusal) }
    ensures short { IfOk result (λ _. length one.now.path ≤ 32) }
{
    Refusal::over_limit(number >= 4096, Code::TooManyComponents, one.place)?;
    Refusal::over_limit(one.path.len() >= 33, Code::TooDeep, one.place)
}
