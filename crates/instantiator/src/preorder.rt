ghost use Rattle.std.specs.Prelude.{◌≤◌, ◌-◌, length, IfErr, MatchResult};
ghost use Rattle.instantiator.specs.Components.{preorder};
ghost use Rattle.plain_values.specs.inner.Stops.{StopsAt};
ghost use Rattle.instantiator.specs.Refused.{first_refusal, groups_from};
ghost use Rattle.noted_refusals.specs.inner.Noted.{TellsFirst};
ghost use Rattle.instantiator.specs.inner.Tables.{Grown};

use crate::draft::Draft;
use crate::occurrence::Occurrence;
use noted_refusals::Refusals;
use plain_values::Answer;
use std::alloc::Global;

/// Adds a component and all that is below it, in preorder.
pub(crate) fn add_all<'a>(
    alloc: Global,
    draft: &mut Draft<'_, 'a>,
    one: &Occurrence<'a>,
    refusals: &mut Refusals,
) -> Answer<()>
    requires { length one.now.path ≤ 33 }
    ensures grown { MatchResult result (λ _. Grown draft.old draft.new (preorder (34 - length one.now.path) draft.old.kinds.packages one.now)) (StopsAt (first_refusal draft.old.kinds.packages (length draft.old.components) (preorder (34 - length one.now.path) draft.old.kinds.packages one.now))) }
    ensures told { IfErr result (TellsFirst (groups_from draft.old.kinds.packages (length draft.old.components) (preorder (34 - length one.now.path) draft.old.kinds.packages one.now)) refusals.new) }
{
    let kind = draft.add(alloc, one, refusals)?;
    let parts = draft.kinds.parts(alloc, kind)?;
    for part in parts.items() {
        let below = Occurrence::below(alloc, &one.path, part)?;
        add_all(alloc, draft, &below, refusals)?;
    }
    Ok(())
}
