ghost use Rattle.std.specs.Prelude.{◌∷◌, []};
ghost use Rattle.model_facts.specs.inner.Steps.{Adds};

use plain_values::{Answer, Code, List, Refusal, Stop};

/// Adds an item at the end of a list, unless there are as many as there may be. The code is that of the refusal.
pub(crate) fn push_within<T: Drop>(
    list: &mut List<T>,
    item: T,
    limit: usize,
    code: Code,
) -> Answer<()>
    ensures { Adds limit code list.old list.new (item ∷ []) result }
{
    if list.items().len() >= limit {
        return Err(Stop::Refused(Refusal::of_words(code)));
    }
    list.push(item)?;
    Ok(())
}
