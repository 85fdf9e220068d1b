ghost use Rattle.std.specs.Prelude.{◌≡◌, ◌<◌, ◌||◌, Contains, OnOk};
ghost use Rattle.zdd_store.specs.inner.Store.{Keeps};
ghost use Rattle.cutset_engine.specs.inner.Filling.{IsFilling, IsFilled, Steps, HaveTheirCauses, task_of};

use crate::formulas::formula_family;
use crate::setting::Setting;
use plain_values::Mem;
use std::alloc::Global;
use zdd_store::{Id, Store};

/// Makes the family of a fact anew from those that all facts have now; whether it is another one.
pub(crate) fn fill_fact(
    alloc: Global,
    store: &mut Store,
    setting: &Setting<'_>,
    now: &mut [Id],
    number: u32,
) -> Mem<bool>
    requires { IsFilling (task_of setting.now) store.old now.old }
    ensures { Steps (task_of setting.now) store.old store.new now.old now.new
        (λ n. n ≡ number) result }
{
    let at = number as usize;
    let Some(fact) = setting.system.fact(number) else {
        return Ok(false);
    };
    let family = formula_family(alloc, store, setting, now, &fact.formula)?;
    let changed = family != now[at];
    now[at] = family;
    Ok(changed)
}

/// Makes the families of some facts anew, one after another; whether one is another than before.
fn sweep(
    alloc: Global,
    store: &mut Store,
    setting: &Setting<'_>,
    numbers: &[u32],
    now: &mut [Id],
) -> Mem<bool>
    requires { IsFilling (task_of setting.now) store.old now.old }
    ensures { Steps (task_of setting.now) store.old store.new now.old now.new
        (Contains numbers.now) result }
{
    let mut changed = false;
    for number in numbers {
        let here = fill_fact(alloc, store, setting, now, *number)?;
        changed = either(changed, here);
    }
    Ok(changed)
}

fn either(a: bool, b: bool) -> bool
    ensures { result ≡ (a || b) }
{
    a || b
}

/// Sweeps over some facts until nothing changes, at most as often as there are facts: then all is covered that holds.
pub(crate) fn fill(
    alloc: Global,
    store: &mut Store,
    setting: &Setting<'_>,
    numbers: &[u32],
    now: &mut [Id],
) -> Mem<()>
    requires filling { IsFilling (task_of setting.now) store.old now.old }
    requires causes { HaveTheirCauses setting.now.system.now numbers.now }
    ensures kept { Keeps store.old store.new }
    ensures filled { OnOk result
        (IsFilled (task_of setting.now) numbers.now store.new now.new) }
{
    for round in 0..setting.system.facts() {
        if !sweep(alloc, store, setting, numbers, now)? {
            return Ok(());
        }
    }
    Ok(())
}
