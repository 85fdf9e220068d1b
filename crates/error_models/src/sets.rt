ghost use Rattle.std.specs.Prelude.{◌≡◌, [], Contains, IfErr, OnOk, map};
ghost use Rattle.noted_refusals.specs.inner.Noted.{Tells, noting};
ghost use Rattle.plain_values.specs.inner.Stops.{StopsAtFirst};
ghost use Rattle.error_models.specs.Below.{kind_machine};
ghost use Rattle.error_models.specs.Refused.{all_set_refusals};

use error_machines::UsedMachine;
use error_types::Reading;
use instantiator::Instance;
use plain_values::{Answer, Mem};
use std::alloc::Global;
use used_sets::note_used_sets;

/// Tests the written sets that the components of an instance use, whose kinds have these machines.
///
/// One group, of which the first by place is answered: N2, N7, N8 and P4 of the names in them, and N2 of the libraries that
/// their texts use.
pub fn test_sets<'a>(
    alloc: Global,
    instance: &Instance<'_, 'a>,
    machines: &[Option<UsedMachine<'a>>],
    reading: &mut Reading<'_, 'a>,
) -> Answer<()>
    requires machines { machines.now ≡ map (kind_machine instance.now.packages) instance.now.kinds }
    requires packages { reading.old.types.packages ≡ instance.now.packages }
    ensures kept { reading.new.types ≡ reading.old.types }
    ensures accepted { OnOk result (all_set_refusals reading.old.types instance.now.kinds ≡ []) }
    ensures refused { IfErr result (StopsAtFirst (Contains (all_set_refusals reading.old.types instance.now.kinds))) }
    ensures told { IfErr result (Tells (all_set_refusals reading.old.types instance.now.kinds) reading.new.refusals) }
{
    reading.refusals.clear();
    note_sets(alloc, instance, machines, reading)?;
    reading.refusals.settle()?;
    Ok(())
}

/// Notes the refusals of the written sets that the components of an instance use.
fn note_sets<'a>(
    alloc: Global,
    instance: &Instance<'_, 'a>,
    machines: &[Option<UsedMachine<'a>>],
    reading: &mut Reading<'_, 'a>,
) -> Mem<()>
    requires machines { machines.now ≡ map (kind_machine instance.now.packages) instance.now.kinds }
    requires packages { reading.old.types.packages ≡ instance.now.packages }
    ensures kept { reading.new.types ≡ reading.old.types }
    ensures noted { OnOk result (reading.new.refusals ≡ noting reading.old.refusals (all_set_refusals reading.old.types instance.now.kinds)) }
{
    for (number, kind) in instance.kinds().iter().enumerate() {
        note_used_sets(alloc, &kind.effective, &machines[number], reading)?;
    }
    Ok(())
}
