ghost use Rattle.std.specs.Prelude.{◌≡◌};
ghost use Rattle.model_facts.specs.Assembly.{side_numbers};

use propagation_points::Side;

/// The types that are declared for a side.
pub(crate) fn side_numbers(side: &Side) -> &[u32]
    ensures { result.now ≡ side_numbers side.now }
{
    match side {
        Side::Absent | Side::Free => &[],
        Side::Declared(types) => types.items(),
    }
}
