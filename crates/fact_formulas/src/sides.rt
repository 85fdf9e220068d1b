ghost use Rattle.std.specs.Prelude.{◌≡◌};
ghost use Rattle.fact_formulas.specs.Facts.{fact_at};

use model_facts::{FactKey, FactKind};
use propagation_links::PointAt;

/// The fact that a type is at a side.
pub fn fact_at(number: u32, side: PointAt) -> FactKey
    ensures { result ≡ fact_at number side }
{
    let kind = if side.outward {
        FactKind::Exits(side.point, number)
    } else {
        FactKind::Enters(side.point, number)
    };
    FactKey {
        owner: side.component,
        kind,
    }
}
