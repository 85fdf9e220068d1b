ghost use Rattle.cut_reports.specs.declared.stop.ReportStop.TheVariants.{Memory};
ghost use Rattle.std.specs.Prelude.{◌≡◌};

use std::alloc::AllocError;

/// Why there is no text of the reports.
#[derive(Clone, Copy, Debug, PartialEq, Eq)]
pub enum ReportStop {
    /// The report at this place failed.
    Fault(u32),
    /// Memory was wanting.
    Memory,
}

impl From<AllocError> for ReportStop {
    ghost from_gives = { λ _ e. e ≡ Memory };

    fn from(_error: AllocError) -> ReportStop {
        ReportStop::Memory
    }
}
