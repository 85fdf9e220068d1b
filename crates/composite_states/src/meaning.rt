use error_conditions::Cause;
use plain_values::List;

/// What a clause of composite states means: the component is in each of the targets, which are variants of a state by their numbers
/// from 0, where the condition is true. A clause of `others` has no condition, and makes nothing true.
#[derive(Drop)]
pub struct ClauseMeaning {
    pub targets: List<u32>,
    pub condition: Option<Cause>,
}
