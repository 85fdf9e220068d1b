use crate::ruling::Ruling;
use plain_values::Name;

/// The verdict on a requirement, and the name of this as the text has it.
#[derive(Drop)]
pub struct Judgement {
    pub name: Name,
    pub ruling: Ruling,
}
