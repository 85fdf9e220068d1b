//! What is drawn.

use crate::usages::Usage;
use fault_system::FaultSystem;
use plain_values::{List, Name};
use property_reader::Rate;
use round_gates::Tree;

/// What a picture tells of itself: the name of the target, of which the words of the top box are made, and the lines of the
/// legend.
#[derive(Drop)]
pub struct Title {
    pub target: Name,
    pub legend: List<Name>,
}

/// What is drawn of a tree: with its system, a rate for each event, and its title, how each gate is used, and which gate is at the
/// head of its part.
#[derive(Drop)]
pub struct Sheet {
    pub system: FaultSystem,
    pub tree: Tree,
    pub rates: List<Rate>,
    pub title: Title,
    pub usages: List<Usage>,
    pub heads: List<u32>,
}
