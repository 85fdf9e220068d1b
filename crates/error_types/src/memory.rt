use crate::row::Row;
use plain_values::{List, Refusal};
use std::collections::HashMap;

/// What is remembered of an item: the first refusal from it on, the number of the row of the types that it names, and in fewer
/// than how many steps each way on from it ends, or 0 where that is not known.
#[derive(Clone, Copy)]
pub(crate) struct Reached {
    pub(crate) first: Option<Refusal>,
    pub(crate) row: u32,
    pub(crate) depth: u32,
}

/// What is remembered of items, by the numbers of their packages and places: what they reach, and whether that was looked for.
#[derive(Drop)]
pub(crate) struct Memory {
    pub(crate) rows: List<Row>,
    pub(crate) items: HashMap<(u32, u32), Reached>,
    pub(crate) tried: HashMap<(u32, u32), bool>,
}
