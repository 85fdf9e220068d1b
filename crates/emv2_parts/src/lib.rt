//! What error model text is made of: its names and points, sets of types, properties, error types and conditions, read into the syntax
//! types.
#![tactic(auto)]

mod conditions;
mod naming;
mod properties;
mod types;
mod words;

pub use conditions::whole_condition;
pub use naming::{
    FlowEnd, block_end, condition_close, condition_open, dotted_names, flow_end, label, names,
    optional_set, point, point_word, reference, state_reference, type_set, use_types_after,
};
pub use properties::properties_after;
pub use types::types_block;
pub use words::{
    clause_part_at, component_block_at, composite_at, error_name, library_block_at,
    machine_block_at, name_at, paths_at, point_at, point_name, point_word_at, propagations_at,
    source_at, transitions_at,
};
