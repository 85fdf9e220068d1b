//! The form in which the tree of a target is written.

use dot_writer::DotLines;
use galileo_writer::TreeLines;
use open_psa_writer::MefLines;
use plain_values::{List, Name};

/// The format of a tree's text.
#[derive(Clone, Copy)]
pub enum TreeFormat {
    /// Galileo text.
    Galileo,
    /// The Open-PSA Model Exchange Format.
    Mef,
    /// A picture in the language of Graphviz (DOT).
    Dot,
}

/// How a tree is written.
#[derive(Drop)]
pub struct TreeForm {
    pub format: TreeFormat,
    /// Whether its gates are merged.
    pub merged: bool,
    /// Whether each of its events must have a rate.
    pub rated: bool,
    /// The lines of the legend of a picture.
    pub legend: List<Name>,
}

/// The text of a tree, of which each part is made as it is written.
#[derive(Drop)]
pub enum TreeText {
    Galileo(TreeLines),
    Mef(MefLines),
    Dot(DotLines),
}
