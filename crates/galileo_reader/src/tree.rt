//! Fault trees by the names that their text gives, and why a text has none.

ghost use Rattle.std.specs.Prelude.{◌≡◌};

use plain_values::{List, Name};
use property_reader::Rate;
use round_gates::{GateKind, Input};
use std::alloc::{AllocError, AllocFailed};

/// A gate: its name, its kind, and its inputs in order.
#[derive(Drop)]
pub struct NamedGate {
    pub name: Name,
    pub kind: GateKind,
    pub inputs: List<Input>,
}

/// A basic event: its name and its rate, as the text writes it.
#[derive(Drop)]
pub struct NamedEvent {
    pub name: Name,
    pub rate: Rate,
}

/// A static fault tree: its top, and its gates and its basic events, each numbered from 0 by their places in these lists.
#[derive(Drop)]
pub struct NamedTree {
    pub top: Input,
    pub gates: List<NamedGate>,
    pub events: List<NamedEvent>,
}

/// What is wrong with a text; a place is a byte of it, from 0. Of several the first variant comes, and of one variant the
/// least place; of the first two, which are of lines, the least place.
#[derive(Clone, Copy)]
pub enum Flaw {
    /// What stands in a line is none, or the text ends in it; its first byte that is not a blank.
    BadLine(u32),
    /// The same, and what stands there is a name and the word of a dynamic gate; the name. The wide reading alone knows these words.
    DynamicGate(u32),
    /// A line says that its gate has another number of inputs than it names; the line.
    BadCount(u32),
    /// A second line of a name, or a second top; that line.
    DuplicateNode(u32),
    /// No line names the top.
    NoTop,
    /// An input, or the top, that no line names; the first quote of its name.
    UnknownNode(u32),
    /// A gate that reaches itself; its line.
    Cyclic(u32),
}

/// Why a text gives no tree.
#[derive(Clone, Copy)]
pub enum GalileoFault {
    /// The text is none of a static fault tree.
    Refused(Flaw),
    /// Memory was refused.
    Memory,
}

impl From<Flaw> for GalileoFault {
    ghost use Rattle.galileo_reader.specs.declared.tree.GalileoFault.TheVariants.{Refused};

    ghost from_gives = { λ flaw fault. fault ≡ Refused flaw };

    fn from(flaw: Flaw) -> GalileoFault {
        GalileoFault::Refused(flaw)
    }
}

impl From<AllocError> for GalileoFault {
    ghost use Rattle.galileo_reader.specs.declared.tree.GalileoFault.TheVariants.{Memory};

    ghost from_gives = { λ _ fault. fault ≡ Memory };

    fn from(_error: AllocError) -> GalileoFault {
        GalileoFault::Memory
    }
}

impl<T: Drop> From<AllocFailed<T>> for GalileoFault {
    ghost use Rattle.galileo_reader.specs.declared.tree.GalileoFault.TheVariants.{Memory};

    ghost from_gives = { λ _ fault. fault ≡ Memory };

    fn from(_error: AllocFailed<T>) -> GalileoFault {
        GalileoFault::Memory
    }
}
