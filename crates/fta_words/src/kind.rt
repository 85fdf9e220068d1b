/// Which command is asked for. Its row of the table has the same place.
#[derive(Clone, Copy)]
pub enum Kind {
    Check,
    Cuts,
    Tree,
    Fmea,
    Report,
    Make,
    Galileo,
    Paths,
    Why,
    Confirm,
    Targets,
    Events,
    Review,
    Place,
    Manifest,
    Refusals,
    Probability,
    Require,
    Compare,
    Explain,
    Help,
    Version,
}

/// All commands, in order.
pub const KINDS: [Kind; 22] = [
    Kind::Check,
    Kind::Cuts,
    Kind::Tree,
    Kind::Fmea,
    Kind::Report,
    Kind::Make,
    Kind::Galileo,
    Kind::Paths,
    Kind::Why,
    Kind::Confirm,
    Kind::Targets,
    Kind::Events,
    Kind::Review,
    Kind::Place,
    Kind::Manifest,
    Kind::Refusals,
    Kind::Probability,
    Kind::Require,
    Kind::Compare,
    Kind::Explain,
    Kind::Help,
    Kind::Version,
];

/// Which plain words follow the name of a command.
#[derive(Clone, Copy)]
pub enum Shape {
    /// `ROOT FILE..`
    Model,
    /// `ROOT TARGET FILE..`
    Target,
    /// `ROOT TARGET DERIVATION FILE..`
    Derivation,
    /// `ROOT REQUIREMENTS FILE..`
    Requirements,
    /// `ROOT TARGET FILE.. to FILE..`
    Compared,
    /// `N`, from 1 to 512
    Number,
    /// `FILE`
    File,
    /// `FILE BYTE`
    Place,
    /// the name of the code of a refusal
    Code,
    /// the name of a command, or nothing
    Topic,
    /// nothing
    Alone,
}
