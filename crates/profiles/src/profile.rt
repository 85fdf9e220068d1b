ghost use Rattle.std.specs.Prelude.{◌≡◌};
ghost use Rattle.profiles.specs.Profiles.{is_first};

/// How the text of a model is read.
#[derive(Clone, Copy)]
pub enum Profile {
    /// What has no meaning by which more failures only make more states hold is refused.
    First,
    /// A condition has two meanings: where it may hold, and where it may fail to.
    Second,
}

impl Profile {
    /// Whether it is the first.
    pub fn is_first(self) -> bool
        ensures { result ≡ is_first self }
    {
        matches!(self, Profile::First)
    }
}
