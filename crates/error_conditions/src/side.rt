ghost use Rattle.std.specs.Prelude.{◌≡◌};
ghost use Rattle.error_conditions.specs.inner.Sides.{other_side};

/// A side of the meaning of a condition: where it may hold, or where it may fail.
#[derive(Clone, Copy)]
pub enum Side {
    Holds,
    Fails,
}

impl Side {
    /// The other side.
    pub(crate) fn other(self) -> Side
        ensures { result ≡ other_side self }
    {
        match self {
            Side::Holds => Side::Fails,
            Side::Fails => Side::Holds,
        }
    }
}
