use aadl_syntax::Identifier;
use plain_values::Spot;
use std::marker::Model;

/// A declaration: its name, and where it stands.
#[derive(Drop)]
pub(crate) struct Declaration<'a> {
    name: &'a Identifier,
    spot: Spot,
}

impl<'a> Model for Declaration<'a> {
    ghost use Rattle.event_origins.specs.Named.{Declaration as Seen};

    ghost Value = { Seen };

    ghost view = { λ d. record { name = d.name.now; spot = d.spot } };
}

impl<'a> Declaration<'a> {
    ghost use Rattle.std.specs.Prelude.{◌≡◌};

    pub(crate) fn new(name: &'a Identifier, spot: Spot) -> Declaration<'a>
        ensures { result ≡ record { name = name.now; spot = spot } }
    {
        Declaration { name, spot }
    }

    /// Its name.
    pub(crate) fn name(&self) -> &'a Identifier
        ensures { result.now ≡ self.now.name }
    {
        self.name
    }

    /// Where it stands.
    pub(crate) fn spot(&self) -> Spot
        ensures { result ≡ self.now.spot }
    {
        self.spot
    }
}
