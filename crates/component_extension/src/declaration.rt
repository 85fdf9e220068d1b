use plain_values::Spot;
use std::marker::Model;

/// A declaration of a member in the package of a number; so many classifiers of the chain are farther.
#[derive(Drop)]
pub struct Declaration<'a, M> {
    level: usize,
    package: u32,
    item: &'a M,
}

impl<'a, M> Model for Declaration<'a, M> {
    ghost use Rattle.std.specs.Coded.{codes};
    ghost use Rattle.component_extension.specs.Members.{Declared};

    ghost Value = { Declared M };

    ghost coded = { Prim.hlevel (codes, M.code) };

    ghost view = { λ d. record { level = d.level; «package» = d.«package»; item = d.item.now } };
}

impl<'a, M> Declaration<'a, M> {
    ghost use Rattle.std.specs.Prelude.{◌≡◌};

    pub(crate) fn new(level: usize, home: u32, item: &'a M) -> Declaration<'a, M>
        ensures { result ≡ record { level = level; «package» = home; item = item.now } }
    {
        Declaration {
            level,
            package: home,
            item,
        }
    }

    pub(crate) fn again(&self) -> Declaration<'a, M>
        ensures { result ≡ self.now }
    {
        Declaration {
            level: self.level,
            package: self.package,
            item: self.item,
        }
    }

    /// How many classifiers of the chain are farther than that of the declaration.
    pub fn level(&self) -> usize
        ensures { result ≡ self.now.level }
    {
        self.level
    }

    /// The number of its package.
    pub fn package(&self) -> u32
        ensures { result ≡ self.now.«package» }
    {
        self.package
    }

    /// The declaration.
    pub fn item(&self) -> &'a M
        ensures { result.now ≡ self.now.item }
    {
        self.item
    }
}

/// A name that a classifier declares without `refined to`: so many classifiers of the chain are farther, and where.
#[derive(Drop)]
pub(crate) struct PlainName<'a> {
    name: &'a [u8],
    level: usize,
    spot: Spot,
}

impl<'a> Model for PlainName<'a> {
    ghost use Rattle.std.specs.Coded.{codes};
    ghost use Rattle.component_extension.specs.Members.{Mark};

    ghost Value = { Mark };

    ghost coded = { Prim.hlevel codes };

    ghost view = { λ m. record { name = m.name.now; level = m.level; spot = m.spot } };
}

impl<'a> PlainName<'a> {
    ghost use Rattle.std.specs.Prelude.{◌≡◌};

    pub(crate) fn new(name: &'a [u8], level: usize, spot: Spot) -> PlainName<'a>
        ensures { result ≡ record { name = name.now; level = level; spot = spot } }
    {
        PlainName { name, level, spot }
    }

    pub(crate) fn name(&self) -> &'a [u8]
        ensures { result.now ≡ self.now.name }
    {
        self.name
    }

    pub(crate) fn level(&self) -> usize
        ensures { result ≡ self.now.level }
    {
        self.level
    }

    pub(crate) fn spot(&self) -> Spot
        ensures { result ≡ self.now.spot }
    {
        self.spot
    }
}
