use std::marker::Model;

/// What stands in a package, with the number of the package.
#[derive(Drop)]
pub struct InPackage<'a, T> {
    package: u32,
    item: &'a T,
}

impl<'a, T> Model for InPackage<'a, T> {
    ghost use Rattle.std.specs.Coded.{codes};
    ghost use Rattle.component_extension.specs.Members.{InPackage as Placed};

    ghost Value = { Placed T };

    ghost coded = { Prim.hlevel (codes, T.code) };

    ghost view = { λ p. record { «package» = p.«package»; item = p.item.now } };
}

impl<'a, T> InPackage<'a, T> {
    ghost use Rattle.std.specs.Prelude.{◌≡◌};

    pub(crate) fn new(home: u32, item: &'a T) -> InPackage<'a, T>
        ensures { result ≡ record { «package» = home; item = item.now } }
    {
        InPackage {
            package: home,
            item,
        }
    }

    /// The number of the package.
    pub fn package(&self) -> u32
        ensures { result ≡ self.now.«package» }
    {
        self.package
    }

    /// What stands there.
    pub fn item(&self) -> &'a T
        ensures { result.now ≡ self.now.item }
    {
        self.item
    }
}
