use crate::declaration::Declaration;
use crate::rows::Row;
use aadl_syntax::{Connection, Decl, Feature, Identifier, Subcomponent};
use plain_values::Spot;
use std::marker::Model;

/// A kind of member: features, subcomponents or connections.
pub trait MemberKind: Sized {
    ghost use Rattle.std.specs.Prelude.{◌≡◌};
    ghost use Rattle.component_extension.specs.Members.{Kind};

    ghost kind: { Kind Self };

    /// The members of this kind that a classifier declares.
    fn items(decl: &Decl) -> &[Self]
        ensures { result.now ≡ kind.items decl.now };

    /// The name.
    fn name(&self) -> &Identifier
        ensures { result.now ≡ kind.name self.now };

    /// Where it stands.
    fn spot(&self) -> Spot
        ensures { result ≡ kind.spot self.now };

    /// Whether it is `refined to`.
    fn is_refined(&self) -> bool
        ensures { result ≡ kind.is_refined self.now };

    /// Where it is an array: its `[`.
    fn array(&self) -> Option<Spot>
        ensures { result ≡ kind.array self.now };

    /// Whether it states its classifier or its ends.
    fn states(&self) -> bool
        ensures { result ≡ kind.states self.now };
}

impl MemberKind for Feature {
    ghost use Rattle.component_extension.specs.Members.{features};

    ghost kind = { features };

    fn items(decl: &Decl) -> &[Feature] {
        decl.features.items()
    }

    fn name(&self) -> &Identifier {
        &self.name
    }

    fn spot(&self) -> Spot {
        self.spot
    }

    fn is_refined(&self) -> bool {
        self.refined
    }

    fn array(&self) -> Option<Spot> {
        self.array
    }

    fn states(&self) -> bool {
        false
    }
}

impl MemberKind for Subcomponent {
    ghost use Rattle.component_extension.specs.Members.{subcomponents};

    ghost kind = { subcomponents };

    fn items(decl: &Decl) -> &[Subcomponent] {
        decl.subcomponents.items()
    }

    fn name(&self) -> &Identifier {
        &self.name
    }

    fn spot(&self) -> Spot {
        self.spot
    }

    fn is_refined(&self) -> bool {
        self.refined
    }

    fn array(&self) -> Option<Spot> {
        self.array
    }

    fn states(&self) -> bool {
        self.classifier.is_some()
    }
}

impl MemberKind for Connection {
    ghost use Rattle.component_extension.specs.Members.{connections};

    ghost kind = { connections };

    fn items(decl: &Decl) -> &[Connection] {
        decl.connections.items()
    }

    fn name(&self) -> &Identifier {
        &self.name
    }

    fn spot(&self) -> Spot {
        self.spot
    }

    fn is_refined(&self) -> bool {
        self.refined
    }

    fn array(&self) -> Option<Spot> {
        None
    }

    fn states(&self) -> bool {
        self.ends.is_some()
    }
}

/// A member: its nearest declaration, the nearest that states its classifier or its ends, and the nearest array.
#[derive(Drop)]
pub struct Inherited<'a, M> {
    nearest: Declaration<'a, M>,
    stated: Option<Declaration<'a, M>>,
    array: Option<Spot>,
}

impl<'a, M> Model for Inherited<'a, M> {
    ghost use Rattle.std.specs.Coded.{codes};
    ghost use Rattle.component_extension.specs.Members.{Member};

    ghost Value = { Member M };

    ghost coded = { Prim.hlevel (codes, M.code) };

    ghost view = { λ m. record { nearest = m.nearest; stated = m.stated; array = m.array } };
}

impl<'a, M: MemberKind> Row for Inherited<'a, M> {
    ghost use Rattle.component_extension.specs.Members.{member_key};

    ghost key = { member_key M.kind };
}

impl<'a, M> Inherited<'a, M> {
    ghost use Rattle.std.specs.Prelude.{◌≡◌, option_copied};

    pub(crate) fn new(
        nearest: Declaration<'a, M>,
        stated: Option<Declaration<'a, M>>,
        array: Option<Spot>,
    ) -> Inherited<'a, M>
        ensures { result ≡ record { nearest = nearest.entry; stated = stated.entry; array = array } }
    {
        Inherited {
            nearest,
            stated,
            array,
        }
    }

    /// The nearest declaration.
    pub fn nearest(&self) -> &Declaration<'a, M>
        ensures { result.now ≡ self.now.nearest }
    {
        &self.nearest
    }

    /// The nearest declaration that states the classifier of a subcomponent or the ends of a connection.
    pub fn stated(&self) -> Option<&Declaration<'a, M>>
        ensures { option_copied result ≡ self.now.stated }
    {
        self.stated.as_ref()
    }

    /// The `[` of the nearest array.
    pub fn array(&self) -> Option<Spot>
        ensures { result ≡ self.now.array }
    {
        self.array
    }
}
