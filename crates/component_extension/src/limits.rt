ghost use Rattle.std.specs.Prelude.{◌≡◌, flat_map, option_and_then};
ghost use Rattle.noted_refusals.specs.inner.Noted.{noting};
ghost use Rattle.component_extension.specs.Members.{connection_limits, feature_limits, is_feature_group, is_group_connection, subcomponent_limits};

use crate::member::{Inherited, MemberKind};
use aadl_syntax::{Connection, ConnectionKind, Feature, FeatureKind, Subcomponent};
use noted_refusals::Refusals;
use plain_values::{Code, Spot};

/// A kind of member, with what is not supported of it.
pub trait Limited: MemberKind {
    ghost use Rattle.std.specs.Prelude.{◌≡◌, List};
    ghost use Rattle.noted_refusals.specs.inner.Noted.{noting};
    ghost use Rattle.plain_values.specs.declared.refusal.Refusal.{Refusal};
    ghost use Rattle.component_extension.specs.Members.{Member};

    ghost limits: { Member Self → List Refusal };

    /// Notes what is not supported of a member.
    fn note_limits(refusals: &mut Refusals, member: &Inherited<'_, Self>)
        ensures { refusals.new ≡ noting refusals.old (limits member.now) };
}

impl Limited for Feature {
    ghost limits = { feature_limits };

    #[tactic(auto, using(noted_refusals::proofs::Noting::noted_more))]
    fn note_limits(refusals: &mut Refusals, member: &Inherited<'_, Feature>) {
        let feature = member.nearest().item();
        refusals.note_at(Code::Array, member.array());
        refusals.note_if(
            is_feature_group(feature.kind),
            Code::FeatureGroup,
            feature.spot,
        );
    }
}

impl Limited for Subcomponent {
    ghost limits = { subcomponent_limits };

    #[tactic(auto, using(noted_refusals::proofs::Noting::noted_more))]
    fn note_limits(refusals: &mut Refusals, member: &Inherited<'_, Subcomponent>) {
        refusals.note_at(Code::Array, member.array());
        refusals.note_at(Code::Prototype, bindings(member));
    }
}

impl Limited for Connection {
    ghost limits = { connection_limits };

    fn note_limits(refusals: &mut Refusals, member: &Inherited<'_, Connection>) {
        let connection = member.nearest().item();
        refusals.note_if(
            is_group_connection(connection.kind),
            Code::FeatureGroup,
            connection.spot,
        );
    }
}

fn bindings(member: &Inherited<'_, Subcomponent>) -> Option<Spot>
    ensures { result ≡ option_and_then (λ declared. declared.item.binds) member.now.stated }
{
    match member.stated() {
        Some(stated) => stated.item().binds,
        None => None,
    }
}

fn is_feature_group(kind: FeatureKind) -> bool
    ensures { result ≡ is_feature_group kind }
{
    matches!(kind, FeatureKind::Group)
}

fn is_group_connection(kind: ConnectionKind) -> bool
    ensures { result ≡ is_group_connection kind }
{
    matches!(kind, ConnectionKind::Group)
}

/// Notes what is not supported of members.
pub(crate) fn note_all<'a, M: Limited>(refusals: &mut Refusals, members: &[Inherited<'a, M>])
    ensures { refusals.new ≡ noting refusals.old (flat_map M.limits members.now) }
{
    for member in members {
        M::note_limits(refusals, member);
    }
}
