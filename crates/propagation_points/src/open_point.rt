ghost use Rattle.std.specs.Prelude.{◌≡◌, ◌++◌, cond, flat_map, map, None, Some, IfOk, OnOk, option_copied};
ghost use Rattle.std.specs.List.{list_any};
ghost use Rattle.package_index.specs.Names.{only};
ghost use Rattle.propagation_points.specs.Points.{feature_point, open_points, opens_inward, opens_outward, point_words, stands_for, is_text, user_point, word_point};

use aadl_syntax::{Feature, FeatureKind, Identifier, PointItem, UserPoint};
use component_extension::{Effective, InClause, Inherited};
use plain_values::{Mem, is_same};
use std::alloc::Global;
use std::marker::Model;

/// A point before its sets are read: its name, and which of its sides are open.
#[derive(Drop)]
pub(crate) struct OpenPoint<'a> {
    name: &'a Identifier,
    inward: bool,
    outward: bool,
}

impl<'a> Model for OpenPoint<'a> {
    ghost use Rattle.std.specs.Coded.{codes};
    ghost use Rattle.propagation_points.specs.Points.{OpenPoint as Open};

    ghost Value = { Open };

    ghost coded = { Prim.hlevel codes };

    ghost view = { λ p. record { name = p.name.now; inward = p.inward; outward = p.outward } };
}

impl<'a> OpenPoint<'a> {
    ghost use Rattle.std.specs.Prelude.{◌≡◌};

    fn new(name: &'a Identifier, inward: bool, outward: bool) -> OpenPoint<'a>
        ensures { result ≡ record { name = name.now; inward = inward; outward = outward } }
    {
        OpenPoint {
            name,
            inward,
            outward,
        }
    }

    /// The name.
    pub(crate) fn name(&self) -> &'a Identifier
        ensures { result.now ≡ self.now.name }
    {
        self.name
    }

    /// Whether the inward side is open.
    pub(crate) fn inward(&self) -> bool
        ensures { result ≡ self.now.inward }
    {
        self.inward
    }

    /// Whether the outward side is open.
    pub(crate) fn outward(&self) -> bool
        ensures { result ≡ self.now.outward }
    {
        self.outward
    }
}

/// All that makes points of a component: its features, its own points, and the words for which a propagation stands.
pub(crate) fn open_points<'a>(alloc: Global, effective: &Effective<'a>) -> Mem<Vec<OpenPoint<'a>>>
    ensures { IfOk result (λ points. points.items ≡ open_points effective.now) }
{
    let mut points = Vec::new(alloc);
    add_features(&mut points, effective.members.features.items())?;
    add_user_points(&mut points, effective.propagations.user_points.items())?;
    add_words(&mut points, effective.propagations.points.items())?;
    Ok(points)
}

fn add_features<'a>(points: &mut Vec<OpenPoint<'a>>, features: &[Inherited<'a, Feature>]) -> Mem<()>
    ensures { OnOk result (points.new.items ≡ points.old.items ++ map feature_point features.now) }
{
    for feature in features {
        points.push(feature_point(feature.nearest().item()))?;
    }
    Ok(())
}

fn feature_point(feature: &Feature) -> OpenPoint<'_>
    ensures { result ≡ record { name = feature.now.name; inward = opens_inward feature.now.kind; outward = opens_outward feature.now.kind } }
{
    OpenPoint::new(
        &feature.name,
        opens_inward(feature.kind),
        opens_outward(feature.kind),
    )
}

fn opens_inward(kind: FeatureKind) -> bool
    ensures { result ≡ opens_inward kind }
{
    matches!(
        kind,
        FeatureKind::Inward | FeatureKind::Both | FeatureKind::Access
    )
}

fn opens_outward(kind: FeatureKind) -> bool
    ensures { result ≡ opens_outward kind }
{
    matches!(
        kind,
        FeatureKind::Outward | FeatureKind::Both | FeatureKind::Access
    )
}

fn add_user_points<'a>(
    points: &mut Vec<OpenPoint<'a>>,
    user_points: &[InClause<'a, UserPoint>],
) -> Mem<()>
    ensures { OnOk result (points.new.items ≡ points.old.items ++ map user_point user_points.now) }
{
    for user_point in user_points {
        points.push(OpenPoint::new(&user_point.item().name, true, true))?;
    }
    Ok(())
}

fn add_words<'a>(
    points: &mut Vec<OpenPoint<'a>>,
    propagations: &[InClause<'a, PointItem>],
) -> Mem<()>
    ensures { OnOk result (points.new.items ≡ points.old.items ++ flat_map (word_point propagations.now) point_words) }
{
    add_word(points, propagations, b"processor")?;
    add_word(points, propagations, b"memory")?;
    add_word(points, propagations, b"connection")?;
    add_word(points, propagations, b"binding")?;
    add_word(points, propagations, b"bindings")?;
    add_word(points, propagations, b"access")?;
    Ok(())
}

/// Adds the point of a word, where a propagation stands for it.
fn add_word<'a>(
    points: &mut Vec<OpenPoint<'a>>,
    propagations: &[InClause<'a, PointItem>],
    word: &[u8],
) -> Mem<()>
    ensures { OnOk result (points.new.items ≡ points.old.items ++ word_point propagations.now word.now) }
{
    if let Some(name) = find_word(propagations, word) {
        points.push(OpenPoint::new(name, false, false))?;
    }
    Ok(())
}

/// The word as it stands in a propagation for it.
fn find_word<'a>(propagations: &[InClause<'a, PointItem>], word: &[u8]) -> Option<&'a Identifier>
    ensures { option_copied result ≡ cond (list_any (stands_for word.now) propagations.now) (Some word.now) None }
{
    for propagation in propagations {
        if let Some(name) = word_in(propagation.item(), word) {
            return Some(name);
        }
    }
    None
}

fn word_in<'a>(propagation: &'a PointItem, word: &[u8]) -> Option<&'a Identifier>
    ensures { option_copied result ≡ cond (is_text word.now (only propagation.now.point.names)) (Some word.now) None }
{
    let name = only_name(propagation.point.names.items())?;
    if is_same(name.text(), word) {
        Some(name)
    } else {
        None
    }
}

/// The name of a point that is not dotted.
pub fn only_name(names: &[Identifier]) -> Option<&Identifier>
    ensures { option_copied result ≡ only names.now }
{
    if names.len() != 1 {
        return None;
    }
    Some(&names[0])
}
