ghost use Rattle.std.specs.Prelude.{◌≡◌, ◌++◌, Option, IfOk, OnOk, fold, option_map};
ghost use Rattle.std.specs.HashMap.{get};
ghost use Rattle.component_extension.specs.Items.{clauses_in, clauses_of, gathered, perhaps_named, scoped_by};
ghost use Rattle.component_extension.specs.Rows.{put};
ghost use Rattle.component_extension.specs.inner.Rows.{KnowsRows, key_of_words, same_words};

use crate::classifier::Classifier;
use crate::in_package::InPackage;
use crate::rows::{KeyWords, Row, named, put};
use aadl_syntax::{
    Association, Composite, Emv2Clause, EventDecl, Flow, Identifier, Outgoing, PointItem,
    Transition, UserPath, UserPoint,
};
use package_index::Words;
use plain_values::{List, Mem};
use std::alloc::Global;
use std::collections::HashMap;
use std::marker::Model;

/// A clause of a classifier of a chain.
pub type ClauseText<'a> = InPackage<'a, Emv2Clause>;

/// An item with the number of its clause.
#[derive(Drop)]
pub struct InClause<'a, T> {
    scope: usize,
    item: &'a T,
}

impl<'a, T> Model for InClause<'a, T> {
    ghost use Rattle.std.specs.Coded.{codes};
    ghost use Rattle.component_extension.specs.Items.{Scoped};

    ghost Value = { Scoped T };

    ghost coded = { Prim.hlevel (codes, T.code) };

    ghost view = { λ s. record { scope = s.scope; item = s.item.now } };
}

impl<'a, T: ClauseItem> Row for InClause<'a, T> {
    ghost key = { λ scoped. T.key scoped.item };
}

impl<'a, T> InClause<'a, T> {
    ghost use Rattle.std.specs.Prelude.{◌≡◌};

    pub(crate) fn new(scope: usize, item: &'a T) -> InClause<'a, T>
        ensures { result ≡ record { scope = scope; item = item.now } }
    {
        InClause { scope, item }
    }

    /// The number of its clause.
    pub fn scope(&self) -> usize
        ensures { result ≡ self.now.scope }
    {
        self.scope
    }

    /// The item.
    pub fn item(&self) -> &'a T
        ensures { result.now ≡ self.now.item }
    {
        self.item
    }
}

/// A kind of error model item.
pub trait ClauseItem: Sized {
    ghost use Rattle.std.specs.Prelude.{◌≡◌, List, Option, option_map};
    ghost use Rattle.aadl_syntax.specs.declared.error_model.Emv2Clause.{Emv2Clause};
    ghost use Rattle.component_extension.specs.Rows.{Key};
    ghost use Rattle.component_extension.specs.inner.Rows.{key_of_words};

    ghost items: { Emv2Clause → List Self };

    ghost key: { Self → Option Key };

    /// The items of this kind in a clause.
    fn items(clause: &Emv2Clause) -> &[Self]
        ensures { result.now ≡ items clause.now };

    /// By what the item goes, if by anything.
    fn key(&self) -> Option<KeyWords<'_>>
        ensures { option_map key_of_words result ≡ key self.now };
}

impl ClauseItem for PointItem {
    ghost use Rattle.component_extension.specs.Items.{point_key};

    ghost items = { λ clause. clause.points };

    ghost key = { point_key };

    fn items(clause: &Emv2Clause) -> &[PointItem] {
        clause.points.items()
    }

    fn key(&self) -> Option<KeyWords<'_>> {
        Some((
            Words::Identifiers(self.point.names.items()),
            self.outward,
            self.negative,
        ))
    }
}

fn perhaps_named(name: &Option<Identifier>) -> Option<KeyWords<'_>>
    ensures { option_map key_of_words result ≡ perhaps_named name.now }
{
    match name {
        Some(name) => Some(named(name)),
        None => None,
    }
}

impl ClauseItem for Flow {
    ghost use Rattle.std.specs.Prelude.{Some};
    ghost use Rattle.component_extension.specs.Rows.{named};

    ghost items = { λ clause. clause.flows };

    ghost key = { λ item. Some (named item.name) };

    fn items(clause: &Emv2Clause) -> &[Flow] {
        clause.flows.items()
    }

    fn key(&self) -> Option<KeyWords<'_>> {
        Some(named(&self.name))
    }
}

impl ClauseItem for EventDecl {
    ghost use Rattle.std.specs.Prelude.{Some};
    ghost use Rattle.component_extension.specs.Rows.{named};

    ghost items = { λ clause. clause.events };

    ghost key = { λ item. Some (named item.name) };

    fn items(clause: &Emv2Clause) -> &[EventDecl] {
        clause.events.items()
    }

    fn key(&self) -> Option<KeyWords<'_>> {
        Some(named(&self.name))
    }
}

impl ClauseItem for UserPoint {
    ghost use Rattle.std.specs.Prelude.{Some};
    ghost use Rattle.component_extension.specs.Rows.{named};

    ghost items = { λ clause. clause.user_points };

    ghost key = { λ item. Some (named item.name) };

    fn items(clause: &Emv2Clause) -> &[UserPoint] {
        clause.user_points.items()
    }

    fn key(&self) -> Option<KeyWords<'_>> {
        Some(named(&self.name))
    }
}

impl ClauseItem for UserPath {
    ghost use Rattle.std.specs.Prelude.{Some};
    ghost use Rattle.component_extension.specs.Rows.{named};

    ghost items = { λ clause. clause.user_paths };

    ghost key = { λ item. Some (named item.name) };

    fn items(clause: &Emv2Clause) -> &[UserPath] {
        clause.user_paths.items()
    }

    fn key(&self) -> Option<KeyWords<'_>> {
        Some(named(&self.name))
    }
}

impl ClauseItem for Transition {
    ghost use Rattle.component_extension.specs.Items.{perhaps_named};

    ghost items = { λ clause. clause.transitions };

    ghost key = { λ item. perhaps_named item.name };

    fn items(clause: &Emv2Clause) -> &[Transition] {
        clause.transitions.items()
    }

    fn key(&self) -> Option<KeyWords<'_>> {
        perhaps_named(&self.name)
    }
}

impl ClauseItem for Outgoing {
    ghost use Rattle.component_extension.specs.Items.{perhaps_named};

    ghost items = { λ clause. clause.outgoing };

    ghost key = { λ item. perhaps_named item.name };

    fn items(clause: &Emv2Clause) -> &[Outgoing] {
        clause.outgoing.items()
    }

    fn key(&self) -> Option<KeyWords<'_>> {
        perhaps_named(&self.name)
    }
}

impl ClauseItem for Composite {
    ghost use Rattle.component_extension.specs.Items.{perhaps_named};

    ghost items = { λ clause. clause.composites };

    ghost key = { λ item. perhaps_named item.name };

    fn items(clause: &Emv2Clause) -> &[Composite] {
        clause.composites.items()
    }

    fn key(&self) -> Option<KeyWords<'_>> {
        perhaps_named(&self.name)
    }
}

impl ClauseItem for Association {
    ghost use Rattle.std.specs.Prelude.{None};

    ghost items = { λ clause. clause.associations };

    ghost key = { λ item. None };

    fn items(clause: &Emv2Clause) -> &[Association] {
        clause.associations.items()
    }

    fn key(&self) -> Option<KeyWords<'_>> {
        None
    }
}

/// The clauses of a chain, from the farthest classifier to the nearest.
pub(crate) fn clauses_of<'a>(
    alloc: Global,
    classifiers: &[Classifier<'a>],
) -> Mem<Vec<ClauseText<'a>>>
    ensures { IfOk result (λ clauses. clauses.items ≡ clauses_of classifiers.now) }
{
    let mut clauses = Vec::new(alloc);
    for classifier in classifiers {
        add_clauses(&mut clauses, classifier)?;
    }
    Ok(clauses)
}

fn add_clauses<'a>(clauses: &mut Vec<ClauseText<'a>>, classifier: &Classifier<'a>) -> Mem<()>
    ensures { OnOk result (clauses.new.items ≡ clauses.old.items ++ clauses_in classifier.now) }
{
    for clause in classifier.item().clauses.items() {
        clauses.push(InPackage::new(classifier.package(), clause))?;
    }
    Ok(())
}

/// The items of a kind in these clauses.
pub(crate) fn gathered<'a, T: ClauseItem>(
    alloc: Global,
    clauses: &[ClauseText<'a>],
) -> Mem<List<InClause<'a, T>>>
    ensures { IfOk result (λ rows. rows ≡ gathered T.items T.key clauses.now) }
{
    let mut places = HashMap::new(alloc);
    let mut rows = Vec::new(alloc);
    for (scope, clause) in clauses.iter().enumerate() {
        put_items(&mut places, &mut rows, scope, clause)?;
    }
    Ok(List::of(rows)?)
}

fn put_items<'a, T: ClauseItem>(
    places: &mut HashMap<KeyWords<'a>, usize>,
    rows: &mut Vec<InClause<'a, T>>,
    scope: usize,
    clause: &ClauseText<'a>,
) -> Mem<()>
    requires { KnowsRows (λ scoped. T.key scoped.item) rows.now.items (get same_words places.now) }
    ensures rows { OnOk result (rows.new.items ≡ fold (put (λ scoped. T.key scoped.item)) rows.old.items (scoped_by T.items scope clause.now)) }
    ensures knows { OnOk result (KnowsRows (λ scoped. T.key scoped.item) rows.new.items (get same_words places.new)) }
{
    for item in T::items(clause.item()) {
        put(places, rows, item.key(), InClause::new(scope, item))?;
    }
    Ok(())
}
