//! The walks of a review: what is told of each link, and of each component by itself, by its points, or by its states.

ghost use Rattle.std.specs.Prelude.{◌≡◌, ℕ, ◌++◌, OnOk, flat_map};
ghost use Rattle.plain_values.specs.Numbered.{numbered_from, numbers_below};
ghost use Rattle.model_facts.specs.Assembly.{model_at};
ghost use Rattle.model_review.specs.Findings.{of_components};

use crate::finding::Finding;
use crate::view::View;
use error_models::ErrorModel;
use plain_values::{List, Mem};
use propagation_links::Link;
use propagation_points::Point;
use std::alloc::{AllocError, Global};

/// What may be told of a link.
pub(crate) trait LinkFinding {
    ghost use Rattle.std.specs.Prelude.{◌≡◌, ◌++◌, List, OnOk};
    ghost use Rattle.propagation_links.specs.declared.link.Link.{Link as Joined};
    ghost use Rattle.model_review.specs.Seen.{Seen};
    ghost use Rattle.model_review.specs.declared.finding.Finding.{Finding as Told};

    ghost finding: { Self → Seen → Joined → List Told };

    /// Tells it, where it is so.
    fn tell(&self, alloc: Global, found: &mut List<Finding>, view: &View, link: Link) -> Mem<()>
        ensures { OnOk result (found.new ≡ found.old ++ finding self.now view.now link) };
}

/// What may be told of a component with its error model. Of one without a classifier, which has nothing in it, nothing is told.
pub(crate) trait ComponentFinding {
    ghost use Rattle.std.specs.Prelude.{◌≡◌, ℕ, ◌++◌, [], List, OnOk};
    ghost use Rattle.error_models.specs.declared.model.ErrorModel.{ErrorModel as Parts};
    ghost use Rattle.model_facts.specs.Assembly.{no_model};
    ghost use Rattle.model_review.specs.Seen.{Seen};
    ghost use Rattle.model_review.specs.declared.finding.Finding.{Finding as Told};

    /// What it must know of a model.
    ghost fits: { Self → Seen → Type 0 } = { λ _ _. Unit {0} };

    ghost finding: { Self → Seen → ℕ → Parts → List Told };

    /// Tells it, where it is so.
    fn tell(
        &self,
        alloc: Global,
        found: &mut List<Finding>,
        view: &View,
        owner: u32,
        model: &ErrorModel,
    ) -> Mem<()>
        requires { fits self.now view.now }
        ensures { OnOk result (found.new ≡ found.old ++ finding self.now view.now owner model.now) };

    ghost nothing: { (told : Self) (seen : Seen) (owner : ℕ) → finding told seen owner no_model ≡ [] };
}

/// Where a point stands: its component, and its place among the points there, from 0.
#[derive(Clone, Copy)]
pub(crate) struct PointPlace {
    pub owner: u32,
    pub number: u32,
}

/// What may be told of a point of a component.
pub(crate) trait PointFinding {
    ghost use Rattle.std.specs.Prelude.{◌≡◌, ℕ, ◌++◌, List, OnOk};
    ghost use Rattle.propagation_points.specs.Points.{Point as Sides};
    ghost use Rattle.model_review.specs.Seen.{Seen};
    ghost use Rattle.model_review.specs.declared.finding.Finding.{Finding as Told};

    /// What it must know of a model.
    ghost fits: { Self → Seen → Type 0 } = { λ _ _. Unit {0} };

    ghost finding: { Self → Seen → ℕ → ℕ → Sides → List Told };

    /// Tells it, where it is so.
    fn tell(
        &self,
        alloc: Global,
        found: &mut List<Finding>,
        view: &View,
        at: PointPlace,
        point: &Point,
    ) -> Mem<()>
        requires { fits self.now view.now }
        ensures { OnOk result (found.new ≡ found.old ++ finding self.now view.now at.owner at.number point.now) };
}

/// What may be told of a state of a component.
pub(crate) trait StateFinding {
    ghost use Rattle.std.specs.Prelude.{◌≡◌, ℕ, ◌++◌, List, OnOk};
    ghost use Rattle.error_models.specs.declared.model.ErrorModel.{ErrorModel as Parts};
    ghost use Rattle.model_review.specs.Seen.{Seen};
    ghost use Rattle.model_review.specs.declared.finding.Finding.{Finding as Told};

    ghost finding: { Self → Seen → ℕ → Parts → ℕ → List Told };

    /// Tells it, where it is so.
    fn tell(
        &self,
        found: &mut List<Finding>,
        view: &View,
        owner: u32,
        model: &ErrorModel,
        state: u32,
    ) -> Mem<()>
        ensures { OnOk result (found.new ≡ found.old ++ finding self.now view.now owner model.now state) };
}

// ---- links

/// Adds what is told of each link, in order.
pub(crate) fn add_of_links<F: LinkFinding>(
    alloc: Global,
    found: &mut List<Finding>,
    view: &View,
    told: &F,
) -> Mem<()>
    ensures { OnOk result (found.new ≡ found.old ++ flat_map (F.finding told.now view.now) view.now.numbered.assembly.links) }
{
    for link in view.links() {
        told.tell(alloc, found, view, *link)?;
    }
    Ok(())
}

// ---- components

/// Adds what is told of each component, in order.
pub(crate) fn add_of_components<F: ComponentFinding>(
    alloc: Global,
    found: &mut List<Finding>,
    view: &View,
    told: &F,
) -> Mem<()>
    requires { F.fits told.now view.now }
    ensures { OnOk result (found.new ≡ found.old ++ of_components view.now (F.finding told.now view.now)) }
{
    for owner in 0..view.instance().components().len() {
        add_of_component(alloc, found, view, told, owner as u32)?;
    }
    Ok(())
}

/// Adds what is told of one component.
pub(crate) fn add_of_component<F: ComponentFinding>(
    alloc: Global,
    found: &mut List<Finding>,
    view: &View,
    told: &F,
    owner: u32,
) -> Mem<()>
    requires { F.fits told.now view.now }
    ensures { OnOk result (found.new ≡ found.old ++ F.finding told.now view.now owner (model_at view.now.numbered.assembly owner)) }
{
    match view.model(owner) {
        Some(model) => told.tell(alloc, found, view, owner, model),
        None => Ok(()),
    }
}

// ---- points

/// What is told of a component by its points, in order.
#[derive(Drop)]
pub(crate) struct AtPoints<P>(pub P);

impl<P: PointFinding> ComponentFinding for AtPoints<P> {
    ghost use Rattle.std.specs.Prelude.{refl};
    ghost use Rattle.plain_values.specs.Numbered.{numbered_from};

    ghost fits = { λ told seen. P.fits told.0 seen };

    ghost finding = { λ told seen owner model. numbered_from (P.finding told.0 seen owner) 0 model.points };

    fn tell(
        &self,
        alloc: Global,
        found: &mut List<Finding>,
        view: &View,
        owner: u32,
        model: &ErrorModel,
    ) -> Mem<()> {
        add_of_points(alloc, found, view, &self.0, owner, model.points.list())
    }

    ghost nothing = { λ told seen owner. refl };
}

fn add_of_points<P: PointFinding>(
    alloc: Global,
    found: &mut List<Finding>,
    view: &View,
    told: &P,
    owner: u32,
    points: &[Point],
) -> Mem<()>
    requires { P.fits told.now view.now }
    ensures { OnOk result (found.new ≡ found.old ++ numbered_from (P.finding told.now view.now owner) 0 points.now) }
{
    for (number, point) in points.iter().enumerate() {
        if number > 4_294_967_295 {
            return Err(AllocError);
        }
        let at = PointPlace {
            owner,
            number: number as u32,
        };
        told.tell(alloc, found, view, at, point)?;
    }
    Ok(())
}

// ---- states

/// What is told of a component by its states, in order.
#[derive(Drop)]
pub(crate) struct AtStates<S>(pub S);

impl<S: StateFinding> ComponentFinding for AtStates<S> {
    ghost use Rattle.std.specs.Prelude.{refl, length, flat_map};
    ghost use Rattle.plain_values.specs.Numbered.{numbers_below};
    ghost use Rattle.propagation_points.specs.States.{all_variants};

    ghost finding = { λ told seen owner model. flat_map (S.finding told.0 seen owner model) (numbers_below (length (all_variants model.states.sorts))) };

    fn tell(
        &self,
        alloc: Global,
        found: &mut List<Finding>,
        view: &View,
        owner: u32,
        model: &ErrorModel,
    ) -> Mem<()> {
        let _ = alloc;
        let count = model.states.sorts.variants().len();
        add_of_states(found, view, &self.0, owner, model, count)
    }

    ghost nothing = { λ told seen owner. refl };
}

fn add_of_states<S: StateFinding>(
    found: &mut List<Finding>,
    view: &View,
    told: &S,
    owner: u32,
    model: &ErrorModel,
    count: usize,
) -> Mem<()>
    ensures { OnOk result (found.new ≡ found.old ++ flat_map (S.finding told.now view.now owner model.now) (numbers_below count)) }
{
    for state in 0..count {
        if state > 4_294_967_295 {
            return Err(AllocError);
        }
        told.tell(found, view, owner, model, state as u32)?;
    }
    Ok(())
}
