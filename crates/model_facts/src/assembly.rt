ghost use Rattle.std.specs.Prelude.{◌≡◌, IfOk, map, option_copied, unwrap_or};
ghost use Rattle.model_facts.specs.Assembly.{model_at, no_model, points_in};

use error_models::ErrorModel;
use error_types::TypeTable;
use instantiator::Instance;
use plain_values::{List, Mem};
use propagation_links::Link;
use propagation_points::Points;
use std::alloc::Global;
use std::marker::Model;

/// A model put together: the components of an instance, the types that its packages declare, the error model of each of its
/// kinds, in order, and the links between its points.
#[derive(Drop)]
pub struct Assembly<'m> {
    instance: &'m Instance<'m, 'm>,
    types: &'m TypeTable<'m, 'm>,
    models: &'m [ErrorModel<'m>],
    links: &'m [Link],
}

impl<'m> Model for Assembly<'m> {
    ghost use Rattle.std.specs.Coded.{codes};
    ghost use Rattle.aadl_syntax.specs.contracts.error_model.Condition as condition;
    ghost use Rattle.propagation_points.specs.contracts.side.Side as side;
    ghost use Rattle.error_conditions.specs.contracts.cause.Cause as cause;
    ghost use Rattle.model_facts.specs.Assembly.{Assembly as Seen};

    ghost Value = { Seen };

    ghost coded = { Prim.hlevel (codes, condition.the_row.coded, side.the_row.coded, cause.the_row.coded) };

    ghost view = { λ a. record { instance = a.instance.now; types = a.types.now; models = a.models.now; links = a.links.now } };
}

impl<'m> Assembly<'m> {
    /// An instance with these types, models of its kinds, and links.
    pub fn new(
        instance: &'m Instance<'m, 'm>,
        types: &'m TypeTable<'m, 'm>,
        models: &'m [ErrorModel<'m>],
        links: &'m [Link],
    ) -> Assembly<'m>
        ensures { result ≡ record { instance = instance.now; types = types.now; models = models.now; links = links.now } }
    {
        Assembly {
            instance,
            types,
            models,
            links,
        }
    }

    /// The instance.
    pub fn instance(&self) -> &'m Instance<'m, 'm>
        ensures { result.now ≡ self.now.instance }
    {
        self.instance
    }

    /// The types.
    pub fn types(&self) -> &'m TypeTable<'m, 'm>
        ensures { result.now ≡ self.now.types }
    {
        self.types
    }

    /// The error models of the kinds, in order.
    pub fn models(&self) -> &'m [ErrorModel<'m>]
        ensures { result.now ≡ self.now.models }
    {
        self.models
    }

    /// The links.
    pub fn links(&self) -> &'m [Link]
        ensures { result.now ≡ self.now.links }
    {
        self.links
    }

    /// The error model of the component of a number; none where it has no classifier, and so nothing in it.
    pub fn model(&self, component: u32) -> Option<&'m ErrorModel<'m>>
        ensures { unwrap_or (option_copied result) no_model ≡ model_at self.now component }
    {
        self.models.get(self.instance.kind(component)?)
    }
}

/// The points of models, in order.
pub fn points_of_models<'m, 'a>(
    alloc: Global,
    models: &'m [ErrorModel<'a>],
) -> Mem<List<&'m Points<'a>>>
    ensures { IfOk result (λ points. map (λ points. points.now) points ≡ points_in models.now) }
{
    let mut points = List::new(alloc);
    for model in models {
        points.push(&model.points)?;
    }
    Ok(points)
}
