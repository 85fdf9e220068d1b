ghost use Rattle.std.specs.Prelude.{◌≡◌, IfOk, Some};
ghost use Rattle.model_facts.specs.Assembly.{kind_model, no_model};

use crate::kind::Kind;
use error_behavior::ErrorBehavior;
use error_machines::States;
use error_models::ErrorModel;
use plain_values::{List, Mem};
use propagation_points::{Points, Sorts};
use std::alloc::Global;
use std::marker::Model;

/// The kinds of components of a model, in order, and one in which nothing happens. Contracts see their error models.
#[derive(Drop)]
pub(crate) struct Kinds<'m> {
    list: List<Kind<'m>>,
    nothing: Kind<'m>,
}

impl<'m> Model for Kinds<'m> {
    ghost use Rattle.std.specs.Prelude.{List};
    ghost use Rattle.std.specs.Coded.{codes};
    ghost use Rattle.aadl_syntax.specs.contracts.error_model.Condition as condition;
    ghost use Rattle.propagation_points.specs.contracts.side.Side as side;
    ghost use Rattle.error_conditions.specs.contracts.cause.Cause as cause;
    ghost use Rattle.error_models.specs.declared.model.ErrorModel.{ErrorModel as Seen};

    ghost Value = { List Seen };

    ghost coded = { Prim.hlevel (codes, condition.the_row.coded, side.the_row.coded, cause.the_row.coded) };

    ghost use Rattle.std.specs.Prelude.{◌≡◌};
    ghost use Rattle.model_facts.specs.Assembly.{no_model};

    ghost view = { λ k. k.list };

    ghost invariant = { λ k. k.nothing ≡ no_model };
}

impl<'m> Kinds<'m> {
    /// The kinds of these error models; `nothing` is the one of a component without a classifier.
    pub(crate) fn of(
        alloc: Global,
        models: &'m [ErrorModel<'m>],
        nothing: &'m ErrorModel<'m>,
    ) -> Mem<Kinds<'m>>
        requires { nothing.now ≡ no_model }
        ensures { IfOk result (λ kinds. kinds ≡ models.now) }
    {
        let mut list = List::new(alloc);
        for model in models {
            list.push(Kind::of(alloc, model)?)?;
        }
        let nothing = Kind::of(alloc, nothing)?;
        Ok(Kinds { list, nothing })
    }

    /// The kind of a number, and the one in which nothing happens where there is none.
    pub(crate) fn kind(&self, number: Option<usize>) -> &Kind<'m>
        ensures { result.now ≡ kind_model self.now number }
    {
        match number {
            Some(number) => self.at(number),
            None => &self.nothing,
        }
    }

    fn at(&self, number: usize) -> &Kind<'m>
        ensures { result.now ≡ kind_model self.now (Some number) }
    {
        let items = self.list.items();
        if number < items.len() {
            return &items[number];
        }
        &self.nothing
    }
}

/// The error model in which nothing happens.
pub(crate) fn no_model<'a>(alloc: Global) -> ErrorModel<'a>
    ensures { result ≡ no_model }
{
    ErrorModel {
        points: Points::new(alloc),
        states: States {
            sorts: Sorts::new(alloc),
            initial: List::new(alloc),
            always: List::new(alloc),
        },
        behavior: ErrorBehavior {
            events: Sorts::new(alloc),
            steps: List::new(alloc),
            emissions: List::new(alloc),
        },
        flows: List::new(alloc),
        sinks: List::new(alloc),
        composites: List::new(alloc),
        is_composite: false,
    }
}
