ghost use Rattle.std.specs.Prelude.{◌≡◌, ℕ, map, Some, OnOk};
ghost use Rattle.std.specs.List.{AllByRecursion};
ghost use Rattle.aadl_syntax.specs.inner.Token.{IsIdentifier};
ghost use Rattle.error_libraries.specs.Printed.{TypeName, name_of};
ghost use Rattle.error_libraries.specs.inner.Printed.{AreIdentifiers};
ghost use Rattle.model_facts.specs.inner.Laws.{AreNamed, IsNamed, IsNamedFlow};

use crate::assembly::Assembly;
use crate::universe::count_types;
use aadl_syntax::Identifier;
use error_flows::FlowMeaning;
use error_models::ErrorModel;
use error_types::TypeTable;
use instantiator::Component;
use plain_values::Mem;
use propagation_points::{Point, Variant};

/// All names of which the names of facts and events are made are identifiers.
pub fn are_named(assembly: &Assembly) -> Mem<()>
    ensures { OnOk result (AreNamed assembly.now) }
{
    components_form(assembly.instance().components());
    models_form(assembly.models());
    types_form(assembly.types())
}

fn components_form(components: &[Component])
    ensures { AllByRecursion (λ component. AllByRecursion IsIdentifier component.path) components.now }
{
    for component in components {
        path_form(component);
    }
}

fn path_form(component: &Component)
    ensures { AllByRecursion IsIdentifier component.now.path }
{
    identifiers_form(component.path.names());
}

fn identifiers_form(names: &[&Identifier])
    ensures { AllByRecursion IsIdentifier (map (λ name. name.now) names.now) }
{
    for name in names {
        let _ = name.text();
    }
}

fn models_form(models: &[ErrorModel])
    ensures { AllByRecursion IsNamed models.now }
{
    for model in models {
        model_form(model);
    }
}

fn model_form(model: &ErrorModel)
    ensures { IsNamed model.now }
{
    points_form(model.points.list());
    variants_form(model.states.sorts.variants());
    variants_form(model.behavior.events.variants());
    flows_form(model.flows.items());
}

fn variants_form(variants: &[Variant])
    ensures { AllByRecursion (λ variant. IsIdentifier variant.name) variants.now }
{
    for variant in variants {
        let _ = variant.name().text();
    }
}

fn points_form(points: &[Point])
    ensures { AllByRecursion (λ point. IsIdentifier point.name) points.now }
{
    for point in points {
        let _ = point.name().text();
    }
}

fn flows_form(flows: &[FlowMeaning])
    ensures { AllByRecursion IsNamedFlow flows.now }
{
    for flow in flows {
        flow_form(flow);
    }
}

fn flow_form(flow: &FlowMeaning)
    ensures { IsNamedFlow flow.now }
{
    if let FlowMeaning::Event(name, _) = flow {
        let _ = name.text();
    }
}

fn types_form(types: &TypeTable) -> Mem<()>
    ensures { OnOk result ((number : ℕ) (name : TypeName) → name_of types.now number ≡ Some name → AreIdentifiers name) }
{
    for number in 0..count_types(types)? {
        type_form(types, number);
    }
    Ok(())
}

fn type_form(types: &TypeTable, number: u32)
    ensures { (name : TypeName) → name_of types.now number ≡ Some name → AreIdentifiers name }
{
    if let Some(name) = types.name(number) {
        name.form();
    }
}
