//! Paths in bindings that lead to nothing.

ghost use Rattle.std.specs.Prelude.{◌≡◌, ◌++◌, IfOk, OnOk, filter, flat_map, not};
ghost use Rattle.plain_values.specs.Numbered.{numbered_from};
ghost use Rattle.instantiator.specs.Whole.{effective_in};
ghost use Rattle.stray_bindings.specs.Stray.{braced_paths, braced_strays, is_bindable, is_of_components, is_part, section_paths, section_strays, stray_bindings, stray_in, stray_paths, strays_at};

use crate::places::Places;
use aadl_syntax::{Binding, BindingKind, Identifier};
use component_extension::Effective;
use instantiator::Instance;
use plain_values::{List, Mem, Name, Spot, copied};
use profiles::Profile;
use std::alloc::Global;

/// A path in a binding that leads to nothing: the component that states it, and the names. The spot is that of the binding.
#[derive(Drop)]
pub struct StrayBinding {
    pub component: u32,
    pub path: List<Name>,
    pub spot: Spot,
}

impl StrayBinding {
    /// The same once more.
    pub fn again(&self, alloc: Global) -> Mem<StrayBinding>
        ensures { IfOk result (λ stray. stray ≡ self.now) }
    {
        Ok(StrayBinding {
            component: self.component,
            path: names_again(alloc, self.path.items())?,
            spot: self.spot,
        })
    }
}

/// The paths in bindings that a profile reads which lead to nothing that may be bound, or to no component where something is bound to it, one
/// component after the other: of each binding the targets, and then the references; those of sections, and then those in braces.
pub fn stray_bindings<'i>(
    alloc: Global,
    profile: Profile,
    instance: &'i Instance<'i, 'i>,
) -> Mem<List<StrayBinding>>
    ensures { IfOk result (λ found. found ≡ stray_bindings profile instance.now) }
{
    let places = Places::of(alloc, instance)?;
    all_stray(alloc, profile, &places)
}

/// Those of all components.
fn all_stray(alloc: Global, profile: Profile, places: &Places) -> Mem<List<StrayBinding>>
    ensures { IfOk result (λ found. found ≡ stray_bindings profile places.now) }
{
    let mut found = List::new(alloc);
    for number in 0..places.instance().components().len() {
        add_component(alloc, &mut found, profile, places, number as u32)?;
    }
    Ok(found)
}

/// Adds those of the component of a number.
fn add_component(
    alloc: Global,
    found: &mut List<StrayBinding>,
    profile: Profile,
    places: &Places,
    number: u32,
) -> Mem<()>
    ensures { OnOk result (found.new ≡ found.old ++ stray_in profile places.now number (effective_in places.now number)) }
{
    match places.instance().effective(number) {
        Some(effective) => add_in(alloc, found, profile, places, number, effective),
        None => Ok(()),
    }
}

/// Adds those of an effective classifier.
fn add_in(
    alloc: Global,
    found: &mut List<StrayBinding>,
    profile: Profile,
    places: &Places,
    number: u32,
    effective: &Effective,
) -> Mem<()>
    ensures { OnOk result (found.new ≡ found.old ++ stray_in profile places.now number effective.now) }
{
    let (sections, braced) = (effective.bindings.items(), effective.braced.items());
    add_sections(alloc, found, profile, places, number, sections)?;
    add_braced(alloc, found, profile, places, number, braced)
}

/// Adds those of bindings of sections.
fn add_sections(
    alloc: Global,
    found: &mut List<StrayBinding>,
    profile: Profile,
    places: &Places,
    number: u32,
    bindings: &[Binding],
) -> Mem<()>
    ensures { OnOk result (found.new ≡ found.old ++ flat_map (section_strays profile places.now number) bindings.now) }
{
    for binding in bindings {
        let paths = section_paths(alloc, profile, places, number, binding)?;
        add_strays(alloc, found, number, binding.spot, paths.items())?;
    }
    Ok(())
}

/// Adds those of bindings in braces.
fn add_braced(
    alloc: Global,
    found: &mut List<StrayBinding>,
    profile: Profile,
    places: &Places,
    number: u32,
    bindings: &[Binding],
) -> Mem<()>
    ensures { OnOk result (found.new ≡ found.old ++ flat_map (braced_strays profile places.now number) bindings.now) }
{
    for binding in bindings {
        let paths = braced_paths(alloc, profile, places, number, binding)?;
        add_strays(alloc, found, number, binding.spot, paths.items())?;
    }
    Ok(())
}

/// Adds these paths of a binding that stands at this place.
fn add_strays(
    alloc: Global,
    found: &mut List<StrayBinding>,
    number: u32,
    spot: Spot,
    paths: &[List<Name>],
) -> Mem<()>
    ensures { OnOk result (found.new ≡ found.old ++ strays_at number spot paths.now) }
{
    for path in paths {
        let path = names_again(alloc, path.items())?;
        found.push(StrayBinding {
            component: number,
            path,
            spot,
        })?;
    }
    Ok(())
}

/// The paths of a binding of a section that lead to nothing, where a profile reads it.
fn section_paths(
    alloc: Global,
    profile: Profile,
    places: &Places,
    number: u32,
    binding: &Binding,
) -> Mem<List<List<Name>>>
    ensures { IfOk result (λ paths. paths ≡ section_paths profile places.now number binding.now) }
{
    if !profile.is_first() || is_of_components(binding.kind) {
        return stray_paths(alloc, places, number, binding);
    }
    Ok(List::new(alloc))
}

/// The same of a binding in braces.
fn braced_paths(
    alloc: Global,
    profile: Profile,
    places: &Places,
    number: u32,
    binding: &Binding,
) -> Mem<List<List<Name>>>
    ensures { IfOk result (λ paths. paths ≡ braced_paths profile places.now number binding.now) }
{
    if profile.is_first() {
        return Ok(List::new(alloc));
    }
    stray_paths(alloc, places, number, binding)
}

/// The paths of a binding that lead to nothing: its targets, and then its references.
fn stray_paths(
    alloc: Global,
    places: &Places,
    number: u32,
    binding: &Binding,
) -> Mem<List<List<Name>>>
    ensures { IfOk result (λ paths. paths ≡ stray_paths places.now number binding.now) }
{
    let mut paths = List::new(alloc);
    let (kind, targets) = (binding.kind, binding.targets.items());
    add_targets(alloc, &mut paths, places, kind, number, targets)?;
    add_references(
        alloc,
        &mut paths,
        places,
        number,
        binding.references.items(),
    )?;
    Ok(paths)
}

fn add_targets(
    alloc: Global,
    paths: &mut List<List<Name>>,
    places: &Places,
    kind: BindingKind,
    number: u32,
    targets: &[List<Identifier>],
) -> Mem<()>
    ensures { OnOk result (paths.new ≡ paths.old ++ filter (λ path. not (is_bindable places.now kind number path)) targets.now) }
{
    for target in targets {
        let is_stray = !places.is_bindable(kind, number, target.items());
        let path = names_in(alloc, target.items())?;
        paths.push_if(path, is_stray)?;
    }
    Ok(())
}

fn add_references(
    alloc: Global,
    paths: &mut List<List<Name>>,
    places: &Places,
    number: u32,
    references: &[List<Identifier>],
) -> Mem<()>
    ensures { OnOk result (paths.new ≡ paths.old ++ filter (λ path. not (is_part places.now number path)) references.now) }
{
    for reference in references {
        let is_stray = !places.is_part(number, reference.items());
        let path = names_in(alloc, reference.items())?;
        paths.push_if(path, is_stray)?;
    }
    Ok(())
}

/// Whether a binding is one of components, which each profile reads.
fn is_of_components(kind: BindingKind) -> bool
    ensures { result ≡ is_of_components kind }
{
    match kind {
        BindingKind::Processor | BindingKind::Memory => true,
        BindingKind::Connection | BindingKind::Function => false,
    }
}

/// The names of a path.
fn names_in(alloc: Global, path: &[Identifier]) -> Mem<List<Name>>
    ensures { IfOk result (λ names. names ≡ path.now) }
{
    let mut names = List::new(alloc);
    for name in path {
        let name = copied(alloc, name.text())?;
        names.push(name)?;
    }
    Ok(names)
}

/// Names once more.
fn names_again(alloc: Global, names: &[Name]) -> Mem<List<Name>>
    ensures { IfOk result (λ again. again ≡ names.now) }
{
    let mut again = List::new(alloc);
    for name in names {
        let name = copied(alloc, name.items())?;
        again.push(name)?;
    }
    Ok(again)
}
