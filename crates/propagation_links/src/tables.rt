ghost use Rattle.std.specs.Prelude.{◌≡◌, ◌≤◌, ◌∷◌, ◌++◌, [], length, IfOk, None, Some, false, map, option_copied, option_map};
ghost use Rattle.std.specs.Option.{option_map_or};
ghost use Rattle.instantiator.specs.Components.{component_below};
ghost use Rattle.instantiator.specs.Whole.{classifier_at, effective_in};
ghost use Rattle.aadl_syntax.specs.declared.core_model.BindingKind.TheVariants.{Connection as OfConnection};
ghost use Rattle.profiles.specs.declared.profile.Profile.TheVariants.{Second};
ghost use Rattle.propagation_links.specs.Bound.{beyond_first, bindings_by, bound_in, category_in, counting, counting_along, held, held_in, is_guest_in, is_host, last_binding, nearest, of_host, path_in, said, standing, stated_among, stated_braced, stated_in};
ghost use Rattle.propagation_links.specs.inner.Tables.{any_along, any_by, any_in, kind_bindings};

use crate::bound::{BoundTo, StatedBinding};
use crate::category::{is_guest, is_host, is_of_first};
use crate::fitting::BindingTable;
use aadl_syntax::{Binding, BindingKind, Category, Identifier};
use component_extension::Effective;
use instantiator::Instance;
use plain_values::{List, Mem, Name, copied};
use profiles::Profile;
use std::alloc::Global;
use std::marker::Model;

/// An instance, with the bindings of each of its kinds: those of sections, and those in braces. Contracts see the instance.
#[derive(Drop)]
pub(crate) struct BindingTables<'r> {
    instance: &'r Instance<'r, 'r>,
    sections: List<BindingTable<'r>>,
    braces: List<BindingTable<'r>>,
    /// The empty path alone.
    itself: &'r List<List<Identifier>>,
}

impl<'r> Model for BindingTables<'r> {
    ghost use Rattle.std.specs.Coded.{codes};
    ghost use Rattle.aadl_syntax.specs.contracts.error_model.Condition as condition;
    ghost use Rattle.instantiator.specs.Whole.{Instance as Seen};

    ghost Value = { Seen };

    ghost coded = { Prim.hlevel (codes, condition.the_row.coded) };

    ghost use Rattle.std.specs.Prelude.{◌≡◌, ◌∷◌, [], false, map, true};
    ghost use Rattle.propagation_links.specs.inner.Tables.{kind_bindings};

    ghost view = { λ t. t.instance.now };

    ghost invariant = { λ t. (t.sections ≡ map (kind_bindings false t.instance.now.packages) t.instance.now.kinds) × (t.braces ≡ map (kind_bindings true t.instance.now.packages) t.instance.now.kinds) × (t.itself.now ≡ [] ∷ []) };
}

impl<'r> BindingTables<'r> {
    /// The bindings of an instance, with a list of the empty path alone.
    pub(crate) fn of(
        alloc: Global,
        instance: &'r Instance<'r, 'r>,
        itself: &'r List<List<Identifier>>,
    ) -> Mem<BindingTables<'r>>
        requires { itself.now ≡ [] ∷ [] }
        ensures { IfOk result (λ tables. tables ≡ instance.now) }
    {
        let sections = kinds_of(alloc, instance, false)?;
        let braces = kinds_of(alloc, instance, true)?;
        Ok(BindingTables {
            instance,
            sections,
            braces,
            itself,
        })
    }

    /// The instance.
    pub(crate) fn instance(&self) -> &'r Instance<'r, 'r>
        ensures { result.now ≡ self.now }
    {
        self.instance
    }

    /// The binding of a kind that counts for the component of a number under a profile.
    pub(crate) fn bound_in(
        &self,
        alloc: Global,
        profile: Profile,
        kind: BindingKind,
        number: u32,
    ) -> Mem<BoundTo<'r>>
        ensures { IfOk result (λ bound. bound ≡ bound_in profile self.now kind number) }
    {
        let stated = self.counting(alloc, profile, kind, self.path(number))?;
        Ok(BoundTo {
            component: number,
            kind,
            stated,
        })
    }

    /// What holds for the component of a number by the second profile alone.
    pub(crate) fn held_in(&self, alloc: Global, kind: BindingKind, number: u32) -> Mem<BoundTo<'r>>
        ensures { IfOk result (λ bound. bound ≡ held_in self.now kind number) }
    {
        let stated = self.held(alloc, kind, self.path(number))?;
        Ok(BoundTo {
            component: number,
            kind,
            stated,
        })
    }

    /// Whether the component of a number is a virtual bus.
    pub(crate) fn is_virtual_bus(&self, number: u32) -> bool
        ensures { result ≡ is_guest_in self.now OfConnection (Some number) }
    {
        self.is_guest_in(BindingKind::Connection, Some(number))
    }

    /// The binding that counts for a connection of this name in the component of a number.
    pub(crate) fn carrying(
        &self,
        alloc: Global,
        number: u32,
        name: &Identifier,
    ) -> Mem<Option<StatedBinding<'r>>>
        ensures { IfOk result (λ stated. stated ≡ counting Second self.now OfConnection (path_in self.now number ++ name.now ∷ [])) }
    {
        let path = path_with(alloc, self.path(number), name)?;
        self.counting(
            alloc,
            Profile::Second,
            BindingKind::Connection,
            path.items(),
        )
    }

    /// Whether a component on the way to that of a number has a binding of connections, or that itself.
    pub(crate) fn any_towards(&self, number: u32) -> bool
        ensures { result ≡ any_along self.now (Some 0) (path_in self.now number) }
    {
        self.any_along(Some(0), self.path(number))
    }

    fn any_along(&self, component: Option<u32>, path: &[&Identifier]) -> bool
        ensures { result ≡ any_along self.now component (map (λ name. name.now) path.now) }
    {
        let Some(component) = component else {
            return false;
        };
        let Some((name, path)) = path.split_first() else {
            return self.any_in(component);
        };
        self.any_in(component) || self.any_along(self.below(component, *name), path)
    }

    /// Whether the component of a number has a binding of connections.
    fn any_in(&self, component: u32) -> bool
        ensures { result ≡ any_in self.now component }
    {
        self.any_by(false, component) || self.any_by(true, component)
    }

    /// Whether the component of a number has a binding of connections, in braces or in sections as is asked.
    fn any_by(&self, braced: bool, component: u32) -> bool
        ensures { result ≡ any_by braced self.now component }
    {
        match self.table(braced, component) {
            Some(table) => table.binds_connections(),
            None => false,
        }
    }

    /// What holds for the component of a path by the second profile alone.
    fn held(
        &self,
        alloc: Global,
        kind: BindingKind,
        path: &[&Identifier],
    ) -> Mem<Option<StatedBinding<'r>>>
        ensures { IfOk result (λ stated. stated ≡ held self.now kind (map (λ name. name.now) path.now)) }
    {
        match self.counting(alloc, Profile::Second, kind, path)? {
            Some(own) => Ok(beyond_first(kind, own)),
            None => self.nearest(alloc, kind, path, path.len()),
        }
    }

    /// What is said of the component of so many names of a path, or else of the nearest around it of which anything is.
    fn nearest(
        &self,
        alloc: Global,
        kind: BindingKind,
        path: &[&Identifier],
        count: usize,
    ) -> Mem<Option<StatedBinding<'r>>>
        requires { count ≤ length path.now }
        ensures { IfOk result (λ stated. stated ≡ nearest self.now kind (map (λ name. name.now) path.now) count) }
    {
        if count == 0 {
            return Ok(None);
        }
        match self.said(alloc, kind, &path[..count])? {
            Some(stated) => Ok(Some(stated)),
            None => self.nearest(alloc, kind, path, count - 1),
        }
    }

    /// The binding that counts for the component of a path by the second profile, or else what it is bound to because it stands in that.
    fn said(
        &self,
        alloc: Global,
        kind: BindingKind,
        path: &[&Identifier],
    ) -> Mem<Option<StatedBinding<'r>>>
        ensures { IfOk result (λ stated. stated ≡ said self.now kind (map (λ name. name.now) path.now)) }
    {
        match self.counting(alloc, Profile::Second, kind, path)? {
            Some(stated) => Ok(Some(stated)),
            None => Ok(self.standing(kind, path)),
        }
    }

    /// What the component of a path is bound to because it stands in that.
    fn standing(&self, kind: BindingKind, path: &[&Identifier]) -> Option<StatedBinding<'r>>
        ensures { result ≡ standing self.now kind (map (λ name. name.now) path.now) }
    {
        let (_, around) = path.split_last()?;
        if self.is_guest_in(kind, self.instance.find(path)) {
            self.of_host(kind, self.instance.find(around))
        } else {
            None
        }
    }

    /// What a guest has of its host: the empty path from there.
    fn of_host(&self, kind: BindingKind, host: Option<u32>) -> Option<StatedBinding<'r>>
        ensures { result ≡ of_host self.now kind host }
    {
        let host = host?;
        if self.is_host_in(kind, host) {
            Some(StatedBinding::new(host, self.itself, true))
        } else {
            None
        }
    }

    /// Whether there is a component, and it is a guest.
    fn is_guest_in(&self, kind: BindingKind, component: Option<u32>) -> bool
        ensures { result ≡ is_guest_in self.now kind component }
    {
        let Some(component) = component else {
            return false;
        };
        match self.category(component) {
            Some(category) => is_guest(kind, category),
            None => false,
        }
    }

    /// Whether what stands in the component of a number may be bound to it so.
    fn is_host_in(&self, kind: BindingKind, component: u32) -> bool
        ensures { result ≡ option_map_or (is_host kind) (category_in self.now component) false }
    {
        match self.category(component) {
            Some(category) => is_host(kind, category),
            None => false,
        }
    }

    /// The category of the component of a number, if it has a classifier.
    fn category(&self, component: u32) -> Option<&'r Category>
        ensures { option_copied result ≡ category_in self.now component }
    {
        let id = self.instance.classifier(component)?;
        Some(&self.instance.index().decl(id)?.category)
    }

    /// The binding that counts for what a path leads to from the root.
    fn counting(
        &self,
        alloc: Global,
        profile: Profile,
        kind: BindingKind,
        path: &[&Identifier],
    ) -> Mem<Option<StatedBinding<'r>>>
        ensures { IfOk result (λ stated. stated ≡ counting profile self.now kind (map (λ name. name.now) path.now)) }
    {
        let names = names_of(alloc, path)?;
        Ok(self.counting_along(profile, kind, Some(0), path, names.items()))
    }

    /// The binding that counts for what a path leads to from a component, of which these are the names.
    fn counting_along(
        &self,
        profile: Profile,
        kind: BindingKind,
        component: Option<u32>,
        path: &[&Identifier],
        names: &[Name],
    ) -> Option<StatedBinding<'r>>
        ensures { names.now ≡ map (λ name. name.now) path.now → result ≡ counting_along profile self.now kind component (map (λ name. name.now) path.now) }
    {
        let component = component?;
        let (name, path) = path.split_first()?;
        if let Some(stated) = self.stated_in(profile, kind, component, names) {
            return Some(stated);
        }
        let (_, names) = names.split_first()?;
        let below = self.below(component, *name);
        self.counting_along(profile, kind, below, path, names)
    }

    /// The last binding of a component that has these names as a target.
    fn stated_in(
        &self,
        profile: Profile,
        kind: BindingKind,
        component: u32,
        names: &[Name],
    ) -> Option<StatedBinding<'r>>
        ensures { result ≡ stated_in profile self.now kind component names.now }
    {
        match self.stated_among(false, kind, component, names) {
            Some(stated) => Some(stated),
            None => self.stated_braced(profile, kind, component, names),
        }
    }

    /// The last of those in braces, which the second profile alone reads.
    fn stated_braced(
        &self,
        profile: Profile,
        kind: BindingKind,
        component: u32,
        names: &[Name],
    ) -> Option<StatedBinding<'r>>
        ensures { result ≡ stated_braced profile self.now kind component names.now }
    {
        match profile {
            Profile::First => None,
            Profile::Second => self.stated_among(true, kind, component, names),
        }
    }

    /// The last of those in braces or in sections, as is asked.
    fn stated_among(
        &self,
        braced: bool,
        kind: BindingKind,
        component: u32,
        names: &[Name],
    ) -> Option<StatedBinding<'r>>
        ensures { result ≡ stated_among braced self.now kind component names.now }
    {
        let binding = self.last(braced, kind, component, names)?;
        Some(StatedBinding::new(component, &binding.references, braced))
    }

    fn last(
        &self,
        braced: bool,
        kind: BindingKind,
        component: u32,
        names: &[Name],
    ) -> Option<&'r Binding>
        ensures { option_copied result ≡ last_binding kind names.now (bindings_by braced (effective_in self.now component)) }
    {
        self.table(braced, component)?.last(kind, names)
    }

    /// The bindings of the kind of a component, if it has one, in braces or in sections as is asked.
    fn table(&self, braced: bool, component: u32) -> Option<&BindingTable<'r>>
        ensures { option_copied result ≡ option_map (kind_bindings braced self.now.packages) (classifier_at self.now component) }
    {
        self.tables(braced).get(self.instance.kind(component)?)
    }

    fn tables(&self, braced: bool) -> &[BindingTable<'r>]
        ensures { result.now ≡ map (kind_bindings braced self.now.packages) self.now.kinds }
    {
        if braced {
            self.braces.items()
        } else {
            self.sections.items()
        }
    }

    /// The component of this name in a component.
    fn below(&self, component: u32, name: &Identifier) -> Option<u32>
        ensures { result ≡ component_below self.now.components component (name.now ∷ []) }
    {
        self.instance
            .find_below(component, std::slice::from_ref(name))
    }

    /// The names of the path of a component.
    fn path(&self, component: u32) -> &'r [&'r Identifier]
        ensures { map (λ name. name.now) result.now ≡ path_in self.now component }
    {
        match self.instance.components().get(component as usize) {
            Some(component) => component.path.names(),
            None => &[],
        }
    }
}

/// What of the binding that counts for a component the second profile alone reads.
fn beyond_first<'r>(kind: BindingKind, own: StatedBinding<'r>) -> Option<StatedBinding<'r>>
    ensures { result ≡ beyond_first kind (Some own.entry) None }
{
    if is_of_first(kind) && !own.is_further() {
        None
    } else {
        Some(own)
    }
}

/// The bindings of the kinds of an instance, in order, in braces or in sections as is asked.
fn kinds_of<'r>(
    alloc: Global,
    instance: &'r Instance<'r, 'r>,
    braced: bool,
) -> Mem<List<BindingTable<'r>>>
    ensures { IfOk result (λ kinds. kinds ≡ map (kind_bindings braced instance.now.packages) instance.now.kinds) }
{
    let mut kinds = List::new(alloc);
    for kind in instance.kinds() {
        let table = BindingTable::of(alloc, bindings_by(braced, &kind.effective))?;
        kinds.push(table)?;
    }
    Ok(kinds)
}

fn bindings_by<'e>(braced: bool, effective: &'e Effective<'_>) -> &'e [Binding]
    ensures { result.now ≡ bindings_by braced effective.now }
{
    if braced {
        effective.braced.items()
    } else {
        effective.bindings.items()
    }
}

/// The names of a path, as a list of its own.
fn names_of(alloc: Global, path: &[&Identifier]) -> Mem<List<Name>>
    ensures { IfOk result (λ names. names ≡ map (λ name. name.now) path.now) }
{
    let mut names = List::new(alloc);
    for name in path {
        let name = copied(alloc, name.text())?;
        names.push(name)?;
    }
    Ok(names)
}

/// A path with a name behind it.
fn path_with<'n>(
    alloc: Global,
    path: &[&'n Identifier],
    name: &'n Identifier,
) -> Mem<List<&'n Identifier>>
    ensures { IfOk result (λ names. map (λ name. name.now) names ≡ map (λ name. name.now) path.now ++ name.now ∷ []) }
{
    let mut names = Vec::from_slice(alloc, path)?;
    names.push(name)?;
    List::of(names)
}
