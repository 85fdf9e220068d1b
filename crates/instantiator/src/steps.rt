ghost use Rattle.std.specs.Prelude.{◌≡◌, ◌<◌, ◌^◌, ◌+◌, ◌∷◌, [], length, map, take, IfOk, OnOk};
ghost use Rattle.std.specs.HashMap.{get};
ghost use Rattle.instantiator.specs.Components.{component_below};
ghost use Rattle.instantiator.specs.inner.Tables.{IsTree, KnowsSteps, same_step};
ghost use Rattle.instantiator.specs.inner.Whole.{ParentsComeFirst, PathsDiffer};

use crate::path::Component;
use aadl_syntax::Identifier;
use plain_values::Mem;
use std::alloc::Global;
use std::collections::HashMap;
use std::marker::Model;

/// The number of each component by that of which it is a subcomponent, and its name.
pub(crate) type StepTable<'a> = HashMap<(u32, &'a [u8]), u32>;

/// What names a component.
pub(crate) trait Named {
    ghost use Rattle.std.specs.Prelude.{◌≡◌, List, ℕ};

    ghost name: { Self → List ℕ };

    fn text(&self) -> &[u8]
        ensures { result.now ≡ name self.now };
}

impl Named for Identifier {
    ghost name = { λ name. name };

    fn text(&self) -> &[u8] {
        self.text()
    }
}

impl<'a> Named for &'a Identifier {
    ghost name = { λ name. name.now };

    fn text(&self) -> &[u8] {
        (*self).text()
    }
}

/// Components in preorder, with their table. Contracts see the components.
#[derive(Drop)]
pub(crate) struct Steps<'t, 'a> {
    components: &'t [Component<'a>],
    numbers: &'t StepTable<'a>,
}

impl<'t, 'a> Model for Steps<'t, 'a> {
    ghost use Rattle.std.specs.Prelude.{List};
    ghost use Rattle.std.specs.HashMap.{get};
    ghost use Rattle.instantiator.specs.declared.path.Component.{Component};
    ghost use Rattle.instantiator.specs.inner.Tables.{IsTree, same_step};

    ghost Value = { List Component };

    ghost view = { λ s. s.components.now };

    ghost invariant = { λ s. IsTree s.components.now (get same_step s.numbers.now) };
}

impl<'t, 'a> Steps<'t, 'a> {
    /// The components with the table that knows them.
    pub(crate) fn new(components: &'t [Component<'a>], numbers: &'t StepTable<'a>) -> Steps<'t, 'a>
        requires { IsTree components.now (get same_step numbers.now) }
        ensures { result ≡ components.now }
    {
        Steps {
            components,
            numbers,
        }
    }

    /// The number of the component that the names lead to from the component of a number.
    pub(crate) fn below<N: Named>(&self, from: u32, names: &[N]) -> Option<u32>
        ensures { result ≡ component_below self.now from (map N.name names.now) }
    {
        if from as usize >= self.components.len() {
            return None;
        }
        let mut number = from;
        for name in names {
            let Some(next) = self.step(number, name.text()) else {
                return None;
            };
            number = next;
        }
        Some(number)
    }

    /// The number of the subcomponent of this name.
    fn step(&self, number: u32, name: &[u8]) -> Option<u32>
        ensures { result ≡ component_below self.now number (name.now ∷ []) }
    {
        self.numbers.get(&(number, name)).copied()
    }
}

/// The table of components in preorder.
pub(crate) fn numbers_of<'a>(alloc: Global, components: &[Component<'a>]) -> Mem<StepTable<'a>>
    requires few { length components.now < 2 ^ 32 }
    requires differ { PathsDiffer components.now }
    requires behind { ParentsComeFirst components.now }
    ensures { IfOk result (λ table. KnowsSteps components.now (get same_step table)) }
{
    let mut table = HashMap::new(alloc);
    for number in 0..components.len() {
        add_step(&mut table, components, number)?;
    }
    Ok(table)
}

/// Adds the component of a number to the table of those before it.
fn add_step<'a>(table: &mut StepTable<'a>, components: &[Component<'a>], number: usize) -> Mem<()>
    requires few { length components.now < 2 ^ 32 }
    requires within { number < length components.now }
    requires differ { PathsDiffer components.now }
    requires behind { ParentsComeFirst components.now }
    requires known { KnowsSteps (take number components.now) (get same_step table.old) }
    ensures { OnOk result (KnowsSteps (take (number + 1) components.now) (get same_step table.new)) }
{
    let names = components[number].path.names();
    let Some((last, front)) = names.split_last() else {
        return Ok(());
    };
    if let Some(parent) = Steps::new(&components[..number], table).below(0, front) {
        let name: &'a Identifier = last;
        table.insert((parent, name.text()), number as u32)?;
    }
    Ok(())
}
