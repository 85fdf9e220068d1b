ghost use Rattle.std.specs.Prelude.{◌≡◌, ◌++◌, IfOk, OnOk, flat_map};
ghost use Rattle.bindings.specs.Bindings.{bindings_in, braced_bindings};
ghost use Rattle.component_extension.specs.Items.{bindings_along, braced_along, braced_in};

use crate::classifier::Classifier;
use aadl_syntax::{Binding, Connection, Decl, Subcomponent, TokenList};
use bindings::{add_bindings, add_braced};
use plain_values::{List, Mem};
use std::alloc::Global;

/// The bindings that the `properties` sections of these classifiers state, one after the other.
pub fn bindings_along(alloc: Global, classifiers: &[Classifier<'_>]) -> Mem<List<Binding>>
    ensures { IfOk result (λ bindings. bindings ≡ bindings_along classifiers.now) }
{
    let mut bindings = List::new(alloc);
    for classifier in classifiers {
        let decl = classifier.item();
        add_stated(
            alloc,
            decl.spot.file,
            decl.properties.items(),
            &mut bindings,
        )?;
    }
    Ok(bindings)
}

fn add_stated(
    alloc: Global,
    file: u32,
    sections: &[TokenList],
    bindings: &mut List<Binding>,
) -> Mem<()>
    ensures { OnOk result (bindings.new ≡ bindings.old ++ flat_map (bindings_in file) sections.now) }
{
    for section in sections {
        add_bindings(alloc, file, section, bindings)?;
    }
    Ok(())
}

/// The bindings that stand in braces behind the members of these classifiers, one after the other.
pub fn braced_along(alloc: Global, classifiers: &[Classifier<'_>]) -> Mem<List<Binding>>
    ensures { IfOk result (λ bindings. bindings ≡ braced_along classifiers.now) }
{
    let mut bindings = List::new(alloc);
    for classifier in classifiers {
        add_braced_in(alloc, classifier.item(), &mut bindings)?;
    }
    Ok(bindings)
}

/// Adds those of a declaration: of its subcomponents, and then of its connections.
fn add_braced_in(alloc: Global, decl: &Decl, bindings: &mut List<Binding>) -> Mem<()>
    ensures { OnOk result (bindings.new ≡ bindings.old ++ braced_in decl.now) }
{
    add_of_subcomponents(alloc, decl.subcomponents.items(), bindings)?;
    add_of_connections(alloc, decl.connections.items(), bindings)
}

fn add_of_subcomponents(
    alloc: Global,
    subcomponents: &[Subcomponent],
    bindings: &mut List<Binding>,
) -> Mem<()>
    ensures { OnOk result (bindings.new ≡ bindings.old ++ flat_map (λ subcomponent. braced_bindings subcomponent.spot.file subcomponent.name subcomponent.tail) subcomponents.now) }
{
    for subcomponent in subcomponents {
        add_braced(
            alloc,
            subcomponent.spot.file,
            &subcomponent.name,
            &subcomponent.tail,
            bindings,
        )?;
    }
    Ok(())
}

fn add_of_connections(
    alloc: Global,
    connections: &[Connection],
    bindings: &mut List<Binding>,
) -> Mem<()>
    ensures { OnOk result (bindings.new ≡ bindings.old ++ flat_map (λ connection. braced_bindings connection.spot.file connection.name connection.tail) connections.now) }
{
    for connection in connections {
        add_braced(
            alloc,
            connection.spot.file,
            &connection.name,
            &connection.tail,
            bindings,
        )?;
    }
    Ok(())
}
