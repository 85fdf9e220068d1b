ghost use Rattle.std.specs.Prelude.{◌≡◌, IfOk};
ghost use Rattle.std.specs.HashMap.{get};
ghost use Rattle.package_index.specs.inner.Tables.{Knows, same_text};
ghost use Rattle.event_origins.specs.Named.{spot_named};
ghost use Rattle.event_origins.specs.inner.Named.{has_text};

use crate::declaration::Declaration;
use package_index::add;
use plain_values::{List, Mem, Spot};
use std::alloc::{AllocError, Global};
use std::collections::HashMap;
use std::marker::Model;

/// Declarations in their order, of which the first of a name is found at once. Contracts see them as a list.
#[derive(Drop)]
pub(crate) struct DeclarationTable<'a> {
    list: List<Declaration<'a>>,
    places: HashMap<&'a [u8], u32>,
}

impl<'a> Model for DeclarationTable<'a> {
    ghost use Rattle.std.specs.Prelude.{List};
    ghost use Rattle.std.specs.HashMap.{get};
    ghost use Rattle.package_index.specs.inner.Tables.{Knows, same_text};
    ghost use Rattle.event_origins.specs.Named.{Declaration as Seen};
    ghost use Rattle.event_origins.specs.inner.Named.{has_text};

    ghost Value = { List Seen };

    ghost view = { λ t. t.list };

    ghost invariant = { λ t. Knows has_text t.list (get same_text t.places) };
}

impl<'a> DeclarationTable<'a> {
    /// The table of these declarations.
    pub(crate) fn of(alloc: Global, list: List<Declaration<'a>>) -> Mem<DeclarationTable<'a>>
        ensures { IfOk result (λ table. table ≡ list.entry) }
    {
        let places = places_of(alloc, list.items())?;
        Ok(DeclarationTable { list, places })
    }

    /// Where the first declaration of a name stands, if there is one.
    pub(crate) fn spot_named(&self, name: &[u8]) -> Option<Spot>
        ensures { result ≡ spot_named self.now name.now }
    {
        let number = self.places.get(&name).copied()?;
        let declaration = self.list.items().get(number as usize)?;
        Some(declaration.spot())
    }
}

/// The place of the first declaration of each name.
fn places_of<'a>(alloc: Global, list: &[Declaration<'a>]) -> Mem<HashMap<&'a [u8], u32>>
    ensures { IfOk result (λ places. Knows has_text list.now (get same_text places)) }
{
    let mut places = HashMap::new(alloc);
    for (number, declaration) in list.iter().enumerate() {
        if number > 4_294_967_295 {
            return Err(AllocError);
        }
        add(&mut places, declaration.name().text(), number as u32)?;
    }
    Ok(places)
}
