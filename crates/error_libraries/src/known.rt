ghost use Rattle.std.specs.HashMap.{get};
ghost use Rattle.error_libraries.specs.inner.Known.{AreFound, IsFound, same_search};

use crate::id::Looked;
use crate::library::Library;
use plain_values::{Mem, Refusal};
use std::collections::HashMap;

/// What the search for a name in a library has found, and its first refusal.
#[derive(Clone, Copy)]
pub(crate) struct Found {
    pub(crate) looked: Looked,
    pub(crate) first: Option<Refusal>,
}

/// What was found of names that were searched for, by the number of the library and the name.
pub(crate) type Known<'a> = HashMap<(u32, &'a [u8]), Found>;

/// Remembers what the search for a name in a library has found.
pub(crate) fn remember<'a>(
    known: &mut Known<'a>,
    libraries: &[Library<'a>],
    number: u32,
    name: &'a [u8],
    found: Found,
) -> Mem<()>
    requires found { IsFound libraries.now (record { 0 = number; 1 = name }) found }
    requires known { AreFound libraries.now (get same_search known.old) }
    ensures { AreFound libraries.now (get same_search known.new) }
{
    known.insert((number, name), found)?;
    Ok(())
}
