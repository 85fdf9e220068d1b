ghost use Rattle.std.specs.Prelude.{◌≡◌, IfOk, OnOk, option_to_list};
ghost use Rattle.noted_refusals.specs.inner.Noted.{noting};
ghost use Rattle.error_types.specs.Types.{denoted};
ghost use Rattle.error_types.specs.Walk.{set_first};

use crate::table::TypeTable;
use aadl_syntax::TypeSet;
use error_libraries::Scope;
use noted_refusals::Refusals;
use plain_values::{FirstRefusal, List, Mem};
use std::alloc::Global;

/// What is read of the error texts of a model: the types that they may name, and the refusals that are noted.
#[derive(Drop)]
pub struct Reading<'i, 'a> {
    pub types: TypeTable<'i, 'a>,
    pub refusals: Refusals,
}

impl<'i, 'a> Reading<'i, 'a> {
    /// A reading with these types, whose refusals are noted here.
    pub fn new(types: TypeTable<'i, 'a>, refusals: Refusals) -> Reading<'i, 'a>
        ensures { result ≡ record { types = types.entry; refusals = refusals } }
    {
        Reading { types, refusals }
    }

    /// The types that a written set denotes in a text, rising. Its first refusal is noted: N2, N7, N8 and P4 of its terms.
    pub fn denote(&mut self, alloc: Global, scope: &Scope, set: &'a TypeSet) -> Mem<List<u32>>
        ensures kept { self.new.types ≡ self.old.types }
        ensures denoted { IfOk result (λ types. types ≡ denoted self.old.types scope.now set.now) }
        ensures noted { OnOk result (self.new.refusals ≡ noting self.old.refusals (option_to_list (set_first self.old.types scope.now set.now))) }
    {
        let mut first = FirstRefusal::new();
        let types = self.types.denote(alloc, scope, set, &mut first)?;
        self.refusals.note_some(first.noted());
        Ok(types)
    }
}
