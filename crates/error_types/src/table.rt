ghost use Rattle.std.specs.Prelude.{◌≡◌, ◌↔◌, ◌≤◌, ◌<◌, ◌^◌, IfOk, IfErr, IsSome, OnOk, length};
ghost use Rattle.plain_values.specs.Order.{nearer};
ghost use Rattle.noted_refusals.specs.inner.Noted.{noting};
ghost use Rattle.plain_values.specs.inner.Stops.{StopsAtFirst};
ghost use Rattle.error_libraries.specs.Libraries.{HasTooManyTypes, declared_types, greatest_types, libraries_of, table_of, unknown_libraries};
ghost use Rattle.error_libraries.specs.inner.Libraries.{IsOver};
ghost use Rattle.error_libraries.specs.Printed.{name_of};
ghost use Rattle.error_types.specs.NoError.{has_no_error};
ghost use Rattle.error_types.specs.Types.{denoted, text_scope};
ghost use Rattle.error_types.specs.Walk.{set_first};

use crate::denoted::{denoted, memory_of};
use crate::hierarchy::bases_of;
use crate::memory::Memory;
use crate::noerror::any_has_no_error;
use aadl_syntax::{Ref, TypeSet};
use error_libraries::{Declarations, Library, Scope, TypeName, add_named, note_unknown, types_by};
use noted_refusals::Refusals;
use package_index::Index;
use plain_values::{Answer, Code, FirstRefusal, List, Mem, Refusal, Stop};
use profiles::Profile;
use std::alloc::Global;
use std::marker::Model;

/// The error types that the libraries of all packages declare. Contracts see what is known of them.
#[derive(Drop)]
pub struct TypeTable<'i, 'a> {
    declarations: Declarations<'i, 'a>,
    memory: Memory,
}

impl<'i, 'a> Model for TypeTable<'i, 'a> {
    ghost use Rattle.std.specs.Coded.{codes};
    ghost use Rattle.aadl_syntax.specs.contracts.error_model.Condition as condition;
    ghost use Rattle.error_libraries.specs.Libraries.{Table};
    ghost use Rattle.error_types.specs.inner.Rows.{Remembers};

    ghost Value = { Table };

    ghost coded = { Prim.hlevel (codes, condition.the_row.coded) };

    ghost view = { λ t. t.declarations };

    ghost invariant = { λ t. Remembers t.declarations t.memory };
}

impl<'i, 'a> TypeTable<'i, 'a> {
    /// The types of all libraries of the index, read by this profile.
    ///
    /// M8 where more than 1,024 types are declared.
    pub fn new(alloc: Global, profile: Profile, index: &'i Index<'a>) -> Answer<TypeTable<'i, 'a>>
        ensures table { IfOk result (λ table. table ≡ table_of profile index.now) }
        ensures accepted { OnOk result (length (declared_types (libraries_of index.now)) ≤ greatest_types) }
        ensures refused { IfErr result (StopsAtFirst (HasTooManyTypes index.now)) }
    {
        let mut declarations = Declarations::of(alloc, profile, index)?;
        count_declared(alloc, declarations.libraries())?;
        let bases = bases_of(alloc, &mut declarations)?;
        let memory = memory_of(alloc, &declarations, bases.items())?;
        Ok(TypeTable {
            declarations,
            memory,
        })
    }

    /// The profile by which they are read.
    pub fn profile(&self) -> Profile
        ensures { result ≡ self.now.profile }
    {
        self.declarations.profile()
    }

    /// Where a clause or a machine of a package, which uses the types of these libraries, looks for a bare name.
    pub fn text_scope(&self, alloc: Global, home: u32, uses: &[Ref]) -> Mem<Scope>
        ensures { IfOk result (λ scope. scope ≡ text_scope self.now.packages home uses.now) }
    {
        let mut libraries = List::new(alloc);
        add_named(self.declarations.index(), home, uses, &mut libraries)?;
        libraries.push(home)?;
        Ok(Scope {
            package: home,
            libraries,
        })
    }

    /// Notes N2 at each name of a library that a clause or a machine of a package uses, and that means none.
    pub fn note_unknown(&self, home: u32, uses: &[Ref], refusals: &mut Refusals)
        ensures { refusals.new ≡ noting refusals.old (unknown_libraries self.now.packages home uses.now) }
    {
        note_unknown(self.declarations.index(), home, uses, refusals);
    }

    /// The types that a written set denotes in a text, rising. Its first refusal is noted: N2, N7, N8 and P4 of its terms.
    pub fn denote(
        &mut self,
        alloc: Global,
        scope: &Scope,
        set: &'a TypeSet,
        first: &mut FirstRefusal,
    ) -> Mem<List<u32>>
        ensures kept { self.new ≡ self.old }
        ensures denoted { IfOk result (λ types. types ≡ denoted self.old scope.now set.now) }
        ensures first { OnOk result (first.new ≡ nearer first.old (set_first self.old scope.now set.now)) }
    {
        denoted(
            alloc,
            &mut self.declarations,
            &mut self.memory,
            scope,
            set.terms.items(),
            first,
        )
    }

    /// Whether a written set has `noerror` in a text, by itself or by a set that it names.
    pub fn has_no_error(&mut self, alloc: Global, scope: &Scope, set: &'a TypeSet) -> Mem<bool>
        ensures kept { self.new ≡ self.old }
        ensures so { IfOk result (λ so. so ≡ has_no_error self.old scope.now set.now) }
    {
        any_has_no_error(alloc, &mut self.declarations, scope, set.terms.items())
    }

    /// How many types there are.
    pub fn count(&self) -> u32
        ensures { result ≡ length self.now.types }
    {
        self.declarations.types().len() as u32
    }

    /// The name by which the type of a number prints; none where the number is of no type.
    pub fn name(&self, number: u32) -> Option<TypeName<'a>>
        ensures name { result ≡ name_of self.now number }
        ensures known { IsSome result ↔ (number < length self.now.types) }
    {
        match self.declarations.type_id(number) {
            Some(id) => self.declarations.name(id),
            None => None,
        }
    }
}

/// Counts the declared types of all libraries: M8 where there are too many.
fn count_declared(alloc: Global, libraries: &[Library<'_>]) -> Answer<()>
    requires { length libraries.now < 2 ^ 32 }
    ensures accepted { OnOk result (length (declared_types libraries.now) ≤ greatest_types) }
    ensures refused { IfErr result (IsOver libraries.now) }
{
    let declared = types_by(alloc, true, libraries)?;
    if declared.items().len() > 1024 {
        return Err(Stop::Refused(Refusal::of_words(Code::TooManyTypes)));
    }
    Ok(())
}
