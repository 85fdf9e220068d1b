ghost use Rattle.std.specs.Prelude.{◌≡◌, Some, option_copied, position, slice_get};
ghost use Rattle.package_index.specs.Lookup.{package_meant};
ghost use Rattle.package_index.specs.inner.Names.{names_of};
ghost use Rattle.error_machines.specs.Machines.{find_machine, is_machine_named, look_machine, machine_at, machine_by, machine_in, machine_meant, machine_of, machine_or};

use aadl_syntax::{MachineDecl, Ref};
use component_extension::{ClauseText, Effective, InClause};
use package_index::{Index, Words};
use plain_values::{Code, Refusal, Spot, is_same};
use std::marker::Model;

/// A machine: the number of its package, and its place among the machines of the package, both from 0.
#[derive(Clone, Copy, PartialEq, Eq)]
pub struct MachineId {
    pub package: u32,
    pub machine: usize,
}

/// A machine that a component uses: its declaration, and the number of its package.
#[derive(Drop)]
pub struct UsedMachine<'a> {
    package: u32,
    decl: &'a MachineDecl,
}

impl<'a> Model for UsedMachine<'a> {
    ghost use Rattle.std.specs.Coded.{codes};
    ghost use Rattle.aadl_syntax.specs.contracts.error_model.Condition as condition;
    ghost use Rattle.aadl_syntax.specs.declared.error_model.MachineDecl.{MachineDecl};
    ghost use Rattle.component_extension.specs.Members.{InPackage};

    ghost Value = { InPackage MachineDecl };

    ghost coded = { Prim.hlevel (codes, condition.the_row.coded) };

    ghost view = { λ m. record { «package» = m.«package»; item = m.decl.now } };
}

impl<'a> UsedMachine<'a> {
    /// The number of its package.
    pub fn package(&self) -> u32
        ensures { result ≡ self.now.«package» }
    {
        self.package
    }

    /// Its declaration.
    pub fn decl(&self) -> &'a MachineDecl
        ensures { result.now ≡ self.now.item }
    {
        self.decl
    }
}

/// The machine that a component uses, if it uses one: that of the nearest clause with a `use behavior`.
///
/// N2 where the package of its name is not found, N15 where the package has no such machine, both at the name.
pub fn find_machine(
    index: &Index<'_>,
    effective: &Effective<'_>,
) -> Result<Option<MachineId>, Refusal>
    ensures { result ≡ find_machine index.now effective.now }
{
    machine_of(index, effective.clauses.items(), &effective.machine)
}

fn machine_of(
    index: &Index<'_>,
    clauses: &[ClauseText<'_>],
    used: &Option<InClause<'_, Ref>>,
) -> Result<Option<MachineId>, Refusal>
    ensures { result ≡ machine_of index.now clauses.now used.now }
{
    match used {
        Some(used) => machine_by(index, used.item(), clause_at(clauses, used.scope())),
        None => Ok(None),
    }
}

fn clause_at<'c, 'a>(clauses: &'c [ClauseText<'a>], number: usize) -> Option<&'c ClauseText<'a>>
    ensures { option_copied result ≡ slice_get clauses.now number }
{
    clauses.get(number)
}

fn machine_by(
    index: &Index<'_>,
    name: &Ref,
    clause: Option<&ClauseText<'_>>,
) -> Result<Option<MachineId>, Refusal>
    ensures { result ≡ machine_by index.now name.now (option_copied clause.entry) }
{
    match clause {
        Some(clause) => {
            let names = Words::Identifiers(name.names.items());
            machine_or(name.spot, look_machine(index, clause.package(), names))
        }
        None => Ok(None),
    }
}

fn machine_or(spot: Spot, found: Result<MachineId, Code>) -> Result<Option<MachineId>, Refusal>
    ensures { result ≡ machine_or spot found }
{
    match found {
        Ok(id) => Ok(Some(id)),
        Err(code) => Err(Refusal::at(code, spot)),
    }
}

fn look_machine(index: &Index<'_>, from: u32, names: Words) -> Result<MachineId, Code>
    ensures { result ≡ look_machine index.now from (names_of names.entry) }
{
    match package_meant(index, from, names.front()) {
        Some(number) => machine_meant(index, number, names),
        None => Err(Code::UnknownPackage),
    }
}

fn package_meant(index: &Index<'_>, from: u32, names: Words) -> Option<u32>
    ensures { result ≡ package_meant index.now (Some from) (names_of names.entry) }
{
    if names.len() == 0 {
        return Some(from);
    }
    index.find_package(from, names)
}

fn machine_meant(index: &Index<'_>, number: u32, names: Words) -> Result<MachineId, Code>
    ensures { result ≡ machine_meant index.now (Some number) (names_of names.entry) }
{
    let Some(name) = names.last() else {
        return Err(Code::UnknownMachine);
    };
    match machine_in(index, number, name) {
        Some(id) => Ok(id),
        None => Err(Code::UnknownMachine),
    }
}

fn machine_in(index: &Index<'_>, number: u32, name: &[u8]) -> Option<MachineId>
    ensures { result ≡ machine_in index.now number name.now }
{
    let unit = index.package(number)?;
    let machine = machine_named(unit.library.machines.items(), name)?;
    Some(MachineId {
        package: number,
        machine,
    })
}

fn machine_named(machines: &[MachineDecl], name: &[u8]) -> Option<usize>
    ensures { result ≡ position (is_machine_named name.now) machines.now }
{
    machines
        .iter()
        .position(|machine| is_same(machine.name.text(), name))
}

/// The declaration of a machine of the index.
pub fn machine_at<'a>(index: &Index<'a>, id: MachineId) -> Option<UsedMachine<'a>>
    ensures { result ≡ machine_at index.now id }
{
    let unit = index.package(id.package)?;
    let decl = unit.library.machines.items().get(id.machine)?;
    Some(UsedMachine {
        package: id.package,
        decl,
    })
}
