ghost use Rattle.std.specs.Prelude.{◌≡◌, ◌++◌, ◌||◌, List, ℕ, IfOk, OnOk};
ghost use denote.Ref.{Bor};
ghost use Rattle.std.specs.HashMap.{get};
ghost use Rattle.noted_refusals.specs.inner.Noted.{noting};
ghost use Rattle.plain_values.specs.declared.refusal.Code.TheVariants.{DuplicateName};
ghost use Rattle.std.specs.List.{list_any};
ghost use Rattle.component_extension.specs.Members.{duplicates, is_before, is_earlier, mark_of, marks_of};
ghost use Rattle.component_extension.specs.inner.Members.{KnowsMarks, comes_before};
ghost use Rattle.package_index.specs.inner.Tables.{same_text};

use crate::declaration::{Declaration, PlainName};
use crate::member::MemberKind;
use noted_refusals::Refusals;
use plain_values::{Code, Mem};
use std::alloc::Global;
use std::collections::HashMap;
use std::marker::Model;

/// The first level of each name, and the first byte in it.
type FirstOf<'a> = HashMap<&'a [u8], (usize, u32)>;

/// Adds the names that these declarations give without `refined to`.
pub(crate) fn add_marks<'a, M: MemberKind>(
    marks: &mut Vec<PlainName<'a>>,
    declarations: &[Declaration<'a, M>],
) -> Mem<()>
    ensures { OnOk result (marks.new.items ≡ marks.old.items ++ marks_of M.kind declarations.now) }
{
    for declaration in declarations {
        add_mark(marks, declaration)?;
    }
    Ok(())
}

fn add_mark<'a, M: MemberKind>(
    marks: &mut Vec<PlainName<'a>>,
    declaration: &Declaration<'a, M>,
) -> Mem<()>
    ensures { OnOk result (marks.new.items ≡ marks.old.items ++ mark_of M.kind declaration.now) }
{
    let item = declaration.item();
    if !item.is_refined() {
        marks.push(PlainName::new(item.name().text(), declaration.level(), item.spot()))?;
    }
    Ok(())
}

/// Names that classifiers declare without `refined to`, with the first level and byte of each. Contracts see the names.
#[derive(Drop)]
pub(crate) struct PlainNames<'a> {
    marks: Vec<PlainName<'a>>,
    first: FirstOf<'a>,
}

impl<'a> Model for PlainNames<'a> {
    ghost use Rattle.std.specs.Prelude.{List};
    ghost use Rattle.std.specs.HashMap.{get};
    ghost use Rattle.component_extension.specs.Members.{Mark};
    ghost use Rattle.component_extension.specs.inner.Members.{KnowsMarks};
    ghost use Rattle.package_index.specs.inner.Tables.{same_text};

    ghost Value = { List Mark };

    ghost view = { λ n. n.marks.items };

    ghost invariant = { λ n. KnowsMarks n.marks.items (get same_text n.first) };
}

impl<'a> PlainNames<'a> {
    /// These names.
    pub(crate) fn of(alloc: Global, marks: Vec<PlainName<'a>>) -> Mem<PlainNames<'a>>
        ensures { IfOk result (λ names. names ≡ marks.entry.items) }
    {
        let first = first_of(alloc, marks.as_slice())?;
        Ok(PlainNames { marks, first })
    }

    /// The names.
    pub(crate) fn marks(&self) -> &[PlainName<'a>]
        ensures { result.now ≡ self.now }
    {
        self.marks.as_slice()
    }

    /// Whether one of the names is this one, and comes before this byte of this level.
    pub(crate) fn has_before(&self, name: &[u8], level: usize, at: u32) -> bool
        ensures { result ≡ list_any (is_earlier name.now level at) self.now }
    {
        has_before(&self.first, name, level, at)
    }
}

/// The first level and byte of each name.
fn first_of<'a>(alloc: Global, marks: &[PlainName<'a>]) -> Mem<FirstOf<'a>>
    ensures { IfOk result (λ table. KnowsMarks marks.now (get same_text table)) }
{
    let mut table = HashMap::new(alloc);
    for mark in marks {
        note_mark(&mut table, mark)?;
    }
    Ok(table)
}

fn note_mark<'a>(table: &mut FirstOf<'a>, mark: &PlainName<'a>) -> Mem<()>
    ensures { OnOk result ((name : Bor (List ℕ)) (level at : ℕ) → comes_before (get same_text table.new name) level at ≡ (comes_before (get same_text table.old name) level at || is_earlier name.now level at mark.now)) }
{
    let name = mark.name();
    let (level, at) = (mark.level(), mark.spot().at);
    match table.get(name).copied() {
        Some(first) => {
            if is_before(&(level, at), first.0, first.1) {
                table.insert(name, (level, at))?;
            }
        }
        None => {
            table.insert(name, (level, at))?;
        }
    }
    Ok(())
}

fn is_before(time: &(usize, u32), level: usize, at: u32) -> bool
    ensures { result ≡ is_before time.now level at }
{
    time.0 < level || (time.0 == level && time.1 < at)
}

fn has_before<'a>(first: &FirstOf<'a>, name: &[u8], level: usize, at: u32) -> bool
    ensures { result ≡ comes_before (get same_text first.now name.entry) level at }
{
    match first.get(name) {
        Some(time) => is_before(time, level, at),
        None => false,
    }
}

/// Notes each name that an earlier one is.
pub(crate) fn note_duplicates<'a>(refusals: &mut Refusals, names: &PlainNames<'a>)
    ensures { refusals.new ≡ noting refusals.old (duplicates names.now names.now) }
{
    for mark in names.marks() {
        let spot = mark.spot();
        let is_again = names.has_before(mark.name(), mark.level(), spot.at);
        refusals.note_if(is_again, Code::DuplicateName, spot);
    }
}
