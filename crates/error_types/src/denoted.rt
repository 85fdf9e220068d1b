ghost use Rattle.std.specs.Prelude.{◌≡◌, [], flat_map, map, IfOk, OnOk, Some, true, false};
ghost use Rattle.plain_values.specs.Order.{nearer};
ghost use Rattle.error_types.specs.inner.Rows.{Adds, AreTypeRows, Remembers, row_of, types_below};
ghost use Rattle.error_libraries.specs.Search.{named};
ghost use Rattle.error_types.specs.Types.{base_of};
ghost use Rattle.error_types.specs.Walk.{reached, term_first, term_types, terms_first};

use crate::hierarchy::rows_of;
use crate::memory::Memory;
use crate::reach::{join_row, reached};
use crate::row::Row;
use aadl_syntax::{Ref, Term};
use error_libraries::{Declarations, ItemId, Scope};
use plain_values::{Code, FirstRefusal, List, Mem, Refusal};
use std::alloc::Global;
use std::collections::HashMap;

/// What is gathered of written terms: the row of the types that they denote, and the first refusal.
#[derive(Drop)]
struct Gathered {
    row: Row,
    first: FirstRefusal,
}

/// What is remembered at first: the rows of the types.
pub(crate) fn memory_of(
    alloc: Global,
    declarations: &Declarations<'_, '_>,
    bases: &[Option<u32>],
) -> Mem<Memory>
    requires { bases.now ≡ map (base_of declarations.now) declarations.now.types }
    ensures { IfOk result (Remembers declarations.now) }
{
    Ok(Memory {
        rows: types_rows(alloc, declarations, bases)?,
        items: HashMap::new(alloc),
        tried: HashMap::new(alloc),
    })
}

/// The rows of the types, which extend these.
fn types_rows(
    alloc: Global,
    declarations: &Declarations<'_, '_>,
    bases: &[Option<u32>],
) -> Mem<List<Row>>
    requires { bases.now ≡ map (base_of declarations.now) declarations.now.types }
    ensures { IfOk result (AreTypeRows declarations.now) }
{
    let _ = declarations.types();
    rows_of(alloc, bases)
}

/// The types that terms denote, rising. Their first refusal is noted.
pub(crate) fn denoted<'a>(
    alloc: Global,
    declarations: &mut Declarations<'_, 'a>,
    memory: &mut Memory,
    scope: &Scope,
    terms: &'a [Term],
    first: &mut FirstRefusal,
) -> Mem<List<u32>>
    requires { Remembers declarations.old memory.old }
    ensures kept { declarations.new ≡ declarations.old }
    ensures memory { Remembers declarations.old memory.new }
    ensures types { IfOk result (λ types. types ≡ types_below declarations.old (flat_map (term_types declarations.old scope.now) terms.now)) }
    ensures first { OnOk result (first.new ≡ nearer first.old (terms_first declarations.old scope.now terms.now)) }
{
    let row = Row::new(alloc, declarations.types().len() as u32)?;
    let mut gathered = Gathered {
        row,
        first: FirstRefusal::new(),
    };
    add_terms(alloc, declarations, memory, scope, terms, &mut gathered)?;
    first.note_some(gathered.first.noted());
    gathered.row.numbers(alloc)
}

/// Gathers the types that terms denote. Their first refusal is noted.
fn add_terms<'a>(
    alloc: Global,
    declarations: &mut Declarations<'_, 'a>,
    memory: &mut Memory,
    scope: &Scope,
    terms: &'a [Term],
    gathered: &mut Gathered,
) -> Mem<()>
    requires memory { Remembers declarations.old memory.old }
    requires row { gathered.old.row ≡ row_of declarations.old [] }
    ensures kept { declarations.new ≡ declarations.old }
    ensures memory { Remembers declarations.old memory.new }
    ensures row { OnOk result (gathered.new.row ≡ row_of declarations.old (flat_map (term_types declarations.old scope.now) terms.now)) }
    ensures first { OnOk result (gathered.new.first ≡ nearer gathered.old.first (terms_first declarations.old scope.now terms.now)) }
{
    for term in terms {
        add_term(alloc, declarations, memory, scope, term, gathered)?;
    }
    Ok(())
}

/// The same of a term.
fn add_term<'a>(
    alloc: Global,
    declarations: &mut Declarations<'_, 'a>,
    memory: &mut Memory,
    scope: &Scope,
    term: &'a Term,
    gathered: &mut Gathered,
) -> Mem<()>
    requires { Remembers declarations.old memory.old }
    ensures kept { declarations.new ≡ declarations.old }
    ensures memory { Remembers declarations.old memory.new }
    ensures row { OnOk result (Adds declarations.old gathered.old.row gathered.new.row (term_types declarations.old scope.now term.now)) }
    ensures first { OnOk result (gathered.new.first ≡ nearer gathered.old.first (term_first declarations.old scope.now term.now)) }
{
    match term {
        Term::NoError(_) => Ok(()),
        Term::Product(spot) => {
            gathered.first.note(Refusal::at(Code::TypeProduct, *spot));
            Ok(())
        }
        Term::One(reference) => {
            add_name(alloc, declarations, memory, scope, reference, gathered)
        }
    }
}

/// The same of a name.
fn add_name<'a>(
    alloc: Global,
    declarations: &mut Declarations<'_, 'a>,
    memory: &mut Memory,
    scope: &Scope,
    reference: &'a Ref,
    gathered: &mut Gathered,
) -> Mem<()>
    requires { Remembers declarations.old memory.old }
    ensures kept { declarations.new ≡ declarations.old }
    ensures memory { Remembers declarations.old memory.new }
    ensures row { OnOk result (Adds declarations.old gathered.old.row gathered.new.row (reached false declarations.old (named declarations.old scope.now reference.now).target).types) }
    ensures first { OnOk result (gathered.new.first ≡ nearer gathered.old.first (nearer (named declarations.old scope.now reference.now).first (reached true declarations.old (named declarations.old scope.now reference.now).target).first)) }
{
    let mut met = FirstRefusal::new();
    let target = declarations.named(alloc, scope, reference, &mut met)?;
    add_reached(
        alloc,
        declarations,
        memory,
        target,
        &mut gathered.row,
        &mut met,
    )?;
    gathered.first.note_some(met.noted());
    Ok(())
}

/// Puts the types that are reached from what a name means into a row. The first refusal from it on is noted.
fn add_reached(
    alloc: Global,
    declarations: &mut Declarations<'_, '_>,
    memory: &mut Memory,
    target: Option<ItemId>,
    row: &mut Row,
    first: &mut FirstRefusal,
) -> Mem<()>
    requires { Remembers declarations.old memory.old }
    ensures kept { declarations.new ≡ declarations.old }
    ensures memory { Remembers declarations.old memory.new }
    ensures row { OnOk result (Adds declarations.old row.old row.new (reached false declarations.old target).types) }
    ensures first { OnOk result (first.new ≡ nearer first.old (reached true declarations.old target).first) }
{
    let Some(id) = target else {
        return Ok(());
    };
    let found = reached(alloc, declarations, memory, id)?;
    first.note_some(found.first);
    join_row(memory, row, found.row);
    Ok(())
}
