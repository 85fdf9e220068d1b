ghost use Rattle.std.specs.Prelude.{◌≡◌, ◌<◌, ◌^◌, ◌∷◌, [], ℕ, false, length, List as Items, IfOk, OnOk};
ghost use Rattle.std.specs.HashMap.{get};
ghost use Rattle.plain_values.specs.Order.{nearer};
ghost use Rattle.error_libraries.specs.declared.id.Looked.TheVariants.{Nowhere};
ghost use Rattle.error_libraries.specs.inner.Course.{before, left, way_of};
ghost use Rattle.error_libraries.specs.inner.Known.{AreFound, IsFound, same_search};
ghost use Rattle.error_libraries.specs.Libraries.{Library as Text};
ghost use Rattle.error_libraries.specs.inner.Leaving.{Leads};
ghost use Rattle.error_libraries.specs.Search.{extended, found_at, is_number_in, own_item, search, unknown_in};

use crate::course::{Course, Left};
use crate::id::{ItemId, Looked};
use crate::known::{Found, Known, remember};
use crate::library::Library;
use plain_values::{FirstRefusal, Mem, Refusal};
use std::alloc::{AllocError, Global};

/// Where a search is after a step: on its way, or at its end, with what it found and its first refusal.
#[derive(Drop)]
pub(crate) enum Step<'t> {
    Next(Course<'t>),
    Ended(Looked, FirstRefusal),
}

/// What the search for a name in a library finds. The first refusal of the names of libraries that it meets is noted. What is
/// found in the libraries that it extends is remembered.
pub(crate) fn search<'a>(
    alloc: Global,
    known: &mut Known<'a>,
    libraries: &[Library<'a>],
    name: &'a [u8],
    number: u32,
    first: &mut FirstRefusal,
) -> Mem<Looked>
    requires { AreFound libraries.now (get same_search known.old) }
    ensures known { AreFound libraries.now (get same_search known.new) }
    ensures found { IfOk result (λ looked. looked ≡ (search libraries.now name.now number).found) }
    ensures first { OnOk result (first.new ≡ nearer first.old (search libraries.now name.now number).first) }
{
    let own = own_item(libraries, name, number);
    if let Looked::Nowhere = own {
        let found = recall(alloc, known, libraries, name, number)?;
        first.note_some(found.first);
        return Ok(found.looked);
    }
    first.note_some(unknown_in(libraries, number));
    Ok(own)
}

/// What the search for a name finds in a library that has no item of the name itself, as it is remembered, or else as it is
/// then searched and remembered.
fn recall<'a>(
    alloc: Global,
    known: &mut Known<'a>,
    libraries: &[Library<'a>],
    name: &'a [u8],
    number: u32,
) -> Mem<Found>
    requires known { AreFound libraries.now (get same_search known.old) }
    requires own { own_item libraries.now name.now number ≡ Nowhere }
    ensures known { AreFound libraries.now (get same_search known.new) }
    ensures found { IfOk result (IsFound libraries.now (record { 0 = number; 1 = name.entry })) }
{
    if let Some(found) = known.get(&(number, name)).copied() {
        return Ok(found);
    }
    let found = search_on(alloc, libraries, name, number)?;
    remember(known, libraries, number, name, found)?;
    Ok(found)
}

/// What the search for a name finds in a library that has no item of the name itself.
fn search_on(alloc: Global, libraries: &[Library<'_>], name: &[u8], number: u32) -> Mem<Found>
    requires { own_item libraries.now name.now number ≡ Nowhere }
    ensures { IfOk result (IsFound libraries.now (record { 0 = number; 1 = name.entry })) }
{
    let rest = extended(libraries, number);
    let mut noted = FirstRefusal::new();
    noted.note_some(unknown_in(libraries, number));
    let mut course = Course::at(alloc, number, rest, noted)?;
    for _ in 0..u64::MAX {
        match advanced(libraries, name, course)? {
            Step::Next(next) => course = next,
            Step::Ended(looked, noted) => {
                return Ok(Found {
                    looked,
                    first: noted.noted(),
                });
            }
        }
    }
    Err(AllocError)
}

/// A step of a search: to the next library that is left, or back.
fn advanced<'t>(libraries: &'t [Library<'_>], name: &[u8], mut course: Course<'t>) -> Mem<Step<'t>>
    ensures { IfOk result (Leads libraries.now name.now (left libraries.now name.now course.entry)) }
{
    match course.next() {
        Some(library) => meet(libraries, name, course, library),
        None => back(course),
    }
}

/// A search that has nothing left at its top goes back.
fn back(course: Course<'_>) -> Mem<Step<'_>>
    requires { course.top.rest ≡ [] }
    ensures { IfOk result (λ step. (libraries : Items Text) (name : Items ℕ) → Leads libraries name (left libraries name course.entry) step) }
{
    match course.leave()? {
        Left::On(next) => Ok(Step::Next(next)),
        Left::Out(first) => Ok(Step::Ended(Looked::Nowhere, first)),
    }
}

/// A search comes to a library: it passes by one that was searched in vain, and ends at one that is being searched.
fn meet<'t>(
    libraries: &'t [Library<'_>],
    name: &[u8],
    course: Course<'t>,
    library: u32,
) -> Mem<Step<'t>>
    ensures { IfOk result (Leads libraries.now name.now (left libraries.now name.now (before library course.entry))) }
{
    match course.mark(library) {
        None => enter(libraries, name, course, library),
        Some(false) => Ok(Step::Next(course)),
        Some(true) => Ok(Step::Ended(Looked::Circular, course.first())),
    }
}

/// A search enters a library: it ends with an item of the library's own, or goes on to the libraries that this extends.
fn enter<'t>(
    libraries: &'t [Library<'_>],
    name: &[u8],
    course: Course<'t>,
    library: u32,
) -> Mem<Step<'t>>
    requires few { length course.below < 2 ^ 32 }
    requires new { is_number_in course.vain library ≡ false }
    requires apart { is_number_in (way_of (course.top ∷ course.below)) library ≡ false }
    ensures { IfOk result (Leads libraries.now name.now (left libraries.now name.now (before library course.entry))) }
{
    let unknown = unknown_in(libraries, library);
    let own = own_item(libraries, name, library);
    if let Looked::Nowhere = own {
        let rest = extended(libraries, library);
        return Ok(Step::Next(course.enter(library, rest, unknown)?));
    }
    let mut first = course.first();
    first.note_some(unknown);
    Ok(Step::Ended(own, first))
}

/// The first item of a library's own that has the name.
fn own_item(libraries: &[Library<'_>], name: &[u8], number: u32) -> Looked
    ensures { result ≡ own_item libraries.now name.now number }
{
    match place(libraries, name, number) {
        Some(item) => Looked::Found(ItemId {
            package: number,
            item,
        }),
        None => Looked::Nowhere,
    }
}

fn place(libraries: &[Library<'_>], name: &[u8], number: u32) -> Option<u32>
    ensures { found_at number result ≡ own_item libraries.now name.now number }
{
    libraries.get(number as usize)?.place(name)
}

/// The libraries that a library extends.
fn extended<'t>(libraries: &'t [Library<'_>], number: u32) -> &'t [u32]
    ensures { result.now ≡ extended libraries.now number }
{
    match libraries.get(number as usize) {
        Some(library) => library.extends(),
        None => &[],
    }
}

/// The first refusal of the names of libraries that a library uses and extends.
fn unknown_in(libraries: &[Library<'_>], number: u32) -> Option<Refusal>
    ensures { result ≡ unknown_in libraries.now number }
{
    libraries.get(number as usize)?.unknown()
}
