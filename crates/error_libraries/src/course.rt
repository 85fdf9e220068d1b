ghost use Rattle.std.specs.Prelude.{◌≡◌, ◌<◌, ◌^◌, ◌∷◌, [], ◌||◌, false, is_some, length, IfOk};
ghost use Rattle.error_libraries.specs.inner.Course.{Takes, entered, is_vain, way_of};
ghost use Rattle.error_libraries.specs.inner.Leaving.{Leaves};
ghost use Rattle.error_libraries.specs.Search.{is_number_in};

use plain_values::{FirstRefusal, Mem, Refusal};
use std::alloc::{AllocError, Global};
use std::collections::HashMap;
use std::marker::Model;

/// A library that is being searched, and those of the libraries that it extends that are left.
#[derive(Drop)]
struct Frame<'t> {
    library: u32,
    rest: &'t [u32],
}

impl<'t> Model for Frame<'t> {
    ghost use Rattle.error_libraries.specs.inner.Course.{Frame as Searched};

    ghost Value = { Searched };

    ghost view = { λ f. record { library = f.library; rest = f.rest.now } };
}

/// A search for a name under way.
#[derive(Drop)]
pub(crate) struct Course<'t> {
    top: Frame<'t>,
    below: Vec<Frame<'t>>,
    marks: HashMap<u32, bool>,
    vain: Vec<u32>,
    first: FirstRefusal,
}

impl<'t> Model for Course<'t> {
    ghost use Rattle.std.specs.Prelude.{◌<◌, ◌^◌, length, nat_eq, reverse};
    ghost use Rattle.std.specs.HashMap.{get};
    ghost use Rattle.error_libraries.specs.inner.Course.{Course as Way, IsMarked};

    ghost Value = { Way };

    ghost view = { λ c. record { top = c.top; below = reverse c.below.items; vain = c.vain.items; first = c.first } };

    ghost invariant = { λ c. IsMarked (record { top = c.top; below = reverse c.below.items; vain = c.vain.items; first = c.first }) (get nat_eq c.marks)
        × (length c.below.items < 2 ^ 32) };
}

/// Where a search is once a library was searched in vain: at the library for which it was searched, or at its end, with its
/// first refusal.
#[derive(Drop)]
pub(crate) enum Left<'t> {
    On(Course<'t>),
    Out(FirstRefusal),
}

impl<'t> Course<'t> {
    /// The search at its first library, which extends these.
    pub(crate) fn at(
        alloc: Global,
        library: u32,
        rest: &'t [u32],
        first: FirstRefusal,
    ) -> Mem<Course<'t>>
        ensures { IfOk result (λ course. course ≡ record { top = record { library = library; rest = rest.now }; below = []; vain = []; first = first }) }
    {
        let mut marks = HashMap::new(alloc);
        marks.insert(library, true)?;
        Ok(Course {
            top: Frame { library, rest },
            below: Vec::new(alloc),
            marks,
            vain: Vec::new(alloc),
            first,
        })
    }

    /// Takes the next of the libraries that are left at the top.
    pub(crate) fn next(&mut self) -> Option<u32>
        ensures { Takes self.old result self.new }
    {
        match self.top.rest.split_first() {
            Some((library, rest)) => {
                self.top.rest = rest;
                Some(*library)
            }
            None => None,
        }
    }

    /// Whether a library was searched in vain, or is being searched; none where it is neither.
    pub(crate) fn mark(&self, library: u32) -> Option<bool>
        ensures few { length self.now.below < 2 ^ 32 }
        ensures done { is_vain result ≡ is_number_in self.now.vain library }
        ensures entered { is_some result ≡ (is_number_in self.now.vain library || is_number_in (way_of (self.now.top ∷ self.now.below)) library) }
    {
        self.marks.get(&library).copied()
    }

    /// Enters a library, which extends these.
    pub(crate) fn enter(
        self,
        library: u32,
        rest: &'t [u32],
        unknown: Option<Refusal>,
    ) -> Mem<Course<'t>>
        requires { is_number_in self.vain library ≡ false }
        ensures { IfOk result (λ course. course ≡ entered self.entry library rest.now unknown) }
    {
        let Course {
            top,
            mut below,
            mut marks,
            vain,
            mut first,
        } = self;
        if below.len() >= 4_294_967_295 {
            return Err(AllocError);
        }
        marks.insert(library, true)?;
        below.push(top)?;
        first.note_some(unknown);
        Ok(Course {
            top: Frame { library, rest },
            below,
            marks,
            vain,
            first,
        })
    }

    /// Leaves the library at the top, which was searched in vain.
    pub(crate) fn leave(self) -> Mem<Left<'t>>
        ensures { IfOk result (Leaves self.entry) }
    {
        let Course {
            top,
            mut below,
            mut marks,
            mut vain,
            first,
        } = self;
        let Some(next) = below.pop() else {
            return Ok(Left::Out(first));
        };
        marks.insert(top.library, false)?;
        vain.push(top.library)?;
        Ok(Left::On(Course {
            top: next,
            below,
            marks,
            vain,
            first,
        }))
    }

    /// The first refusal so far.
    pub(crate) fn first(self) -> FirstRefusal
        ensures { result ≡ self.entry.first }
    {
        self.first
    }
}
