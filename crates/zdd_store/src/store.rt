ghost use Rattle.std.specs.Prelude.{◌≡◌, ◌+◌, ◌<◌, ◌↔◌, IsSome, IfSome, IfOk, Ok};
ghost use Rattle.zdd_store.specs.inner.Family.{branch, least_number, IsAntichain};
ghost use Rattle.zdd_store.specs.inner.Answers.{HasShape, IsAnswer, IsWide};
ghost use Rattle.zdd_store.specs.inner.Store.{IsIn, family_of, family_with, no_nodes, Keeps, Fits, IsSound};

use crate::answers::{answer_in, make_room, put};
use crate::id::{Id, Node};
use crate::question::{Known, Question};
use crate::shapes::{Shape, note_apart, note_shape, note_wide, shape_of};
use fta_outside::Steps;
use indexmap::IndexSet;
use plain_values::Mem;
use std::alloc::{AllocError, Global};
use std::collections::HashMap;
use std::marker::Model;
use std::sync::ledger::Ledger;

/// The nodes, each once. Contracts see the families of the numbers, by position.
#[derive(Drop)]
pub struct Store {
    nodes: IndexSet<Node>,
    shapes: Vec<Shape>,
    known: Vec<Known>,
    kept: HashMap<Question, u32>,
    // how many answers may still be remembered
    left: u64,
}

impl Model for Store {
    ghost use Rattle.zdd_store.specs.inner.Store.{Families};

    ghost Value = { Families };

    ghost use Rattle.zdd_store.specs.inner.Nodes.{families, AreShapes, IsStore};

    ghost view = { λ s. families s.nodes.keys };

    ghost use Rattle.std.specs.Prelude.{◌≡◌};
    ghost use Rattle.std.specs.HashMap.{get};
    ghost use Rattle.zdd_store.specs.inner.Answers.{AreRight, KnowsRight};

    ghost invariant = { λ s. IsStore s.nodes.keys × AreShapes (families s.nodes.keys) s.shapes.items × AreRight (families s.nodes.keys) s.known.items × KnowsRight (families s.nodes.keys) (get ⟦<Question as PartialEq>⟧.eq s.kept) };
}

impl Store {
    /// A store without nodes, which keeps the allocator and takes no memory.
    pub fn new(alloc: Global) -> Store
        ensures { result ≡ no_nodes }
    {
        Store::limited(alloc, u64::MAX)
    }

    /// A store without nodes that remembers so many answers: a further one is a refused growth of memory.
    pub fn limited(alloc: Global, answers: u64) -> Store
        ensures { result ≡ no_nodes }
    {
        Store {
            nodes: IndexSet::new(alloc),
            shapes: Vec::new(alloc),
            known: Vec::new(alloc),
            kept: HashMap::new(alloc),
            left: answers,
        }
    }

    /// The number of the family that has the sets of `lo` and, with `var` added, those of `hi`.
    ///
    /// A store holds at most 4,294,967,294 numbers, whatever memory there is; a growth past that is a refused growth of
    /// memory. Where memory is refused every number keeps its family.
    pub fn make(&mut self, var: u32, lo: Id, hi: Id) -> Mem<Id>
        requires lo_in { IsIn self.old lo }
        requires hi_in { IsIn self.old hi }
        requires lo_greater { var < least_number (family_of self.old lo) }
        requires hi_greater { var < least_number (family_of self.old hi) }
        ensures found { IfOk result (IsIn self.new) }
        ensures family { IfOk result (λ id. family_of self.new id ≡ branch var (family_of self.old lo) (family_of self.old hi)) }
        ensures without_hi { hi.position ≡ 0 → result ≡ Ok lo }
        ensures kept { Keeps self.old self.new }
        ensures sound { IsSound self.new }
    {
        let count = self.nodes.len();
        if hi == Id::EMPTY {
            return Ok(lo);
        }
        if count >= 4_294_967_292 {
            return Err(AllocError);
        }
        let (index, _) = self.nodes.insert_full(Node { var, lo, hi })?;
        note_shape(&mut self.shapes, index, lo, hi);
        Ok(Id {
            position: index as u32 + 2,
        })
    }

    /// The node of a number; None exactly for EMPTY, for UNIT, and for a number that is not in the store. It is one step.
    pub fn node<L: Ledger>(&self, id: Id, steps: &mut Steps<L>) -> Option<Node>
        ensures found { IsSome result ↔ (IsIn self.now id × (1 < id.position)) }
        ensures fits { IfSome result (Fits self.now) }
        ensures family { IfSome result (λ node. family_of self.now id ≡ family_with self.now node) }
        ensures step { steps.new ≡ steps.old + 1 }
    {
        steps.tick();
        if id.position < 2 {
            return None;
        }
        self.nodes.get_index(id.position as usize - 2).copied()
    }

    /// What is known of a number's family.
    pub fn shape(&self, id: Id) -> Shape
        ensures { HasShape (family_of self.now id) result }
    {
        shape_of(self.shapes.as_slice(), id)
    }

    /// Notes of a number's family that no set is within another one. No number's family changes.
    pub fn note_apart(&mut self, id: Id)
        requires { IsAntichain (family_of self.old id) }
        ensures { self.new ≡ self.old }
    {
        note_apart(self.shapes.as_mut_slice(), id);
    }

    /// Notes of a number's family that its sets with the first variable cover what those without it do. No number's family
    /// changes.
    pub fn note_wide(&mut self, id: Id)
        requires { IsWide (family_of self.old id) }
        ensures { self.new ≡ self.old }
    {
        note_wide(self.shapes.as_mut_slice(), id);
    }

    /// An answer to the question, if it is still remembered; it is right.
    pub fn recall(&self, question: Question) -> Option<u32>
        ensures { IfSome result (IsAnswer self.now question) }
    {
        answer_in(self.known.as_slice(), question)
    }

    /// Remembers a right answer, in place of one that was remembered before if there are many. No number's family changes,
    /// also where memory is refused.
    pub fn remember(&mut self, question: Question, answer: u32) -> Mem<()>
        requires { IsAnswer self.old question answer }
        ensures { self.new ≡ self.old }
    {
        let nodes = self.nodes.len();
        if self.left == 0 {
            return Err(AllocError);
        }
        self.left -= 1;
        make_room(&mut self.known, nodes)?;
        put(self.known.as_mut_slice(), Known { question, answer });
        Ok(())
    }

    /// An answer to the question, if it was kept; it is right.
    pub fn recall_kept(&self, question: Question) -> Option<u32>
        ensures { IfSome result (IsAnswer self.now question) }
    {
        self.kept.get(&question).copied()
    }

    /// Keeps a right answer for as long as there is the store. No number's family changes, also where memory is refused.
    pub fn keep(&mut self, question: Question, answer: u32) -> Mem<()>
        requires { IsAnswer self.old question answer }
        ensures { self.new ≡ self.old }
    {
        self.kept.insert(question, answer)?;
        Ok(())
    }

    /// How many answers may still be remembered.
    pub fn answers_left(&self) -> u64 {
        self.left
    }

    /// What holds of the families of every store.
    pub fn laws(&self)
        ensures { IsSound self.now }
    {
        let _nodes = &self.nodes;
    }
}
