ghost use Rattle.std.specs.Prelude.{◌≡◌, ◌<◌, [], ◌∷◌, ◌++◌, length, IfOk, IfNone, option_to_list};
ghost use Rattle.cutset_lister.specs.inner.Trails.{numbers};

use plain_values::Mem;
use std::alloc::Global;
use std::marker::Model;
use zdd_store::Id;

/// A number of a set, and the family of what may stand in place of it and the numbers behind it.
#[derive(Clone, Copy)]
pub struct Frame {
    pub number: u32,
    pub low: Id,
}

/// The way down from a family to one of its sets, with memory for so many numbers; it takes none later.
#[derive(Drop)]
pub struct Path {
    frames: Vec<Frame>,
    set: Vec<u32>,
    room: usize,
}

impl Model for Path {
    ghost use Rattle.std.specs.Prelude.{◌≡◌, ◌≤◌, vec_capacity};
    ghost use Rattle.cutset_lister.specs.inner.Trails.{Trail, numbers};

    ghost Value = { Trail };

    ghost view = { λ p. record { frames = p.frames.items; room = p.room } };

    ghost invariant = { λ p. (p.set.items ≡ numbers p.frames.items) × (p.room ≤ vec_capacity p.frames) × (p.room ≤ vec_capacity p.set) };
}

impl Path {
    /// A way of no number, with memory for so many.
    pub fn new(alloc: Global, room: usize) -> Mem<Path>
        ensures { IfOk result (λ path. path ≡ record { frames = []; room = room }) }
    {
        let frames = Vec::with_capacity(alloc, room)?;
        let set = Vec::with_capacity(alloc, room)?;
        Ok(Path { frames, set, room })
    }

    /// The numbers.
    pub fn numbers(&self) -> &[u32]
        ensures { result.now ≡ numbers self.now.frames }
    {
        let _frames = &self.frames;
        self.set.as_slice()
    }

    /// Goes on to one number more.
    pub fn push(&mut self, frame: Frame)
        requires { length self.old.frames < self.old.room }
        ensures { self.new ≡ record { frames = self.old.frames ++ frame ∷ []; room = self.old.room } }
    {
        self.frames.push(frame).unwrap();
        self.set.push(frame.number).unwrap();
    }

    /// Goes back by one number.
    pub fn pop(&mut self) -> Option<Frame>
        ensures frames { self.old.frames ≡ self.new.frames ++ option_to_list result }
        ensures end { IfNone result (self.new.frames ≡ []) }
        ensures room { self.new.room ≡ self.old.room }
    {
        self.set.pop();
        self.frames.pop()
    }

    /// Goes back to the beginning.
    pub fn clear(&mut self)
        ensures { self.new ≡ record { frames = []; room = self.old.room } }
    {
        self.frames.clear();
        self.set.clear();
    }
}
