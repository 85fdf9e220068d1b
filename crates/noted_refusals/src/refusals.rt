ghost use Rattle.std.specs.Prelude.{◌≡◌, IfOk, MatchResult, None, Some, option_to_list};
ghost use Rattle.plain_values.specs.Refusal.{refused_so, refused_there};
ghost use Rattle.noted_refusals.specs.inner.Noted.{TellsFirst, alone, note, nothing_noted, noting};

use plain_values::{Code, FirstRefusal, Mem, Refusal, Spot, Stop};
use std::alloc::Global;
use std::marker::Model;

/// The refusals of a group that were noted: the first by their order, and as many of them as there is room for, in the order in
/// which they were noted.
#[derive(Drop)]
pub struct Refusals {
    first: FirstRefusal,
    // the room; the refusals before `count` are noted
    places: Vec<Refusal>,
    count: usize,
}

impl Model for Refusals {
    ghost use Rattle.noted_refusals.specs.inner.Noted.{Noted};

    ghost Value = { Noted };

    ghost use Rattle.std.specs.Prelude.{◌≤◌, length, take};

    ghost view = { λ r. record { first = r.first; room = length r.places.items; kept = take r.count r.places.items } };

    ghost invariant = { λ r. r.count ≤ length r.places.items };
}

impl Refusals {
    /// Nothing is noted yet, and there is room for the first alone.
    pub fn new(alloc: Global) -> Refusals
        ensures { result ≡ nothing_noted 0 }
    {
        Refusals {
            first: FirstRefusal::new(),
            places: Vec::new(alloc),
            count: 0,
        }
    }

    /// Nothing is noted yet, and there is room for the first and for so many.
    pub fn with_room(alloc: Global, room: usize) -> Mem<Refusals>
        ensures { IfOk result (λ refusals. refusals ≡ nothing_noted room) }
    {
        let none = Refusal::of_words(Code::BadByte);
        Ok(Refusals {
            first: FirstRefusal::new(),
            places: vec![in alloc; none; room]?,
            count: 0,
        })
    }

    /// Forgets what was noted, and keeps the room.
    pub fn clear(&mut self)
        ensures { self.new ≡ nothing_noted self.old.room }
    {
        self.first = FirstRefusal::new();
        self.count = 0;
    }

    /// Notes a refusal.
    pub fn note(&mut self, refusal: Refusal)
        ensures { self.new ≡ note self.old refusal }
    {
        self.first.note(refusal);
        if self.count < self.places.len() {
            self.places[self.count] = refusal;
            self.count += 1;
        }
    }

    /// Notes a refusal at a name or a sign of a text, where this is so.
    pub fn note_if(&mut self, is_so: bool, code: Code, spot: Spot)
        ensures { self.new ≡ noting self.old (refused_so is_so code spot) }
    {
        if is_so {
            self.note(Refusal::at(code, spot));
        }
    }

    /// Notes a refusal at a sign of a text, if it stands there.
    pub fn note_at(&mut self, code: Code, spot: Option<Spot>)
        ensures { self.new ≡ noting self.old (refused_there code spot) }
    {
        if let Some(spot) = spot {
            self.note(Refusal::at(code, spot));
        }
    }

    /// Notes a refusal, if there is one.
    pub fn note_some(&mut self, refusal: Option<Refusal>)
        ensures { self.new ≡ noting self.old (option_to_list refusal) }
    {
        if let Some(refusal) = refusal {
            self.note(refusal);
        }
    }

    /// Notes the refusal with which a call stops, if it stops with one, in place of what was noted before. Hands back with what it stops.
    pub fn only(&mut self, stop: Stop) -> Stop
        ensures stop { result ≡ stop }
        ensures noted { self.new ≡ noting (nothing_noted self.old.room) (alone stop) }
        ensures told { TellsFirst (alone stop) self.new stop }
    {
        self.clear();
        if let Stop::Refused(refusal) = stop {
            self.note(refusal);
        }
        stop
    }

    /// The first that was noted, where one was.
    pub fn first(&self) -> Option<Refusal>
        ensures { result ≡ self.now.first }
    {
        self.first.noted()
    }

    /// Those that were noted, as far as there was room.
    pub fn kept(&self) -> &[Refusal]
        ensures { result.now ≡ self.now.kept }
    {
        &self.places.as_slice()[..self.count]
    }

    /// For how many there is room.
    pub fn room(&self) -> usize
        ensures { result ≡ self.now.room }
    {
        self.places.len()
    }

    /// Refuses with the first that was noted, where one was.
    pub fn settle(&self) -> Result<(), Refusal>
        ensures { MatchResult result (λ _. self.now.first ≡ None) (λ refusal. self.now.first ≡ Some refusal) }
    {
        self.first.settle()
    }
}
