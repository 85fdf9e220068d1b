//! Which orders of the variables are tried one after the other, in which form the families are made, and how long each.
//!
//! Nothing is claimed of it: it decides how long it takes, and not what is found.

use crate::gates::Form;
use crate::inner_order::{WAYS, Way, way_of};

/// How many answers each may remember at first; and where there is a greatest order, which bounds the families.
const FIRST_ANSWERS: u64 = 4_096;

const FIRST_BOUNDED_ANSWERS: u64 = 65_536;

/// How often as many it may in the next round.
const MORE_ANSWERS: u64 = 16;

/// A try: an order of the variables, the form of the families, and how many answers may be remembered.
#[derive(Clone, Copy)]
pub(crate) struct Try {
    pub way: Way,
    pub form: Form,
    pub answers: u64,
}

/// How far a try came: how many families of facts were made, how many answers were left behind the last of them, and whether
/// the family was found and only to be brought into the order of the events.
#[derive(Clone, Copy, PartialEq, Eq, PartialOrd, Ord)]
pub(crate) struct Distance {
    pub facts: usize,
    pub left: u64,
    pub found: bool,
}

impl Distance {
    /// The beginning.
    pub(crate) const NONE: Distance = Distance {
        facts: 0,
        left: 0,
        found: false,
    };

    /// The family was found: no try is behind this one that has made the families of all facts.
    pub(crate) fn find(&mut self) {
        self.left = 0;
        self.found = true;
    }
}

/// One that goes on: an order and a form, and how far it came the last time.
#[derive(Clone, Copy)]
struct Runner {
    way: Way,
    form: Form,
    distance: Distance,
}

impl Runner {
    fn new(way: Way, form: Form) -> Runner {
        Runner {
            way,
            form,
            distance: Distance::NONE,
        }
    }
}

/// The tries so far. At first each order is tried in each form. Then some go on, in each round the one first that came
/// farthest in the round before: of the wide families those in the order of the events, of which nothing is to be renamed,
/// and in the best other order; and the minimal ones in the best order.
#[derive(Clone, Copy)]
pub(crate) struct Race {
    answers: u64,
    // whether each is tried for the first time
    opening: bool,
    // how many rounds ended
    rounds: u32,
    // how many were tried in this round
    turn: u32,
    // whether wide families are tried too
    wide: bool,
    first: Runner,
    second: Runner,
    third: Runner,
}

impl Race {
    pub(crate) fn new(wide: bool) -> Race {
        let form = if wide { Form::Wide } else { Form::Minimal };
        let answers = if wide {
            FIRST_ANSWERS
        } else {
            FIRST_BOUNDED_ANSWERS
        };
        Race {
            answers,
            opening: true,
            rounds: 0,
            turn: 0,
            wide,
            first: Runner::new(Way::Numbered, form),
            second: Runner::new(Way::Written, form),
            third: Runner::new(Way::Numbered, Form::Minimal),
        }
    }

    /// How many rounds ended.
    pub(crate) fn rounds(&self) -> u32 {
        self.rounds
    }

    /// The next try.
    pub(crate) fn next(&self) -> Try {
        let runner = self.runner();
        Try {
            way: runner.way,
            form: runner.form,
            answers: self.answers,
        }
    }

    /// The last try, which may remember all.
    pub(crate) fn last(&self) -> Try {
        Try {
            answers: u64::MAX,
            ..self.next()
        }
    }

    // The one whose turn it is.
    fn runner(&self) -> Runner {
        if self.opening {
            return self.opener();
        }
        match self.turn {
            0 => self.first,
            1 => self.second,
            _ => self.third,
        }
    }

    // The one whose turn it is in the first round.
    fn opener(&self) -> Runner {
        if !self.wide {
            return Runner::new(way_of(self.turn), Form::Minimal);
        }
        let form = if self.turn % 2 == 0 {
            Form::Wide
        } else {
            Form::Minimal
        };
        Runner::new(way_of(self.turn / 2), form)
    }

    // How many are tried in this round.
    fn tries(&self) -> u32 {
        if !self.opening {
            return if self.wide { 3 } else { 2 };
        }
        if self.wide { WAYS * 2 } else { WAYS }
    }

    /// The try was given up when it had come so far.
    pub(crate) fn tell(&mut self, distance: Distance) {
        let runner = Runner {
            distance,
            ..self.runner()
        };
        if self.opening {
            self.choose(runner);
        } else {
            self.note(runner);
        }
        self.turn = self.turn.saturating_add(1);
        if self.turn >= self.tries() || (self.opening && distance.found) {
            self.end_round();
        }
    }

    // Whether one goes on that was tried for the first time.
    fn choose(&mut self, runner: Runner) {
        if !self.wide {
            if runner.distance > self.first.distance {
                self.second = self.first;
                self.first = runner;
            } else if runner.distance > self.second.distance {
                self.second = runner;
            }
        } else if runner.form == Form::Minimal {
            self.third = farther(self.third, runner);
        } else if runner.way == Way::Numbered {
            self.first = runner;
        } else {
            self.second = farther(self.second, runner);
        }
    }

    // How far one came that goes on.
    fn note(&mut self, runner: Runner) {
        match self.turn {
            0 => self.first = runner,
            1 => self.second = runner,
            _ => self.third = runner,
        }
    }

    fn end_round(&mut self) {
        self.opening = false;
        self.rounds = self.rounds.saturating_add(1);
        self.turn = 0;
        self.answers = self.answers.saturating_mul(MORE_ANSWERS);
        if self.wide {
            self.turn_last();
        }
        if self.second.distance > self.first.distance {
            let first = self.first;
            self.first = self.second;
            self.second = first;
        }
        if self.wide {
            self.turn_last();
        }
    }

    // Puts the second and the third in order.
    fn turn_last(&mut self) {
        if self.third.distance > self.second.distance {
            let second = self.second;
            self.second = self.third;
            self.third = second;
        }
    }
}

// The one of two that came farther; the first where they came as far.
fn farther(first: Runner, second: Runner) -> Runner {
    if second.distance > first.distance {
        second
    } else {
        first
    }
}
