ghost use Rattle.std.specs.Prelude.{◌≡◌, not};
ghost use Rattle.std.specs.List.{list_any};
ghost use Rattle.error_libraries.specs.Search.{is_number_in};

use plain_values::List;

/// A side of a point, inward or outward.
#[derive(Drop)]
pub enum Side {
    /// The point has no such side.
    Absent,
    /// A side for which no types are declared: all types of the instance may be there.
    Free,
    /// The numbers of the types that are declared for the side, rising.
    Declared(List<u32>),
}

/// Which types of a side are meant.
#[derive(Drop)]
pub enum Reach {
    /// All types of the side.
    Whole,
    /// Those of these numbers, rising.
    Only(List<u32>),
}

impl Reach {
    ghost use Rattle.propagation_points.specs.Uses.{covers};

    /// Whether a type of the side, by its number, is meant.
    pub fn covers(&self, number: u32) -> bool
        ensures { result ≡ covers self.now number }
    {
        match self {
            Reach::Whole => true,
            Reach::Only(types) => is_number_in(types.items(), number),
        }
    }
}

/// Whether one of the numbers is none of those that are declared.
///
/// Where both rise, each is passed once.
pub(crate) fn has_other(declared: &[u32], numbers: &[u32]) -> bool
    ensures { result ≡ list_any (λ number. not (is_number_in declared.now number)) numbers.now }
{
    let mut next = 0;
    for number in numbers {
        next = skip_below(declared, next, *number);
        if !has_at(declared, next, *number) {
            return true;
        }
    }
    false
}

/// The place, from this one on, of the first number that is not below this one.
fn skip_below(numbers: &[u32], from: usize, number: u32) -> usize {
    let mut place = from;
    while place < numbers.len() && numbers[place] < number {
        place += 1;
    }
    place
}

/// Whether a number is one of these; it is looked for at this place first.
fn has_at(numbers: &[u32], place: usize, number: u32) -> bool
    ensures { result ≡ is_number_in numbers.now number }
{
    if place < numbers.len() && numbers[place] == number {
        return true;
    }
    is_number_in(numbers, number)
}

/// Whether a number is one of these.
pub fn is_number_in(numbers: &[u32], number: u32) -> bool
    ensures { result ≡ is_number_in numbers.now number }
{
    for other in numbers {
        if *other == number {
            return true;
        }
    }
    false
}
