ghost use Rattle.std.specs.Prelude.{◌≡◌, ◌<◌, ℕ, All, IfOk, length, replicate, slice_set, true, false};
ghost use Rattle.fault_system.specs.Truth.{member, set_of};

use plain_values::Mem;
use std::alloc::Global;
use std::marker::Model;

/// A set of numbers.
pub trait Numbers {
    ghost use Rattle.std.specs.Prelude.{◌≡◌};
    ghost use Rattle.fault_system.specs.Truth.{NumberSet};

    ghost set: { Self → NumberSet };

    /// Whether a number is in the set.
    fn is_in(&self, number: u32) -> bool
        ensures { result ≡ set self.now number };
}

/// A set of numbers below its size.
#[derive(Drop)]
pub struct Bits {
    bits: Vec<bool>,
}

impl Model for Bits {
    ghost use Rattle.std.specs.Prelude.{List, Bool, ◌<◌, ◌^◌, length};

    ghost Value = { List Bool };

    ghost view = { λ b. b.bits.items };

    ghost invariant = { λ b. length b.bits.items < 2 ^ 32 };
}

impl Bits {
    /// The empty set of numbers below a size.
    pub fn new(alloc: Global, size: u32) -> Mem<Bits>
        ensures { IfOk result (λ bits. bits ≡ replicate size false) }
    {
        Ok(Bits {
            bits: vec![in alloc; false; size as usize]?,
        })
    }

    /// The set of these numbers, all of which are below the size.
    pub fn of(alloc: Global, size: u32, numbers: &[u32]) -> Mem<Bits>
        requires { All (λ n. n < size) numbers.now }
        ensures size { IfOk result (λ bits. length bits ≡ size) }
        ensures numbers { IfOk result (λ bits. (n : ℕ) → member bits n ≡ set_of numbers.now n) }
    {
        let mut bits = Bits::new(alloc, size)?;
        for number in numbers {
            bits.put(*number);
        }
        Ok(bits)
    }

    /// The size: each number of the set is below it.
    pub fn size(&self) -> u32
        ensures { result ≡ length self.now }
    {
        self.bits.len() as u32
    }

    /// Whether a number is in the set; none from the size on is.
    pub fn has(&self, number: u32) -> bool
        ensures { result ≡ member self.now number }
    {
        (number as usize) < self.bits.len() && self.bits[number as usize]
    }

    /// Puts a number into the set.
    pub fn put(&mut self, number: u32)
        requires { number < length self.old }
        ensures { self.new ≡ slice_set self.old number true }
    {
        self.bits[number as usize] = true;
    }

    /// Takes a number out of the set.
    pub fn take(&mut self, number: u32)
        requires { number < length self.old }
        ensures { self.new ≡ slice_set self.old number false }
    {
        self.bits[number as usize] = false;
    }
}

impl Numbers for Bits {
    ghost set = { member };

    fn is_in(&self, number: u32) -> bool {
        self.has(number)
    }
}
