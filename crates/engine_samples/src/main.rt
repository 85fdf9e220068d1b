//! Runs samples through calls below the tool: systems that the plain program lists, and families that grow fast, of which it
//! prints how large their diagrams are.
//!
//! Each line of the input is `pairs N`, for `(a1 or b1) and .. and (aN or bN)`, `choose K N`, for at least K of N, or a system: a
//! formula for each fact, with `;` between them.
#![tactic(auto)]

mod counts;
mod families;
mod systems;

use std::alloc::Global;
use std::io;
use std::io::Print;
use zdd_store::{Id, Store};

fn main(rt: HostRuntime) -> io::Result<()> {
    for line in rt.lines(rt.alloc()) {
        let line = line?;
        println!(rt; "{}", line.as_str())?;
        print_answers(&rt, rt.alloc(), line.as_bytes())?;
    }
    Ok(())
}

/// Prints what is found of a line.
fn print_answers(rt: &impl Print, alloc: Global, line: &[u8]) -> io::Result<()> {
    if let Some(count) = line.strip_prefix(b"pairs ") {
        return print_pairs(rt, alloc, number_of(count));
    }
    if let Some(numbers) = line.strip_prefix(b"choose ") {
        return print_choices(rt, alloc, numbers);
    }
    systems::print_listings(rt, alloc, line)
}

/// The number that digits write.
fn number_of(digits: &[u8]) -> u32 {
    let mut number = 0u32;
    for digit in digits {
        number = number
            .saturating_mul(10)
            .saturating_add(u32::from(digit.wrapping_sub(b'0')));
    }
    number
}

fn print_pairs(rt: &impl Print, alloc: Global, count: u32) -> io::Result<()> {
    let mut store = Store::new(alloc);
    let family = families::pairs(&mut store, count)?;
    print_counts(rt, alloc, &store, family)
}

fn print_choices(rt: &impl Print, alloc: Global, numbers: &[u8]) -> io::Result<()> {
    let mut words = numbers.split(|b| *b == b' ');
    let k = number_of(words.next().unwrap_or(&[]));
    let count = number_of(words.next().unwrap_or(&[]));
    let mut store = Store::new(alloc);
    let family = families::choose(alloc, &mut store, k, count)?;
    print_counts(rt, alloc, &store, family)
}

/// Prints how many nodes and how many sets there are.
fn print_counts(rt: &impl Print, alloc: Global, store: &Store, family: Id) -> io::Result<()> {
    println!(rt; "nodes {}", counts::nodes(alloc, store, family)?)?;
    match counts::sets(alloc, store, family)? {
        Some(count) => println!(rt; "sets {count}"),
        None => println!(rt; "more sets than 128 bits count"),
    }
}
