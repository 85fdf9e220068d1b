//! Runs samples through the calls of `fmea_rows`: tables of systems that are written in lines, random systems whose rows are
//! compared with those that the rounds under each event give, and large systems.
//!
//! The lines of a system are `event NAME`, `fact NAME FORMULA`, `effects NUMBER ..` or `effects all`, and `table`, which prints its
//! table. A formula stands with its parts before it: `t` is always true, `e0` the first event, `f0` the first fact, and `and2`,
//! `or2` and `2of3` take so many parts. `random SEED COUNT`, `rings GROUPS SIZE FACTS` and `ring table GROUPS SIZE FACTS` make
//! systems of their own. A line that begins with `#` says nothing.
#![tactic(auto)]

mod compared;
mod names;
mod reading;
mod rings;
mod sample;

use fta_outside::StdSink;
use sample::Sample;
use std::io;

fn main(rt: HostRuntime) -> io::Result<()> {
    let mut sample = Sample::new(rt.alloc());
    let mut out = StdSink::new(rt.stdout());
    for line in rt.lines(rt.alloc()) {
        let line = line?;
        sample.take_line(&rt, rt.alloc(), line.as_bytes(), &mut out)?;
    }
    Ok(())
}
