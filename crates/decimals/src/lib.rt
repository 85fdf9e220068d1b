//! Decimals on one scale: parts of a whole that is a power of ten, rounded down and up.
//!
//! A decimal has 18 digits at most and an exponent, so a bound of a probability takes two machine words whatever its size is.
//! Each sum, each product and each rest is rounded outward, by one in the 17th digit at most.
#![tactic(auto)]

mod aligned;
mod arithmetic;
mod decimal;
mod decimal_text;
mod digits;
mod figures;
mod numeral;
mod parted;
mod read;
mod reading;
mod rounding;
mod written;

pub use decimal::Decimal;
pub use decimal_text::text_reads_back;
pub use numeral::Numeral;
