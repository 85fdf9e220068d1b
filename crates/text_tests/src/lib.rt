//! Tests over public calls, of what no contract says and no row can show: each generic call at a type, each law called once,
//! and the real files and streams. Rows of texts stand in `rows`.
#![tactic(auto)]

#[cfg(test)]
mod grammar;
#[cfg(test)]
mod laws;
#[cfg(test)]
mod outside;
#[cfg(test)]
mod steps;
#[cfg(test)]
mod syntax;
