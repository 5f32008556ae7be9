//! Tests of the libraries, of what no clause says and no command shows: values from outside, machines that are stepped by
//! hand, streams and gates in memory. `tests/` and `examples/` have what the program shows.
//!
//! They stand in a crate of their own since a crate with tests is proved a second time with them.
#![tactic(auto)]

#[cfg(test)]
mod cache;
#[cfg(test)]
mod cut;
#[cfg(test)]
mod fabric;
#[cfg(test)]
mod failing;
#[cfg(test)]
mod flow;
#[cfg(test)]
mod gates;
#[cfg(test)]
mod io;
#[cfg(test)]
mod live_run;
#[cfg(test)]
mod orders;
#[cfg(test)]
mod queue;
#[cfg(test)]
mod row_claim;
#[cfg(test)]
mod stream;
#[cfg(test)]
mod switch;
#[cfg(test)]
mod tile;
#[cfg(test)]
mod topo;
