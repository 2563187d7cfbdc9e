// What C and Rust link: each function of `basilothyn` under its own name, with C's calling convention.
#![tactic(auto)]

mod event;
mod io;
mod reports;
mod wire;
