//! The whole in one pure world: a bank on one thread, its keeper, its clients with their saved texts, a clock, and a network that
//! loses, repeats and reorders files.
//!
//! `World::run` makes steps one after another, whatever they are, over the cores that the programs run; its contract is what then
//! holds of the bank, of each reply and of each client. `sound_worlds_go_on` says the same of worlds whose bank and clients go on in
//! other ways. `rehearse` takes 2,000 turns by chance, from a seed, each an hour on the clock and at most one step, and counts what
//! came of them. No thread and nothing of the outside is involved.
#![tactic(auto)]

mod bag;
mod customer;
mod fault;
mod keeper;
mod laws;
mod parts;
mod rehearsal;
mod server;
mod step;
mod wishes;
mod world;

pub use laws::{laws_of_records, sound_worlds_go_on};
pub use rehearsal::{Summary, rehearse};
pub use step::Step;
pub use world::World;
