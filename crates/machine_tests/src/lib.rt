//! Tests of the machine of the live service with workers. Each shows what no contract says: that
//! steps come to be made, that each `wait` is answered, and that what is told is what a service
//! without workers answers to the lines that are kept. With ample memory: if memory runs out the
//! result is `None` or `false`.
//!
//! - `plain_run`: a netlist that is packed, placed and routed, line by line.
//! - `random_days`: random dialogues, with steps that are taken, put and given back at random
//!   moments, beside a service without workers.
//! - `floods`: more than can wait for one name, and texts that are too long to wait.
//! - `given_up`: a `wait` for whose job memory goes on running out.
//! - `turns`: names that have said much have their turns round and round.
//! - `day`, `hand`: what a test gives a machine and takes from it, and steps that are out.
//! - `talk`: random lines of a few names.
//! - `served`: lines that came beside lines that were served.
//! - `plain_service`: the service without workers.
//! - `device`, `machine_test`: what is tested on.
#![tactic(auto)]

#[cfg(test)]
mod day;
#[cfg(test)]
mod device;
#[cfg(test)]
mod floods;
#[cfg(test)]
mod given_up;
#[cfg(test)]
mod hand;
#[cfg(test)]
mod machine_test;
#[cfg(test)]
mod plain_run;
#[cfg(test)]
mod plain_service;
#[cfg(test)]
mod random_days;
#[cfg(test)]
mod served;
#[cfg(test)]
mod talk;
#[cfg(test)]
mod turns;
