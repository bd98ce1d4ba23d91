//! Tests of threads around the core: workers, and a session beside one. Each shows what no contract
//! says: that something happens, or that two things happen at once. With ample memory: if memory
//! runs out the result is `None` or `false`.
//!
//! - `showing`: what is shown, each of a core of its own.
//! - `workers`: a worker that drains a closed queue, two steps at once, and a step without the
//!   lock.
//! - `failing`: sessions whose reader or writer fails at each call in turn.
//! - `same_told`: four sessions beside workers that hold each step; each has the replies that it
//!   has alone.
//! - `waiting`: a worker that holds each step, or gives each number up, and the answers to `wait`.
//! - `meanwhile`: what is done to a tenancy while a worker holds a step of it.
//! - `conversations`, `cores`, `gates`, `seats`, `telling`: what these share.
#![tactic(auto)]

#[cfg(test)]
mod conversations;
#[cfg(test)]
mod cores;
#[cfg(test)]
mod failing;
#[cfg(test)]
mod gates;
#[cfg(test)]
mod meanwhile;
#[cfg(test)]
mod same_told;
#[cfg(test)]
mod seats;
#[cfg(test)]
mod showing;
#[cfg(test)]
mod telling;
#[cfg(test)]
mod waiting;
#[cfg(test)]
mod workers;
