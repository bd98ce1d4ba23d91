//! Tests of the ready queue and of a backlog: what no contract says of them, which is that
//! something happens.
//!
//! - `bounded`: a backlog up to its bounds.
//! - `closing`: a queue that is closed.
//! - `order`: which number is popped first.
//! - `meeting`: seats that push and pop on threads of their own.
//! - `first_queue`: equal pushes and pops in a queue of one line.
//! - `showing`: what is shown of a queue that is made, lent and dropped in one place.
//! - `crew`, `numbers`: a queue with three seats and a pass, and many pushes and pops.
#![tactic(auto)]

#[cfg(test)]
mod bounded;
#[cfg(test)]
mod closing;
#[cfg(test)]
mod crew;
#[cfg(test)]
mod first_queue;
#[cfg(test)]
mod meeting;
#[cfg(test)]
mod numbers;
#[cfg(test)]
mod order;
#[cfg(test)]
mod showing;
