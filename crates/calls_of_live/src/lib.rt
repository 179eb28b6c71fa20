//! Calls of the service on threads and of the program's `live`, with what they have to answer: two passes of one service, runs
//! of input in memory, and each other end of them.
//!
//! A body that always answered want of memory would meet its contract, and so would one that served its clients one after
//! the other; these tests refuse both. Four of them are under a gate that keeps a thread at one point until another has
//! passed one, for a stated number of turns at the most: a service that let its clients wait for one another would not end
//! them within it. The tests stand apart from the crates that they call, since those of a crate prove the whole crate once
//! more.
#![tactic(auto)]

#[cfg(test)]
mod calls;
#[cfg(test)]
mod ends;
#[cfg(test)]
mod gates;
#[cfg(test)]
mod passes;
#[cfg(test)]
mod plans;
