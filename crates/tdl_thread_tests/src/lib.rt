//! Callers of one machine on threads of their own: the tests of the lock, its passes, the tape and a shared core.
#![tactic(auto)]

#[cfg(test)]
mod eight;
#[cfg(test)]
mod shared_core;
#[cfg(test)]
mod tape;
#[cfg(test)]
mod two;
