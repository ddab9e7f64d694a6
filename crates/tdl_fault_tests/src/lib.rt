//! Runs in which one call of one device fails, each in turn: what is there of every device then.
#![tactic(auto)]

#[cfg(test)]
mod devices;
#[cfg(test)]
mod played;
#[cfg(test)]
mod scripts;
#[cfg(test)]
mod served;
#[cfg(test)]
mod texts;
