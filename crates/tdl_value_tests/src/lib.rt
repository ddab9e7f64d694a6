//! Tests of the crates of values, of inputs and outputs, and of wires, by what these make public: numbers, control
//! maps, rhythms, events, devices, lines, tempos, notes and what plays.
#![tactic(auto)]

#[cfg(test)]
mod agenda;
#[cfg(test)]
mod clocks;
#[cfg(test)]
mod control;
#[cfg(test)]
mod desk;
#[cfg(test)]
mod euclid;
#[cfg(test)]
mod event;
#[cfg(test)]
mod fraction;
#[cfg(test)]
mod io;
#[cfg(test)]
mod lines;
#[cfg(test)]
mod midi;
#[cfg(test)]
mod notes;
#[cfg(test)]
mod order;
#[cfg(test)]
mod tempo;
