//! The top call of `tdl`: what the words after the program's name ask for is done on devices that
//! are handed in. `query` prints the events of a pattern, which is an expression or a text of
//! mini-notation; `play` plays a script of performers' lines and ticks to the OSC wire and keeps a log of it; `serve`
//! does so for performers on connections of their own, beside a clock; `drill` plays a script that it makes of a number.
#![tactic(auto)]

mod arcs;
mod batches;
mod console;
mod devices;
mod drills;
mod event_lines;
mod laws;
mod lines;
mod outcomes;
mod play;
mod queries;
mod query_faults;
mod responses;
mod script;
mod served;
mod stops;
mod top_call;
mod wires;

pub use devices::Outside;
pub use laws::{logs_tell_what_was_sent, runs_are_complete, scripts_may_cut_time_otherwise};
pub use outcomes::Outcome;
pub use tdl_core::History;
pub use tdl_event::{Event, Events};
pub use tdl_log::{Ends, PortEnd};
pub use tdl_serve::{Port, Ports};
pub use tdl_words::{WordsFault, cps_of, ports_of, words_ask_for_one_thing};
pub use top_call::{run, run_alone};
