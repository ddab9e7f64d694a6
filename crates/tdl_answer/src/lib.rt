//! What answers a performer's line, apart from the script or the connection that it comes from: the call that its text
//! asks for, or why it makes none (`asked_call`), the line that is replied (`reply_text` and those beside it), the
//! sending of packets and messages, and the last line of a run.
#![tactic(auto)]

mod asked;
mod ends;
mod laws;
mod refusals;
mod replies;
mod said_lines;
mod sends;
mod text_faults;
mod texts;

pub use asked::{Unmade, asked_call};
pub use ends::end_line;
pub use laws::texts_ask_for_one_thing;
pub use refusals::Refusal;
pub use replies::{ReplyText, refusal_text, reply_text, unmade_text};
pub use said_lines::SaidLines;
pub use sends::{send_all, send_notes, send_with};
pub use text_faults::TextFault;
