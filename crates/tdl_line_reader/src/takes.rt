// How the reader takes each token. What is done at a stage is a function of its own. But for the stages that are met most
// it is not put into the loop, which would make and clear the locals of all stages at each token else.
ghost use Rattle.std.specs.Prelude.{◌≡◌, ◌+◌, ◌<◌, ◌^◌, true, Ok, IfOk, IfErr, OnOk};
ghost use Rattle.tdl_mini_tree.specs.declared.leaves.Kind.{Kind};
ghost use Rattle.tdl_mini_tree.specs.Reading.{Reading};
ghost use Rattle.tdl_line_machine.specs.Machine as machine;
ghost use Rattle.tdl_line_reader.specs.ReaderView.{AgreesAt, AreReadings, Stops, state_of, stage_of, tok_value};

mod arguments;
mod expressions;
mod functions;
mod lines;
mod lists;
mod settings;

use crate::faults::Fault;
use crate::reader::LineTokenReader;
use crate::stages::Stage;
use crate::tokens::{Quoted, Tok};

impl LineTokenReader {
    /// Takes a further token at a stage. After a fault nothing goes on.
    pub fn take<Q: Quoted>(&mut self, stage: Stage, tok: &Tok<Q>) -> Result<Stage, Fault>
        requires { self.old.read < 2 ^ 31 }
        ensures ok { IfOk result (λ next. (readings : Kind → Reading) → AreReadings Q.reads readings tok.now
            → machine.taken true (state_of self.old stage) (tok_value readings tok.now) ≡ Ok (state_of self.new next)) }
        ensures count { OnOk result (self.new.read ≡ self.old.read + 1) }
        ensures err { IfErr result (λ fault. (readings : Kind → Reading) → AreReadings Q.reads readings tok.now
            → Stops (machine.taken true (state_of self.old stage) (tok_value readings tok.now)) fault) }
    {
        match self.take_next(stage, tok)? {
            Some(next) => {
                self.read += 1;
                Ok(next)
            }
            None => Err(self.refused(tok)),
        }
    }

    // The same before the token is counted. There is no next stage where nothing goes on with the token.
    fn take_next<Q: Quoted>(&mut self, stage: Stage, tok: &Tok<Q>) -> Result<Option<Stage>, Fault>
        ensures { AgreesAt Q.reads (λ c t. machine.taken_at true c t (stage_of stage)) self.old tok.now self.new result }
    {
        match stage {
            Stage::Beginning => self.take_beginning(tok),
            Stage::Flagging(flag) => self.take_flagged(tok, flag),
            Stage::Addressed { orbit } => self.take_addressed(tok, orbit),
            Stage::Jumping => self.take_jumping(tok),
            Stage::JumpingAt { orbit } => self.take_every(tok, orbit),
            Stage::Jumped { orbit, every } => self.take_jumped(tok, orbit, every),
            Stage::Done(command) => self.take_done(tok, command),
            // after the end nothing goes on
            Stage::Ended(_) => Ok(None),
            Stage::Wanting(spot) => self.take_wanted(tok, spot),
            Stage::Opening => self.take_opening(tok),
            Stage::Opened { number, at } => self.take_opened(tok, number, at),
            Stage::Measured(by) => self.take_measured(tok, by),
            Stage::Shifted { by, way } => self.take_shifted(tok, by, way),
            Stage::Expressed(expr) => self.take_expressed(tok, expr),
            Stage::Named(fun) => self.take_named(tok, fun),
            Stage::Chained(fun) => self.take_chained(tok, fun),
            Stage::Keyed(key) => self.take_keyed(tok, key),
            Stage::Setting => self.take_setting(tok),
            Stage::Negating => self.take_negating(tok),
            Stage::Negated(number) => self.take_negated(tok, number),
            Stage::Listing(shape) => self.take_listing(tok, shape),
            Stage::ListOpen => self.take_list_open(tok),
            Stage::Timing => self.take_timing(tok),
            Stage::PartsOpen => self.take_parts_open(tok),
            Stage::PartWanted => self.take_part(tok),
            Stage::PartRead => self.take_part_read(tok),
            Stage::Weighing => self.take_weighing(tok),
            Stage::Weighed(weight) => self.take_weighed(tok, weight),
            Stage::Asking { spot, asked } => self.take_asked(tok, spot, asked),
            Stage::Number(stage) => self.take_number(tok, stage),
        }
    }
}
