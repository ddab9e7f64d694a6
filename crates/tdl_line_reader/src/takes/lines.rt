// The tokens of a line before its expression.
ghost use Rattle.std.specs.Prelude.{◌≡◌, ℕ, Some, true, IfOk, IfErr, IfSome};
ghost use Rattle.tdl_line_machine.specs.declared.faults.LineKind.TheVariants.{BadOrbit, BadEvery};
ghost use Rattle.tdl_command.specs.Rules.{is_orbit, is_every};
ghost use Rattle.tdl_command.specs.Tree as tree;
ghost use Rattle.tdl_command.specs.View.{line_of};
ghost use Rattle.tdl_line_machine.specs.Machine as machine;
ghost use Rattle.tdl_line_reader.specs.ReaderView.{AgreesAt, StopsAt};
ghost use Rattle.tdl_line_reader.specs.inside.TakesView.{whole_part, whole_in};

use crate::faults::Fault;
use crate::reader::LineTokenReader;
use crate::stages::{Front, Spot, Stage};
use crate::tokens::{Quoted, Tok};
use tdl_command::{Command, Flag, Whole};
use tdl_control::{MAX_EVERY, MAX_ORBIT};
use tdl_line_machine::{LineKind, Mark, Name};
use tdl_mini_tree::{Number, Tail};

// A whole number without sign.
pub(super) fn whole_of(number: Number) -> Option<u32>
    ensures { result ≡ whole_part number }
{
    match number.tail {
        Tail::Whole if !number.is_negative => Some(number.whole),
        _ => None,
    }
}

fn whole_in<Q: Quoted>(tok: &Tok<Q>) -> Option<u32>
    ensures { result ≡ whole_in tok.now }
{
    match *tok {
        Tok::Number(number) => whole_of(number),
        _ => None,
    }
}

fn is_orbit(number: u32) -> bool
    ensures { result ≡ is_orbit number }
{
    number >= 1 && number <= u32::from(MAX_ORBIT)
}

fn is_every(number: u32) -> bool
    ensures { result ≡ is_every number }
{
    number >= 1 && number <= MAX_EVERY
}

impl LineTokenReader {
    pub(super) fn take_beginning<Q: Quoted>(&mut self, tok: &Tok<Q>) -> Result<Option<Stage>, Fault>
        ensures { AgreesAt Q.reads (λ c t. machine.at_beginning true c t) self.old tok.now self.new result }
    {
        match *tok {
            Tok::Name(Name::Order(order)) => Ok(Some(Stage::Done(Command::Order(order)))),
            Tok::Name(Name::Flag(flag)) => Ok(Some(Stage::Flagging(flag))),
            Tok::Name(Name::JumpMod) => Ok(Some(Stage::Jumping)),
            Tok::Name(Name::Orbit(Some(orbit))) => Ok(Some(Stage::Addressed { orbit })),
            Tok::Name(Name::Orbit(None)) => {
                self.check(false, LineKind::BadOrbit)?;
                Ok(None)
            }
            Tok::End => Ok(Some(Stage::Ended(Whole::Line(Command::Nothing)))),
            _ => Ok(None),
        }
    }

    // An orbit, if the token is a whole number without sign.
    fn orbit<Q: Quoted>(&self, tok: &Tok<Q>) -> Result<Option<u8>, Fault>
        ensures ok { IfOk result (λ orbit. whole_in tok.now ≡ orbit) }
        ensures holds { IfOk result (λ orbit. IfSome orbit (λ n. is_orbit n ≡ true)) }
        ensures err { (next : ℕ → machine.Stage) → IfErr result (StopsAt Q.reads (λ c t. machine.at_whole true c t BadOrbit is_orbit next) self.now tok.now) }
    {
        let Some(number) = whole_in(tok) else {
            return Ok(None);
        };
        self.check(is_orbit(number), LineKind::BadOrbit)?;
        Ok(Some(number as u8))
    }

    #[inline(never)]
    pub(super) fn take_flagged<Q: Quoted>(
        &mut self,
        tok: &Tok<Q>,
        flag: Flag,
    ) -> Result<Option<Stage>, Fault>
        ensures { AgreesAt Q.reads (λ c t. machine.at_whole true c t BadOrbit is_orbit (λ n. machine.done (tree.flag flag n)))
            self.old tok.now self.new result }
    {
        let Some(orbit) = self.orbit(tok)? else {
            return Ok(None);
        };
        Ok(Some(Stage::Done(Command::Flag { flag, orbit })))
    }

    pub(super) fn take_addressed<Q: Quoted>(
        &mut self,
        tok: &Tok<Q>,
        orbit: u8,
    ) -> Result<Option<Stage>, Fault>
        ensures { AgreesAt Q.reads (λ c t. machine.at_addressed c t (Some orbit)) self.old tok.now self.new result }
    {
        match *tok {
            Tok::Mark(Mark::Dollar) => {
                self.front = Front::Play { orbit };
                Ok(Some(Stage::Wanting(Spot::First)))
            }
            Tok::Name(Name::Silence) => Ok(Some(Stage::Done(Command::Silence { orbit }))),
            _ => Ok(None),
        }
    }

    #[inline(never)]
    pub(super) fn take_jumping<Q: Quoted>(&mut self, tok: &Tok<Q>) -> Result<Option<Stage>, Fault>
        ensures { AgreesAt Q.reads (λ c t. machine.at_whole true c t BadOrbit is_orbit machine.jumping_at) self.old tok.now self.new result }
    {
        let Some(orbit) = self.orbit(tok)? else {
            return Ok(None);
        };
        Ok(Some(Stage::JumpingAt { orbit }))
    }

    #[inline(never)]
    pub(super) fn take_every<Q: Quoted>(
        &mut self,
        tok: &Tok<Q>,
        orbit: u8,
    ) -> Result<Option<Stage>, Fault>
        ensures { AgreesAt Q.reads (λ c t. machine.at_whole true c t BadEvery is_every (machine.jumped orbit)) self.old tok.now self.new result }
    {
        let Some(every) = whole_in(tok) else {
            return Ok(None);
        };
        self.check(is_every(every), LineKind::BadEvery)?;
        Ok(Some(Stage::Jumped { orbit, every }))
    }

    #[inline(never)]
    pub(super) fn take_jumped<Q: Quoted>(
        &mut self,
        tok: &Tok<Q>,
        orbit: u8,
        every: u32,
    ) -> Result<Option<Stage>, Fault>
        ensures { AgreesAt Q.reads (λ c t. machine.at_mark c t (machine.dollar_mark c t (machine.jumps orbit every))) self.old tok.now self.new result }
    {
        match *tok {
            Tok::Mark(Mark::Dollar) => {
                self.front = Front::Jump { orbit, every };
                Ok(Some(Stage::Wanting(Spot::First)))
            }
            _ => Ok(None),
        }
    }

    #[inline(never)]
    pub(super) fn take_done<Q: Quoted>(
        &mut self,
        tok: &Tok<Q>,
        command: Command,
    ) -> Result<Option<Stage>, Fault>
        ensures { AgreesAt Q.reads (λ c t. machine.at_done c t (line_of command)) self.old tok.now self.new result }
    {
        match *tok {
            Tok::End => Ok(Some(Stage::Ended(Whole::Line(command)))),
            _ => Ok(None),
        }
    }
}
