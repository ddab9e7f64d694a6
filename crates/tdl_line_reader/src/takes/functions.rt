// The tokens of functions.
ghost use Rattle.std.specs.Prelude.{◌≡◌, true, false};
ghost use Rattle.tdl_command.specs.View.{fun_of};
ghost use Rattle.tdl_line_machine.specs.Machine as machine;
ghost use Rattle.tdl_line_reader.specs.ReaderView.{AgreesAt, AgreesEach, spot_of, called_of, count_call_of, round_of, stage_of, core_of};
ghost use Rattle.tdl_line_reader.specs.inside.TakesView.{begins_operand};

use crate::faults::Fault;
use crate::reader::LineTokenReader;
use crate::stages::{Asked, Bracketed, Called, CountCall, FunCall, Hole, Pending, Spot, Stage};
use crate::tokens::{Quoted, Tok};
use tdl_command::Fun;
use tdl_line_machine::{Mark, Name, RatioCall};

impl LineTokenReader {
    // The name with which a function begins.
    #[inline(never)]
    pub(super) fn take_fun_name(&mut self, spot: Spot, name: Name) -> Result<Option<Stage>, Fault>
        requires { begins_operand name ≡ false }
        ensures { AgreesEach (λ c t. machine.taken_name c t (spot_of spot) name) self.old self.new result }
    {
        let stage = match name {
            Name::Bare(fun) => return self.made(spot, Fun::Bare(fun)),
            Name::Const => {
                self.push(Hole::Constant { spot }, self.depth)?;
                Stage::Wanting(Spot::Operand)
            }
            Name::OfRatio(fun) => Stage::Asking {
                spot,
                asked: Asked::Ratio(RatioCall::Of(fun)),
            },
            Name::Off => Stage::Asking {
                spot,
                asked: Asked::Ratio(RatioCall::Off),
            },
            Name::OfBools(fun) => Stage::Asking {
                spot,
                asked: Asked::Bools(fun),
            },
            Name::Layer(fun) => Stage::Asking {
                spot,
                asked: Asked::Fun(FunCall::Layer(fun)),
            },
            Name::Within => Stage::Asking {
                spot,
                asked: Asked::Bounds,
            },
            Name::OfCount(fun) => asking_count(spot, CountCall::Of(fun)),
            Name::Every => asking_count(spot, CountCall::Every),
            Name::Cycle(fun) => asking_count(spot, CountCall::Cycles(fun)),
            Name::Euclid => asking_count(spot, CountCall::Hits),
            Name::EuclidOff => asking_count(spot, CountCall::OffHits),
            _ => return Ok(None),
        };
        Ok(Some(stage))
    }

    /// A function with a further argument, at a spot.
    #[inline(always)]
    pub(super) fn called(&mut self, spot: Spot, called: Called) -> Result<Option<Stage>, Fault>
        ensures { AgreesEach (λ c t. machine.called c (spot_of spot) (called_of called)) self.old self.new result }
    {
        match called {
            Called::WantsCount(call) => Ok(Some(Stage::Asking {
                spot,
                asked: Asked::Count(call),
            })),
            Called::WantsFun(call) => Ok(Some(Stage::Asking {
                spot,
                asked: Asked::Fun(call),
            })),
            Called::Whole(fun) => self.made(spot, fun),
        }
    }

    // After a function with a name.
    #[inline(never)]
    pub(super) fn take_named<Q: Quoted>(
        &mut self,
        tok: &Tok<Q>,
        fun: Box<Fun>,
    ) -> Result<Option<Stage>, Fault>
        ensures { AgreesAt Q.reads (λ c t. machine.after_named true c t (fun_of fun.value)) self.old tok.now self.new result }
    {
        match *tok {
            Tok::Mark(Mark::Dot | Mark::Dollar | Mark::CloseRound) => self.take_chained(tok, fun),
            _ if self.has_exprs() => {
                self.level.push(Pending::Called(fun))?;
                self.take_wanted(tok, Spot::Operand)
            }
            _ => Ok(None),
        }
    }

    // After a function that no operand may follow.
    #[inline(never)]
    pub(super) fn take_chained<Q: Quoted>(
        &mut self,
        tok: &Tok<Q>,
        fun: Box<Fun>,
    ) -> Result<Option<Stage>, Fault>
        ensures { AgreesAt Q.reads (λ c t. machine.after_fun c t (fun_of fun.value)) self.old tok.now self.new result }
    {
        match *tok {
            Tok::Mark(Mark::Dot) => Ok(Some(Stage::Wanting(Spot::AfterDot(fun)))),
            Tok::Mark(Mark::Dollar) if self.has_exprs() => {
                self.level.push(Pending::Applied(fun))?;
                Ok(Some(Stage::Wanting(Spot::First)))
            }
            Tok::Mark(Mark::CloseRound) if self.may_close_fun() => {
                self.close_round(Fun::Inside(fun))
            }
            _ => Ok(None),
        }
    }

    /// Whether a bracket can be closed after a function alone.
    pub(super) fn may_close_fun(&self) -> bool
        ensures { result ≡ machine.may_close_fun (core_of self.now) }
    {
        self.has_funs() && self.level.is_empty()
    }

    /// Closes a round bracket with a function in it.
    #[inline(always)]
    pub(super) fn close_round(&mut self, fun: Fun) -> Result<Option<Stage>, Fault>
        ensures { AgreesEach (λ c t. machine.closed c.frames c t (machine.in_hole t (fun_of fun))) self.old self.new result }
    {
        match self.close() {
            Some(Hole::Bracketed(round)) => self.paren(round, fun),
            _ => Ok(None),
        }
    }

    /// A function in a round bracket that is closed.
    #[inline(always)]
    pub(super) fn paren(&mut self, round: Bracketed, fun: Fun) -> Result<Option<Stage>, Fault>
        ensures { AgreesEach (λ c t. machine.in_round c t (round_of round) (fun_of fun)) self.old self.new result }
    {
        match round {
            Bracketed::Anything | Bracketed::FunOrNumber => {
                Ok(Some(Stage::Chained(Box::new(self.alloc, fun)?)))
            }
            Bracketed::FunAfter(next) => {
                let first = Box::new(self.alloc, fun)?;
                Ok(Some(Stage::Chained(self.chain(next, first)?)))
            }
            Bracketed::Argument { spot, call } => {
                let whole = call.with(self.alloc, fun)?;
                self.made(spot, whole)
            }
            Bracketed::ExprOrNumber => Ok(None),
        }
    }
}

fn asking_count(spot: Spot, call: CountCall) -> Stage
    ensures { stage_of result ≡ machine.asking_count (spot_of spot) (count_call_of call) }
{
    Stage::Asking {
        spot,
        asked: Asked::Count(call),
    }
}
