// The tokens of arguments.
ghost use Rattle.std.specs.Prelude.{◌≡◌, true, IfOk, IfErr};
ghost use Rattle.tdl_mini_tree.specs.Extremes.{AreExtremes};
ghost use Rattle.tdl_command.specs.Rules.{is_below, count_values};
ghost use Rattle.tdl_command.specs.Rules.{whole_number};
ghost use Rattle.tdl_command.specs.View.{count_of};
ghost use Rattle.tdl_line_machine.specs.Machine as machine;
ghost use Rattle.tdl_line_reader.specs.ReaderView.{AgreesAt, AgreesEach};
ghost use Rattle.tdl_line_reader.specs.ReaderView.{asking_of, first_of, number_of, spot_of, count_call_of, fun_call_of};
ghost use Rattle.tdl_line_reader.specs.inside.TakesView.{CountsAs, IsNotCounted};

use crate::calls::with_ratio;
use crate::faults::Fault;
use crate::reader::LineTokenReader;
use crate::stages::{Asked, Bounds, Bracketed, CountCall, FunCall, Hole, NumberStage, Spot, Stage};
use crate::takes::lines::whole_of;
use crate::tokens::{Quoted, Tok};
use tdl_command::{BoolsFun, Count, Fun, Plain, Ratio};
use tdl_line_machine::{LineKind, Mark, Name, RatioCall};
use tdl_mini_tree::{Extremes, Kind, MiniKind, Number, Tail, is_ratio};

fn whole_number(whole: u32) -> Number
    ensures { result ≡ whole_number whole }
{
    Number {
        is_negative: false,
        whole,
        tail: Tail::Whole,
    }
}

// The span of the values of a count.
fn extremes_of(count: &Count) -> Extremes
    ensures { AreExtremes result (count_values (count_of count.now)) }
{
    match count {
        Count::Whole(whole) => Extremes::of_number(whole_number(*whole)),
        Count::Text(tree) => tree.span(),
    }
}

// Whether there is a rhythm for each choice of arguments, once the last of them is a count.
fn has_rhythms(call: &CountCall, count: &Count) -> bool
    ensures { result ≡ machine.has_rhythms_with (count_call_of call.now) (count_of count.now) }
{
    match call {
        CountCall::Steps { hits } => extremes_of(hits).has_rhythms(extremes_of(count)),
        CountCall::OffFrom { hits, steps } => {
            extremes_of(count).is_empty() || extremes_of(hits).has_rhythms(extremes_of(steps))
        }
        _ => true,
    }
}

// A number that stands below a `/`.
fn is_below(number: Number) -> bool
    ensures { result ≡ is_below number }
{
    is_ratio(number) && number.is_whole() && number.whole > 0
}

impl LineTokenReader {
    /// After a function that asks for something.
    #[inline(always)]
    pub(super) fn take_asked<Q: Quoted>(
        &mut self,
        tok: &Tok<Q>,
        spot: Spot,
        asked: Asked,
    ) -> Result<Option<Stage>, Fault>
        ensures { AgreesAt Q.reads (λ c t. machine.taken_at true c t (asking_of (spot_of spot) asked)) self.old tok.now self.new result }
    {
        match asked {
            Asked::Ratio(call) => self.take_ratio(tok, spot, call),
            Asked::Count(call) => self.take_count(tok, spot, call),
            Asked::Bools(fun) => self.take_bools(tok, spot, fun),
            Asked::Fun(call) => self.take_argument(tok, spot, call),
            Asked::Bounds => self.take_bounds(tok, spot),
        }
    }

    /// In numbers in round brackets.
    #[inline(always)]
    pub(super) fn take_number<Q: Quoted>(
        &mut self,
        tok: &Tok<Q>,
        stage: NumberStage,
    ) -> Result<Option<Stage>, Fault>
        ensures { AgreesAt Q.reads (λ c t. machine.taken_at true c t (number_of stage)) self.old tok.now self.new result }
    {
        match stage {
            NumberStage::Bounding { first } => self.take_bounding(tok, first),
            NumberStage::Bounded { first, plain } => self.take_bounded(tok, first, plain),
            NumberStage::Fraction => self.take_fraction(tok),
            NumberStage::Minus => self.take_minus(tok),
            NumberStage::Above {
                is_negative,
                number,
                at,
            } => self.take_above(tok, is_negative, number, at),
            NumberStage::Slash { is_negative, above } => self.take_below(tok, is_negative, above),
            NumberStage::Closing(plain) => self.take_closing(tok, plain),
        }
    }

    #[inline(never)]
    pub(super) fn take_ratio<Q: Quoted>(
        &mut self,
        tok: &Tok<Q>,
        spot: Spot,
        call: RatioCall,
    ) -> Result<Option<Stage>, Fault>
        ensures { AgreesAt Q.reads (λ c t. machine.at_ratio true c t (spot_of spot) call) self.old tok.now self.new result }
    {
        match *tok {
            Tok::Number(number) => {
                self.check_ratio(number)?;
                let ratio = self.ratio(Plain::Bare(number))?;
                self.called(spot, with_ratio(call, ratio))
            }
            Tok::Quoted(quoted) => {
                let tree = self.text(quoted, Kind::Ratio)?;
                self.called(spot, with_ratio(call, Ratio::Text(tree)))
            }
            Tok::Mark(Mark::OpenRound) => {
                self.open(
                    Hole::Measure { spot, call },
                    Stage::Number(NumberStage::Fraction),
                )
            }
            _ => Ok(None),
        }
    }

    // A count in range, if the token is one.
    fn count<Q: Quoted>(&self, tok: &Tok<Q>) -> Result<Option<Count>, Fault>
        ensures ok { IfOk result (CountsAs Q.reads self.now tok.now) }
        ensures err { IfErr result (IsNotCounted Q.reads self.now tok.now) }
    {
        match *tok {
            Tok::Number(number) => {
                let Some(whole) = whole_of(number) else {
                    return Ok(None);
                };
                self.check_ratio(number)?;
                Ok(Some(Count::Whole(whole)))
            }
            Tok::Quoted(quoted) => Ok(Some(Count::Text(self.text(quoted, Kind::Count)?))),
            _ => Ok(None),
        }
    }

    #[inline(never)]
    pub(super) fn take_count<Q: Quoted>(
        &mut self,
        tok: &Tok<Q>,
        spot: Spot,
        call: CountCall,
    ) -> Result<Option<Stage>, Fault>
        ensures { AgreesAt Q.reads (λ c t. machine.at_count true c t (spot_of spot) (count_call_of call)) self.old tok.now self.new result }
    {
        let Some(count) = self.count(tok)? else {
            return Ok(None);
        };
        self.check(
            has_rhythms(&call, &count),
            LineKind::Mini(MiniKind::BadEuclid),
        )?;
        self.called(spot, call.with(count))
    }

    #[inline(never)]
    pub(super) fn take_bools<Q: Quoted>(
        &mut self,
        tok: &Tok<Q>,
        spot: Spot,
        fun: BoolsFun,
    ) -> Result<Option<Stage>, Fault>
        ensures { AgreesAt Q.reads (λ c t. machine.at_bools true c t (spot_of spot) fun) self.old tok.now self.new result }
    {
        match *tok {
            Tok::Quoted(quoted) => {
                let bools = self.text(quoted, Kind::Bool)?;
                self.made(spot, Fun::OfBools { fun, bools })
            }
            _ => Ok(None),
        }
    }

    #[inline(never)]
    pub(super) fn take_argument<Q: Quoted>(
        &mut self,
        tok: &Tok<Q>,
        spot: Spot,
        call: FunCall,
    ) -> Result<Option<Stage>, Fault>
        ensures { AgreesAt Q.reads (λ c t. machine.at_argument true c t (spot_of spot) (fun_call_of call)) self.old tok.now self.new result }
    {
        match *tok {
            Tok::Name(Name::Bare(fun)) => {
                let whole = call.with(self.alloc, Fun::Bare(fun))?;
                self.made(spot, whole)
            }
            Tok::Mark(Mark::OpenRound) => {
                self.open(
                    Hole::Bracketed(Bracketed::Argument { spot, call }),
                    Stage::Opening,
                )
            }
            _ => Ok(None),
        }
    }

    #[inline(never)]
    pub(super) fn take_bounds<Q: Quoted>(
        &mut self,
        tok: &Tok<Q>,
        spot: Spot,
    ) -> Result<Option<Stage>, Fault>
        ensures { AgreesAt Q.reads (λ c t. machine.at_mark c t (machine.bounds_mark true c t (spot_of spot))) self.old tok.now self.new result }
    {
        match *tok {
            Tok::Mark(Mark::OpenRound) => {
                self.open(
                    Hole::Bounds { spot },
                    Stage::Number(NumberStage::Bounding { first: None }),
                )
            }
            _ => Ok(None),
        }
    }

    #[inline(never)]
    pub(super) fn take_bounding<Q: Quoted>(
        &mut self,
        tok: &Tok<Q>,
        first: Option<Box<Plain>>,
    ) -> Result<Option<Stage>, Fault>
        ensures { AgreesAt Q.reads (λ c t. machine.at_bound true c t (first_of first)) self.old tok.now self.new result }
    {
        match *tok {
            Tok::Number(number) => {
                self.check_ratio(number)?;
                Ok(Some(Stage::Number(NumberStage::Bounded {
                    first,
                    plain: Plain::Bare(number),
                })))
            }
            Tok::Mark(Mark::OpenRound) => {
                self.open(Hole::Bound { first }, Stage::Number(NumberStage::Fraction))
            }
            _ => Ok(None),
        }
    }

    #[inline(never)]
    pub(super) fn take_bounded<Q: Quoted>(
        &mut self,
        tok: &Tok<Q>,
        first: Option<Box<Plain>>,
        plain: Plain,
    ) -> Result<Option<Stage>, Fault>
        ensures { AgreesAt Q.reads (λ c t. machine.at_mark c t (machine.bounded_mark c t (first_of first) plain)) self.old tok.now self.new result }
    {
        match (first, *tok) {
            (None, Tok::Mark(Mark::Comma)) => Ok(Some(Stage::Number(NumberStage::Bounding {
                first: Some(Box::new(self.alloc, plain)?),
            }))),
            (Some(from), Tok::Mark(Mark::CloseRound)) => match self.close() {
                Some(Hole::Bounds { spot }) => Ok(Some(Stage::Asking {
                    spot,
                    asked: Asked::Fun(FunCall::Within(Box::new(
                        self.alloc,
                        Bounds {
                            from: *from,
                            to: plain,
                        },
                    )?)),
                })),
                _ => Ok(None),
            },
            _ => Ok(None),
        }
    }

    // Directly after a `(` where a number alone may stand.
    #[inline(never)]
    pub(super) fn take_fraction<Q: Quoted>(&mut self, tok: &Tok<Q>) -> Result<Option<Stage>, Fault>
        ensures { AgreesAt Q.reads (λ c t. machine.at_fraction true c t) self.old tok.now self.new result }
    {
        match *tok {
            Tok::Mark(Mark::Minus) => Ok(Some(Stage::Number(NumberStage::Minus))),
            Tok::Number(number) => {
                self.check_ratio(number)?;
                Ok(Some(Stage::Number(NumberStage::Above {
                    is_negative: false,
                    number,
                    at: self.read,
                })))
            }
            _ => Ok(None),
        }
    }

    #[inline(never)]
    pub(super) fn take_minus<Q: Quoted>(&mut self, tok: &Tok<Q>) -> Result<Option<Stage>, Fault>
        ensures { AgreesAt Q.reads (λ c t. machine.at_minus true c t) self.old tok.now self.new result }
    {
        match *tok {
            Tok::Number(number) => {
                self.check_ratio(number)?;
                Ok(Some(Stage::Number(NumberStage::Above {
                    is_negative: true,
                    number,
                    at: self.read,
                })))
            }
            _ => Ok(None),
        }
    }

    // After a number in a bracket.
    #[inline(never)]
    pub(super) fn take_above<Q: Quoted>(
        &mut self,
        tok: &Tok<Q>,
        is_negative: bool,
        number: Number,
        at: u32,
    ) -> Result<Option<Stage>, Fault>
        ensures { AgreesAt Q.reads (λ c t. machine.at_mark c t (machine.above_mark true c t is_negative number at)) self.old tok.now self.new result }
    {
        match *tok {
            Tok::Mark(Mark::CloseRound) => {
                self.close_number(Plain::Signed {
                    is_negative,
                    number,
                })
            }
            Tok::Mark(Mark::Slash) => {
                self.check_at(number.is_whole(), LineKind::Mini(MiniKind::BadFactor), at)?;
                Ok(Some(Stage::Number(NumberStage::Slash {
                    is_negative,
                    above: number,
                })))
            }
            _ => Ok(None),
        }
    }

    #[inline(never)]
    pub(super) fn take_below<Q: Quoted>(
        &mut self,
        tok: &Tok<Q>,
        is_negative: bool,
        above: Number,
    ) -> Result<Option<Stage>, Fault>
        ensures { AgreesAt Q.reads (λ c t. machine.at_slash true c t is_negative above) self.old tok.now self.new result }
    {
        match *tok {
            Tok::Number(below) => {
                self.check(is_below(below), LineKind::Mini(MiniKind::BadFactor))?;
                Ok(Some(Stage::Number(NumberStage::Closing(Plain::Quotient {
                    is_negative,
                    above,
                    below,
                }))))
            }
            _ => Ok(None),
        }
    }

    #[inline(never)]
    pub(super) fn take_closing<Q: Quoted>(
        &mut self,
        tok: &Tok<Q>,
        plain: Plain,
    ) -> Result<Option<Stage>, Fault>
        ensures { AgreesAt Q.reads (λ c t. machine.at_mark c t (machine.closing_mark c t plain)) self.old tok.now self.new result }
    {
        match *tok {
            Tok::Mark(Mark::CloseRound) => self.close_number(plain),
            _ => Ok(None),
        }
    }

    // Closes a bracket with a number in it.
    fn close_number(&mut self, plain: Plain) -> Result<Option<Stage>, Fault>
        ensures { AgreesEach (λ c t. machine.number_closed c t plain) self.old self.new result }
    {
        match self.close() {
            Some(
                Hole::Bracketed(
                    Bracketed::Anything | Bracketed::ExprOrNumber | Bracketed::FunOrNumber,
                ),
            ) => { Ok(Some(Stage::Measured(self.ratio(plain)?))) }
            Some(Hole::Measure { spot, call }) => {
                let ratio = self.ratio(plain)?;
                self.called(spot, with_ratio(call, ratio))
            }
            Some(Hole::Bound { first }) => Ok(Some(Stage::Number(NumberStage::Bounded {
                first,
                plain,
            }))),
            _ => Ok(None),
        }
    }
}
