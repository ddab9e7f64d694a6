// The tokens of expressions.
ghost use Rattle.std.specs.Prelude.{◌≡◌, true};
ghost use Rattle.tdl_command.specs.View.{ratio_of, expr_of, whole_of};
ghost use Rattle.tdl_line_machine.specs.Machine as machine;
ghost use Rattle.tdl_line_machine.specs.Machine.Expressions.{may_begin_operand};
ghost use Rattle.tdl_line_reader.specs.ReaderView.{AgreesAt, AgreesEach, spot_of, round_of, core_of, front_of};
ghost use Rattle.tdl_line_reader.specs.inside.TakesView.{begins_operand};

use crate::faults::Fault;
use crate::reader::LineTokenReader;
use crate::stages::{Bracketed, Front, Hole, NumberStage, Pending, Spot, Stage};
use crate::tokens::{Quoted, Tok};
use tdl_command::{Command, Expr, Fun, Operator, Plain, Ratio, Way, Whole};
use tdl_line_machine::{Mark, Name};
use tdl_mini_tree::{Kind, Number};

// What is read once an expression at the top is whole.
fn whole_of(front: Front, expr: Expr) -> Whole
    ensures { whole_of result ≡ machine.whole_of (front_of front) (expr_of expr) }
{
    match front {
        Front::Pattern => Whole::Pattern(expr),
        Front::Play { orbit } => Whole::Line(Command::Play { orbit, expr }),
        Front::Jump { orbit, every } => Whole::Line(Command::Jump { orbit, every, expr }),
    }
}

// Whether a ratio may begin at a spot.
fn may_begin_ratio(spot: &Spot) -> bool
    ensures { result ≡ machine.may_begin_ratio (spot_of spot.now) }
{
    !matches!(spot, Spot::AfterDot(_))
}

impl LineTokenReader {
    // Something begins at a spot.
    #[inline(never)]
    pub(super) fn take_wanted<Q: Quoted>(
        &mut self,
        tok: &Tok<Q>,
        spot: Spot,
    ) -> Result<Option<Stage>, Fault>
        ensures { AgreesAt Q.reads (λ c t. machine.wanted true c t (spot_of spot)) self.old tok.now self.new result }
    {
        match *tok {
            Tok::Name(name) => self.take_name(spot, name),
            Tok::Number(number) if may_begin_ratio(&spot) => {
                self.check_ratio(number)?;
                Ok(Some(Stage::Measured(self.ratio(Plain::Bare(number))?)))
            }
            Tok::Quoted(quoted) if may_begin_ratio(&spot) => {
                let tree = self.text(quoted, Kind::Ratio)?;
                Ok(Some(Stage::Measured(Ratio::Text(tree))))
            }
            Tok::Mark(Mark::OpenRound) => {
                let round = self.round_at(spot);
                self.open(Hole::Bracketed(round), Stage::Opening)
            }
            _ => Ok(None),
        }
    }

    // What may stand in a round bracket that opens at a spot.
    fn round_at(&self, spot: Spot) -> Bracketed
        ensures { round_of result ≡ machine.round_at (core_of self.now) (spot_of spot) }
    {
        match spot {
            Spot::First => {
                if self.has_exprs() {
                    Bracketed::Anything
                } else {
                    Bracketed::FunOrNumber
                }
            }
            Spot::Operand => Bracketed::ExprOrNumber,
            Spot::AfterDot(next) => Bracketed::FunAfter(next),
        }
    }

    fn take_name(&mut self, spot: Spot, name: Name) -> Result<Option<Stage>, Fault>
        ensures { AgreesEach (λ c t. machine.taken_name c t (spot_of spot) name) self.old self.new result }
    {
        match name {
            Name::Silence | Name::Key(_) | Name::List(_) | Name::Timecat => {
                self.take_operand_name(spot, name)
            }
            _ => self.take_fun_name(spot, name),
        }
    }

    // Whether an operand may begin at a spot.
    fn may_begin_operand(&self, spot: &Spot) -> bool
        ensures { result ≡ may_begin_operand (core_of self.now) (spot_of spot.now) }
    {
        may_begin_ratio(spot) && self.has_exprs()
    }

    // The name with which an operand begins.
    fn take_operand_name(&mut self, spot: Spot, name: Name) -> Result<Option<Stage>, Fault>
        requires { begins_operand name ≡ true }
        ensures { AgreesEach (λ c t. machine.taken_name c t (spot_of spot) name) self.old self.new result }
    {
        if !self.may_begin_operand(&spot) {
            return Ok(None);
        }
        match name {
            Name::Silence => self.operand(Expr::Silence),
            Name::Key(key) => Ok(Some(Stage::Keyed(key))),
            Name::List(shape) => Ok(Some(Stage::Listing(shape))),
            Name::Timecat => Ok(Some(Stage::Timing)),
            _ => Ok(None),
        }
    }

    // Directly after a `(`.
    #[inline(never)]
    pub(super) fn take_opening<Q: Quoted>(&mut self, tok: &Tok<Q>) -> Result<Option<Stage>, Fault>
        ensures { AgreesAt Q.reads (λ c t. machine.at_opening true c t) self.old tok.now self.new result }
    {
        match *tok {
            Tok::Mark(Mark::Minus) if self.has_numbers() => Ok(Some(Stage::Number(
                NumberStage::Minus,
            ))),
            Tok::Mark(Mark::Operator(operator)) if self.has_funs() => {
                self.begin_section(operator)
            }
            Tok::Number(number) => {
                self.check_ratio(number)?;
                Ok(Some(Stage::Opened {
                    number,
                    at: self.read,
                }))
            }
            _ => self.take_wanted(tok, Spot::First),
        }
    }

    // The bracket that is open begins with an operator.
    fn begin_section(&mut self, operator: Operator) -> Result<Option<Stage>, Fault>
        ensures { AgreesEach (λ c t. machine.closed c.frames c t (machine.section_hole t c.depth operator)) self.old self.new result }
    {
        let depth = self.depth;
        match self.close() {
            Some(Hole::Bracketed(round)) => {
                self.push(Hole::Section { round, operator }, depth)?;
                Ok(Some(Stage::Wanting(Spot::Operand)))
            }
            _ => Ok(None),
        }
    }

    // After a number that begins a bracket.
    #[inline(never)]
    pub(super) fn take_opened<Q: Quoted>(
        &mut self,
        tok: &Tok<Q>,
        number: Number,
        at: u32,
    ) -> Result<Option<Stage>, Fault>
        ensures { AgreesAt Q.reads (λ c t. machine.at_mark c t (machine.opened_mark true c t number at)) self.old tok.now self.new result }
    {
        match *tok {
            Tok::Mark(Mark::Shift(way)) => Ok(Some(Stage::Shifted {
                by: self.ratio(Plain::Bare(number))?,
                way,
            })),
            Tok::Mark(Mark::CloseRound | Mark::Slash) if self.has_numbers() => {
                self.take_above(tok, false, number, at)
            }
            _ => Ok(None),
        }
    }

    #[inline(never)]
    pub(super) fn take_measured<Q: Quoted>(
        &mut self,
        tok: &Tok<Q>,
        by: Ratio,
    ) -> Result<Option<Stage>, Fault>
        ensures { AgreesAt Q.reads (λ c t. machine.at_mark c t (machine.measured_mark c t (ratio_of by))) self.old tok.now self.new result }
    {
        match *tok {
            Tok::Mark(Mark::Shift(way)) => Ok(Some(Stage::Shifted { by, way })),
            _ => Ok(None),
        }
    }

    #[inline(never)]
    pub(super) fn take_shifted<Q: Quoted>(
        &mut self,
        tok: &Tok<Q>,
        by: Ratio,
        way: Way,
    ) -> Result<Option<Stage>, Fault>
        ensures { AgreesAt Q.reads (λ c t. machine.after_shift true c t (ratio_of by) way) self.old tok.now self.new result }
    {
        match *tok {
            Tok::Mark(Mark::CloseRound) if self.may_close_fun() => {
                self.close_round(Fun::Shift { by, way })
            }
            _ if self.has_exprs() => {
                self.level.push(Pending::Shifted { by, way })?;
                self.take_wanted(tok, Spot::Operand)
            }
            _ => Ok(None),
        }
    }

    // After an operand, with those before it.
    pub(super) fn take_expressed<Q: Quoted>(
        &mut self,
        tok: &Tok<Q>,
        expr: Expr,
    ) -> Result<Option<Stage>, Fault>
        ensures { AgreesAt Q.reads (λ c t. machine.after_expr c t (expr_of expr)) self.old tok.now self.new result }
    {
        match *tok {
            Tok::Mark(Mark::Operator(operator)) => {
                let left = Box::new(self.alloc, expr)?;
                self.level.push(Pending::Joined { left, operator })?;
                Ok(Some(Stage::Wanting(Spot::Operand)))
            }
            Tok::Mark(Mark::CloseRound) => self.close_expr(expr),
            Tok::Mark(Mark::CloseSquare) => self.close_list(expr),
            Tok::Mark(Mark::Comma) => self.next_expr(expr),
            Tok::End => self.end_expr(expr),
            _ => Ok(None),
        }
    }

    fn close_expr(&mut self, expr: Expr) -> Result<Option<Stage>, Fault>
        ensures { AgreesEach (λ c t. machine.closed c.frames c t (machine.expr_hole t (machine.applied c.level (expr_of expr)))) self.old self.new result }
    {
        let expr = self.applied(expr)?;
        match self.close() {
            Some(Hole::Bracketed(Bracketed::Anything | Bracketed::ExprOrNumber)) => {
                let inside = Expr::Inside(Box::new(self.alloc, expr)?);
                self.operand(inside)
            }
            Some(Hole::Section { round, operator }) => {
                let section = Fun::Section {
                    operator,
                    right: Box::new(self.alloc, expr)?,
                };
                self.paren(round, section)
            }
            Some(Hole::Weighed { weight }) => self.add_part(weight, expr),
            _ => Ok(None),
        }
    }

    fn end_expr(&mut self, expr: Expr) -> Result<Option<Stage>, Fault>
        ensures { AgreesEach (λ c t. machine.at_end c t c.frames (machine.applied c.level (expr_of expr))) self.old self.new result }
    {
        if !self.frames.is_empty() {
            return Ok(None);
        }
        let expr = self.applied(expr)?;
        Ok(Some(Stage::Ended(whole_of(self.front, expr))))
    }
}
