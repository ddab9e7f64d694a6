// The tokens of lists.
ghost use Rattle.std.specs.Prelude.{true};
ghost use Rattle.tdl_command.specs.Tree as tree;
ghost use Rattle.tdl_command.specs.View.{expr_of};
ghost use Rattle.tdl_line_machine.specs.Machine as machine;
ghost use Rattle.tdl_line_reader.specs.ReaderView.{AgreesAt, AgreesEach};

use crate::faults::Fault;
use crate::reader::LineTokenReader;
use crate::stages::{Hole, Spot, Stage};
use crate::tokens::{Quoted, Tok};
use tdl_command::{Expr, Part, Shape};
use tdl_line_machine::{LineKind, Mark};
use tdl_mini_tree::{MiniKind, Number, is_weight};

impl LineTokenReader {
    #[inline(never)]
    pub(super) fn take_listing<Q: Quoted>(
        &mut self,
        tok: &Tok<Q>,
        shape: Shape,
    ) -> Result<Option<Stage>, Fault>
        ensures { AgreesAt Q.reads (λ c t. machine.at_mark c t (machine.square_mark true c t (machine.list shape tree.no_expr) machine.list_open))
            self.old tok.now self.new result }
    {
        match *tok {
            Tok::Mark(Mark::OpenSquare) => {
                let exprs = Vec::new(self.alloc);
                self.open(Hole::List { shape, exprs }, Stage::ListOpen)
            }
            _ => Ok(None),
        }
    }

    // Directly after the `[` of a list.
    #[inline(never)]
    pub(super) fn take_list_open<Q: Quoted>(&mut self, tok: &Tok<Q>) -> Result<Option<Stage>, Fault>
        ensures { AgreesAt Q.reads (λ c t. machine.at_list true c t) self.old tok.now self.new result }
    {
        match *tok {
            Tok::Mark(Mark::CloseSquare) => match self.close() {
                Some(Hole::List { shape, exprs }) => self.operand(Expr::List { shape, exprs }),
                _ => Ok(None),
            },
            _ => self.take_wanted(tok, Spot::First),
        }
    }

    /// Closes a list after an expression.
    pub(super) fn close_list(&mut self, expr: Expr) -> Result<Option<Stage>, Fault>
        ensures { AgreesEach (λ c t. machine.closed c.frames c t (machine.list_hole t (machine.applied c.level (expr_of expr)))) self.old self.new result }
    {
        let expr = self.applied(expr)?;
        match self.close() {
            Some(Hole::List { shape, mut exprs }) => {
                exprs.push(expr)?;
                self.operand(Expr::List { shape, exprs })
            }
            _ => Ok(None),
        }
    }

    /// Goes on with a list after an expression.
    pub(super) fn next_expr(&mut self, expr: Expr) -> Result<Option<Stage>, Fault>
        ensures { AgreesEach (λ c t. machine.closed c.frames c t (machine.next_hole t c.depth (machine.applied c.level (expr_of expr))))
            self.old self.new result }
    {
        let expr = self.applied(expr)?;
        let depth = self.depth;
        match self.close() {
            Some(Hole::List { shape, mut exprs }) => {
                exprs.push(expr)?;
                self.push(Hole::List { shape, exprs }, depth)?;
                Ok(Some(Stage::Wanting(Spot::First)))
            }
            _ => Ok(None),
        }
    }

    #[inline(never)]
    pub(super) fn take_timing<Q: Quoted>(&mut self, tok: &Tok<Q>) -> Result<Option<Stage>, Fault>
        ensures { AgreesAt Q.reads (λ c t. machine.at_mark c t (machine.square_mark true c t (machine.timecat tree.no_part) machine.parts_open))
            self.old tok.now self.new result }
    {
        match *tok {
            Tok::Mark(Mark::OpenSquare) => {
                let parts = Vec::new(self.alloc);
                self.open(Hole::Timecat { parts }, Stage::PartsOpen)
            }
            _ => Ok(None),
        }
    }

    // Directly after the `[` of `timecat`.
    #[inline(never)]
    pub(super) fn take_parts_open<Q: Quoted>(
        &mut self,
        tok: &Tok<Q>,
    ) -> Result<Option<Stage>, Fault>
        ensures { AgreesAt Q.reads (λ c t. machine.at_mark c t (machine.parts_mark true c t)) self.old tok.now self.new result }
    {
        match *tok {
            Tok::Mark(Mark::CloseSquare) => self.close_parts(),
            _ => self.take_part(tok),
        }
    }

    fn close_parts(&mut self) -> Result<Option<Stage>, Fault>
        ensures { AgreesEach (λ c t. machine.closed c.frames c t (machine.parts_hole t)) self.old self.new result }
    {
        match self.close() {
            Some(Hole::Timecat { parts }) => self.operand(Expr::Timecat { parts }),
            _ => Ok(None),
        }
    }

    #[inline(never)]
    pub(super) fn take_part<Q: Quoted>(&mut self, tok: &Tok<Q>) -> Result<Option<Stage>, Fault>
        ensures { AgreesAt Q.reads (λ c t. machine.at_mark c t (machine.part_mark true c t)) self.old tok.now self.new result }
    {
        match *tok {
            Tok::Mark(Mark::OpenRound) => { self.open(Hole::Part, Stage::Weighing) }
            _ => Ok(None),
        }
    }

    #[inline(never)]
    pub(super) fn take_weighing<Q: Quoted>(&mut self, tok: &Tok<Q>) -> Result<Option<Stage>, Fault>
        ensures { AgreesAt Q.reads (λ c t. machine.at_weight true c t) self.old tok.now self.new result }
    {
        match *tok {
            Tok::Number(weight) => {
                self.check(is_weight(weight), LineKind::Mini(MiniKind::BadFactor))?;
                Ok(Some(Stage::Weighed(weight)))
            }
            _ => Ok(None),
        }
    }

    #[inline(never)]
    pub(super) fn take_weighed<Q: Quoted>(
        &mut self,
        tok: &Tok<Q>,
        weight: Number,
    ) -> Result<Option<Stage>, Fault>
        ensures { AgreesAt Q.reads (λ c t. machine.at_mark c t (machine.weighed_mark c t weight)) self.old tok.now self.new result }
    {
        match *tok {
            Tok::Mark(Mark::Comma) => {
                let depth = self.depth;
                let Some(_) = self.close() else {
                    return Ok(None);
                };
                self.push(Hole::Weighed { weight }, depth)?;
                Ok(Some(Stage::Wanting(Spot::First)))
            }
            _ => Ok(None),
        }
    }

    /// Keeps a part, once its bracket is closed.
    pub(super) fn add_part(&mut self, weight: Number, expr: Expr) -> Result<Option<Stage>, Fault>
        ensures { AgreesEach (λ c t. machine.closed c.frames c t (machine.part_hole t c.depth weight (expr_of expr))) self.old self.new result }
    {
        let depth = self.depth;
        match self.close() {
            Some(Hole::Timecat { mut parts }) => {
                parts.push(Part { weight, expr })?;
                self.push(Hole::Timecat { parts }, depth)?;
                Ok(Some(Stage::PartRead))
            }
            _ => Ok(None),
        }
    }

    #[inline(never)]
    pub(super) fn take_part_read<Q: Quoted>(&mut self, tok: &Tok<Q>) -> Result<Option<Stage>, Fault>
        ensures { AgreesAt Q.reads (λ c t. machine.at_mark c t (machine.part_read_mark c t)) self.old tok.now self.new result }
    {
        match *tok {
            Tok::Mark(Mark::Comma) => Ok(Some(Stage::PartWanted)),
            Tok::Mark(Mark::CloseSquare) => self.close_parts(),
            _ => Ok(None),
        }
    }
}
