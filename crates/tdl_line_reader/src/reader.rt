// A reader of the tokens of a line that keeps what is read so far. Its steps are put into those that take them, where
// what they move is made at its place.
ghost use Rattle.std.specs.Prelude.{◌≡◌, ◌≤◌, ◌<◌, ◌^◌, true, false, [], IsTrue, IfOk, IfErr, OnOk, ◌&&◌};
ghost use Rattle.tdl_mini_tree.specs.declared.leaves.Kind.{Kind as KindValue};
ghost use Rattle.tdl_mini_tree.specs.declared.faults.MiniKind.TheVariants.{BadFactor};
ghost use Rattle.tdl_mini_tree.specs.Valid.{fits_key};
ghost use Rattle.tdl_mini_tree.specs.Numbers.{is_ratio};
ghost use Rattle.tdl_line_machine.specs.declared.faults.LineKind.TheVariants.{Mini};
ghost use Rattle.tdl_line_reader.specs.declared.faults.Fault.TheVariants.{NoMemory};
ghost use Rattle.tdl_mini_tree.specs.Reading.{Reading};
ghost use Rattle.tdl_command.specs.Tree as tree;
ghost use Rattle.tdl_line_machine.specs.WrongTokens.{wrong_token};
ghost use Rattle.tdl_command.specs.View.{expr_of, fun_of, ratio_of, reading_of};
ghost use Rattle.tdl_line_machine.specs.Machine as machine;
ghost use Rattle.tdl_line_reader.specs.inside.OperandView.{has_constant};
ghost use Rattle.tdl_line_reader.specs.ReaderView.{AgreesEach, StopsAt, IsUnread, FailsAt, Closes, KeepsOpen, here};
ghost use Rattle.tdl_line_reader.specs.ReaderView.{tok_value, core_of, stage_of, hole_of, frames_of, level_of, spot_of};

use crate::faults::{Fault, Place};
use crate::stages::{Frame, Front, Hole, Pending, Spot, Stage};
use crate::tokens::{Quoted, Tok};
use std::alloc::Global;
use std::mem;
use tdl_command::{Expr, Fun, Plain, Ratio};
use tdl_control::Faulted;
use tdl_line_machine::{LineKind, Mark, Name};
use tdl_mini_tree::{Kind, MAX_DEPTH, MiniKind, Number, Tree, is_ratio};

/// What is open, what is pending in the innermost of it, what the expression at the top is for, how many
/// brackets are open, and how many tokens are read.
#[derive(Drop)]
pub struct LineTokenReader {
    pub alloc: Global,
    pub frames: Vec<Frame>,
    pub level: Vec<Pending>,
    pub front: Front,
    pub depth: u32,
    pub read: u32,
}

fn wrong_token<Q: Quoted>(depth: u32, tok: &Tok<Q>) -> LineKind
    ensures { (readings : KindValue → Reading) → result ≡ wrong_token depth (tok_value readings tok.now) }
{
    match *tok {
        Tok::Name(Name::Random) => LineKind::Mini(MiniKind::Random),
        Tok::Name(Name::Unknown) => LineKind::UnknownName,
        Tok::Mark(Mark::OpenRound | Mark::OpenSquare) if depth >= MAX_DEPTH as u32 => {
            LineKind::Mini(MiniKind::TooDeep)
        }
        _ => LineKind::Mini(MiniKind::Unexpected),
    }
}

impl LineTokenReader {
    /// Nothing is read.
    pub fn new(alloc: Global) -> LineTokenReader
        ensures { core_of result ≡ machine.first_core }
    {
        LineTokenReader {
            alloc,
            frames: Vec::new(alloc),
            level: Vec::new(alloc),
            front: Front::Pattern,
            depth: 0,
            read: 0,
        }
    }

    /// The fault of a token with which nothing goes on.
    #[cold]
    #[inline(never)]
    pub fn refused<Q: Quoted>(&self, tok: &Tok<Q>) -> Fault
        ensures { StopsAt Q.reads machine.refused self.now tok.now result }
    {
        Fault::At {
            kind: wrong_token(self.depth, tok),
            place: Place {
                token: self.read,
                offset: 0,
            },
        }
    }

    /// A fault at this token, unless a rule holds.
    pub fn check(&self, holds: bool, kind: LineKind) -> Result<(), Fault>
        ensures ok { OnOk result (holds ≡ true) }
        ensures err { IfErr result (FailsAt kind (here self.now 0) holds) }
    {
        self.check_at(holds, kind, self.read)
    }

    /// A fault at a token, unless a rule holds.
    pub fn check_at(&self, holds: bool, kind: LineKind, token: u32) -> Result<(), Fault>
        ensures ok { OnOk result (holds ≡ true) }
        ensures err { IfErr result (FailsAt kind (record { token = token; offset = 0 }) holds) }
    {
        if holds {
            Ok(())
        } else {
            Err(Fault::At {
                kind,
                place: Place { token, offset: 0 },
            })
        }
    }

    /// A fault at this token, unless the number may be a ratio or a count.
    pub fn check_ratio(&self, number: Number) -> Result<(), Fault>
        ensures ok { OnOk result (is_ratio number ≡ true) }
        ensures err { IfErr result (FailsAt (Mini BadFactor) (here self.now 0) (is_ratio number)) }
    {
        self.check(is_ratio(number), LineKind::Mini(MiniKind::BadFactor))
    }

    // Reads a quoted text at this token.
    fn tree<Q: Quoted>(&self, quoted: Q, kind: Kind) -> Result<Tree, Fault>
        requires { IsTrue (fits_key kind) }
        ensures ok { IfOk result (λ t. (reading : Reading) → Q.reads kind quoted reading → reading ≡ reading_of t) }
        ensures kind { IfOk result (λ t. t.kind ≡ kind) }
        ensures err { IfErr result (λ fault. (reading : Reading) → Q.reads kind quoted reading → IsUnread (here self.now 0) reading fault) }
    {
        match quoted.read(self.alloc, kind) {
            Ok(tree) => Ok(tree),
            Err(Faulted::NoMemory) => Err(Fault::NoMemory),
            Err(Faulted::At { kind, at }) => Err(Fault::At {
                kind: LineKind::Mini(kind),
                place: Place {
                    token: self.read,
                    offset: at as u16 + 1,
                },
            }),
        }
    }

    /// Reads a quoted text at this token.
    pub fn text<Q: Quoted>(&self, quoted: Q, kind: Kind) -> Result<Box<Tree>, Fault>
        requires { IsTrue (fits_key kind) }
        ensures ok { IfOk result (λ t. (reading : Reading) → Q.reads kind quoted reading → reading ≡ reading_of t.value) }
        ensures kind { IfOk result (λ t. t.value.kind ≡ kind) }
        ensures err { IfErr result (λ fault. (reading : Reading) → Q.reads kind quoted reading → IsUnread (here self.now 0) reading fault) }
    {
        let tree = self.tree(quoted, kind)?;
        Ok(Box::new(self.alloc, tree)?)
    }

    /// Whether an expression may stand in what is open.
    pub fn has_exprs(&self) -> bool
        ensures { result ≡ machine.has_exprs (frames_of self.now.frames.items) }
    {
        match self.frames.last() {
            Some(frame) => frame.hole.has_exprs(),
            None => true,
        }
    }

    /// Whether a function may stand alone in what is open.
    pub fn has_funs(&self) -> bool
        ensures { result ≡ machine.has_funs (frames_of self.now.frames.items) }
    {
        match self.frames.last() {
            Some(frame) => frame.hole.has_funs(),
            None => false,
        }
    }

    /// Whether a number may stand alone in what is open.
    pub fn has_numbers(&self) -> bool
        ensures { result ≡ machine.has_numbers (frames_of self.now.frames.items) }
    {
        match self.frames.last() {
            Some(frame) => frame.hole.has_numbers(),
            None => false,
        }
    }

    /// Opens something, and goes on in it inside so many brackets.
    #[inline(always)]
    pub fn push(&mut self, hole: Hole, depth: u32) -> Result<(), Fault>
        ensures ok { OnOk result (core_of self.new ≡ machine.pushed (core_of self.old) (hole_of hole) depth) }
        ensures err { IfErr result (λ fault. fault ≡ NoMemory) }
    {
        let level = mem::replace(&mut self.level, Vec::new(self.alloc));
        self.frames.push(Frame {
            level,
            depth: self.depth,
            hole,
        })?;
        self.depth = depth;
        Ok(())
    }

    /// Opens a bracket, and goes on at a stage.
    #[inline(always)]
    pub fn open(&mut self, hole: Hole, next: Stage) -> Result<Option<Stage>, Fault>
        ensures { AgreesEach (λ c t. machine.opened_to true c (hole_of hole) (stage_of next)) self.old self.new result }
    {
        self.check(
            self.depth < MAX_DEPTH as u32,
            LineKind::Mini(MiniKind::TooDeep),
        )?;
        self.push(hole, self.depth + 1)?;
        Ok(Some(next))
    }

    /// Closes what is open innermost, and goes on in what is round it.
    #[inline(always)]
    pub fn close(&mut self) -> Option<Hole>
        ensures { Closes self.old self.new result }
    {
        let Frame { level, depth, hole } = self.frames.pop()?;
        self.level = level;
        self.depth = depth;
        Some(hole)
    }

    /// A named function that is whole, at a spot.
    #[inline(always)]
    pub fn made(&mut self, spot: Spot, fun: Fun) -> Result<Option<Stage>, Fault>
        ensures { AgreesEach (λ c t. machine.made c (spot_of spot) (fun_of fun)) self.old self.new result }
    {
        let fun = Box::new(self.alloc, fun)?;
        match spot {
            Spot::First => Ok(Some(Stage::Named(fun))),
            Spot::Operand => {
                self.level.push(Pending::Called(fun))?;
                Ok(Some(Stage::Wanting(Spot::Operand)))
            }
            Spot::AfterDot(next) => Ok(Some(Stage::Chained(self.chain(next, fun)?))),
        }
    }

    /// A ratio that is no text.
    #[inline(always)]
    pub fn ratio(&self, plain: Plain) -> Result<Ratio, Fault>
        ensures ok { IfOk result (λ r. ratio_of r ≡ tree.plain plain) }
        ensures err { IfErr result (λ fault. fault ≡ NoMemory) }
    {
        Ok(Ratio::Plain(Box::new(self.alloc, plain)?))
    }

    /// A function after another.
    pub fn chain(&self, next: Box<Fun>, first: Box<Fun>) -> Result<Box<Fun>, Fault>
        ensures ok { IfOk result (λ f. fun_of f.value ≡ tree.chain (fun_of next.value) (fun_of first.value)) }
        ensures err { IfErr result (λ fault. fault ≡ NoMemory) }
    {
        Ok(Box::new(self.alloc, Fun::Chain { next, first })?)
    }

    /// The expression in which an operand stands with what is pending before it, up to a `$`.
    fn with_pending(&mut self, operand: Expr) -> Result<Expr, Fault>
        ensures ok { IfOk result (λ e. machine.with_pending (level_of self.old.level.items) (expr_of operand)
            ≡ record { level = level_of self.new.level.items; expr = expr_of e }) }
        ensures stays { OnOk result (KeepsOpen self.old self.new) }
        ensures err { IfErr result (λ fault. fault ≡ NoMemory) }
    {
        let mut expr = operand;
        while let Some(pending) = self.level.pop() {
            match pending {
                Pending::Called(fun) => {
                    expr = Expr::Called {
                        fun,
                        expr: Box::new(self.alloc, expr)?,
                    };
                }
                Pending::Shifted { by, way } => {
                    expr = Expr::Shifted {
                        by,
                        way,
                        expr: Box::new(self.alloc, expr)?,
                    };
                }
                Pending::Joined { left, operator } => {
                    return Ok(Expr::Joined {
                        left,
                        operator,
                        right: Box::new(self.alloc, expr)?,
                    });
                }
                Pending::Applied(fun) => {
                    self.level.push(Pending::Applied(fun))?;
                    return Ok(expr);
                }
            }
        }
        Ok(expr)
    }

    /// The whole expression, with the functions that are pending before it.
    #[inline(always)]
    pub fn applied(&mut self, expr: Expr) -> Result<Expr, Fault>
        ensures ok { IfOk result (λ e. machine.applied (level_of self.old.level.items) (expr_of expr) ≡ expr_of e) }
        ensures stays { OnOk result (KeepsOpen self.old self.new) }
        ensures empty { OnOk result (self.new.level.items ≡ []) }
        ensures err { IfErr result (λ fault. fault ≡ NoMemory) }
    {
        let mut expr = expr;
        while let Some(pending) = self.level.pop() {
            if let Pending::Applied(fun) = pending {
                expr = Expr::Applied {
                    fun,
                    expr: Box::new(self.alloc, expr)?,
                };
            }
        }
        Ok(expr)
    }

    /// An operand is whole.
    #[inline(always)]
    pub fn operand(&mut self, operand: Expr) -> Result<Option<Stage>, Fault>
        ensures { AgreesEach (λ c t. machine.operand c (expr_of operand)) self.old self.new result }
    {
        let expr = self.with_pending(operand)?;
        if self.has_constant() {
            self.constant(expr)
        } else {
            Ok(Some(Stage::Expressed(expr)))
        }
    }

    // Whether the operand of `const` is open innermost.
    fn has_constant(&self) -> bool
        ensures { result ≡ has_constant (frames_of self.now.frames.items) }
    {
        match self.frames.last() {
            Some(frame) => frame.hole.is_constant(),
            None => false,
        }
    }

    // The operand of `const` is whole.
    fn constant(&mut self, expr: Expr) -> Result<Option<Stage>, Fault>
        requires { has_constant (frames_of self.old.frames.items) ≡ true }
        ensures { AgreesEach (λ c t. machine.operand_in c c.frames (expr_of expr)) self.old self.new result }
    {
        match self.frames.pop() {
            Some(Frame { level, depth, hole }) => match hole {
                Hole::Constant { spot } => {
                    self.level = level;
                    self.depth = depth;
                    let fun = Fun::Const(Box::new(self.alloc, expr)?);
                    self.made(spot, fun)
                }
                _ => unreachable!(),
            },
            None => unreachable!(),
        }
    }
}
