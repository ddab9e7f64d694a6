// Where a reader of a line stands, and what is open there.
ghost use Rattle.std.specs.Prelude.{◌≡◌};
ghost use Rattle.tdl_line_machine.specs.Machine as machine;
ghost use Rattle.tdl_line_reader.specs.inside.OperandView.{is_constant};
ghost use Rattle.tdl_line_reader.specs.ReaderView.{hole_of};

use tdl_command::{
    BoolsFun, Command, Count, CountFun, CycleFun, Expr, Flag, Fun, LayerFun, Operator, Part, Plain,
    Ratio, Shape, Way, Whole,
};
use tdl_control::Key;
use tdl_line_machine::RatioCall;
use tdl_mini_tree::Number;

/// Where an expression, an operand or a function begins.
#[derive(Drop)]
pub enum Spot {
    /// An expression begins, or a function alone where no expression may stand.
    First,
    /// An operand begins.
    Operand,
    /// After this function and a `.`.
    AfterDot(Box<Fun>),
}

/// A function whose next count is wanted, after those that are read.
#[derive(Drop)]
pub enum CountCall {
    Of(CountFun),
    Every,
    Cycles(CycleFun),
    From { fun: CycleFun, cycles: Count },
    Hits,
    Steps { hits: Count },
    OffHits,
    OffSteps { hits: Count },
    OffFrom { hits: Count, steps: Count },
}

/// From where to where `within` changes a cycle.
#[derive(Drop)]
pub struct Bounds {
    pub from: Plain,
    pub to: Plain,
}

/// A function whose function is wanted next, after its other arguments.
#[derive(Drop)]
pub enum FunCall {
    Layer(LayerFun),
    Every {
        cycles: Count,
    },
    Cycle {
        fun: CycleFun,
        cycles: Count,
        from: Count,
    },
    Off {
        by: Ratio,
    },
    Within(Box<Bounds>),
}

/// A function with a further argument: it wants another, or is whole.
#[derive(Drop)]
pub enum Called {
    WantsCount(CountCall),
    WantsFun(FunCall),
    Whole(Fun),
}

/// What is read of an expression and waits for what follows it.
#[derive(Drop)]
pub enum Pending {
    /// A function and `$`.
    Applied(Box<Fun>),
    /// Operands and an operator after them.
    Joined { left: Box<Expr>, operator: Operator },
    /// A named function before an operand.
    Called(Box<Fun>),
    /// A ratio and `<~` or `~>`.
    Shifted { by: Ratio, way: Way },
}

/// What may stand in a round bracket.
#[derive(Drop)]
pub enum Bracketed {
    /// An expression, a function or a number.
    Anything,
    /// An expression or a number.
    ExprOrNumber,
    /// A function or a number.
    FunOrNumber,
    /// A function, after another and a `.`.
    FunAfter(Box<Fun>),
    /// A function that is an argument.
    Argument { spot: Spot, call: FunCall },
}

/// What is open.
#[derive(Drop)]
pub enum Hole {
    Bracketed(Bracketed),
    /// A round bracket that begins with an operator.
    Section {
        round: Bracketed,
        operator: Operator,
    },
    /// A round bracket with the number of a function.
    Measure {
        spot: Spot,
        call: RatioCall,
    },
    /// The round bracket of `within`; a round bracket with a number in it, the first or the second.
    Bounds {
        spot: Spot,
    },
    Bound {
        first: Option<Box<Plain>>,
    },
    /// A round bracket with the number of a key.
    Setting {
        key: Key,
    },
    /// The operand of `const`; no bracket.
    Constant {
        spot: Spot,
    },
    /// `[` of a list, and the expressions that are finished in it.
    List {
        shape: Shape,
        exprs: Vec<Expr>,
    },
    /// `[` of `timecat`, and the parts that are finished in it.
    Timecat {
        parts: Vec<Part>,
    },
    /// A round bracket with a part of `timecat`: before its `,` and after.
    Part,
    Weighed {
        weight: Number,
    },
}

impl Hole {
    /// Whether an expression may stand in it.
    pub fn has_exprs(&self) -> bool
        ensures { result ≡ machine.hole_has_exprs (hole_of self.now) }
    {
        !matches!(
            self,
            Hole::Bracketed(
                Bracketed::FunOrNumber | Bracketed::FunAfter(_) | Bracketed::Argument { .. }
            )
        )
    }

    /// Whether a function may stand alone in it.
    pub fn has_funs(&self) -> bool
        ensures { result ≡ machine.hole_has_funs (hole_of self.now) }
    {
        matches!(
            self,
            Hole::Bracketed(
                Bracketed::Anything
                    | Bracketed::FunOrNumber
                    | Bracketed::FunAfter(_)
                    | Bracketed::Argument { .. }
            )
        )
    }

    /// Whether it is the operand of `const`.
    pub fn is_constant(&self) -> bool
        ensures { result ≡ is_constant (hole_of self.now) }
    {
        matches!(self, Hole::Constant { .. })
    }

    /// Whether a number may stand alone in it.
    pub fn has_numbers(&self) -> bool
        ensures { result ≡ machine.hole_has_numbers (hole_of self.now) }
    {
        matches!(
            self,
            Hole::Bracketed(Bracketed::Anything | Bracketed::ExprOrNumber | Bracketed::FunOrNumber)
                | Hole::Measure { .. }
                | Hole::Bound { .. }
        )
    }
}

/// What is pending round what is open, how many brackets are open round it, and what it is.
#[derive(Drop)]
pub struct Frame {
    pub level: Vec<Pending>,
    pub depth: u32,
    pub hole: Hole,
}

/// What a function asks for.
#[derive(Drop)]
pub enum Asked {
    Ratio(RatioCall),
    Count(CountCall),
    Bools(BoolsFun),
    Fun(FunCall),
    /// The bounds of `within`.
    Bounds,
}

/// Between which tokens of numbers in round brackets the reader stands.
#[derive(Drop)]
pub enum NumberStage {
    /// Where a bound of `within` is wanted, the first or the second; after it.
    Bounding {
        first: Option<Box<Plain>>,
    },
    Bounded {
        first: Option<Box<Plain>>,
        plain: Plain,
    },
    /// Directly after a `(` where a number alone may stand.
    Fraction,
    /// After a `-`; after the number; after a `/`; after the number below.
    Minus,
    Above {
        is_negative: bool,
        number: Number,
        at: u32,
    },
    Slash {
        is_negative: bool,
        above: Number,
    },
    Closing(Plain),
}

/// Between which tokens the reader stands.
#[derive(Drop)]
pub enum Stage {
    // lines
    /// Before the first token of a line.
    Beginning,
    /// An orbit is wanted; a `$` or `silence` after `dK`.
    Flagging(Flag),
    Addressed { orbit: u8 },
    /// After `jumpMod`; after its orbit; after its count of cycles.
    Jumping,
    JumpingAt { orbit: u8 },
    Jumped { orbit: u8, every: u32 },
    /// Only the end may follow; after the end.
    Done(Command),
    Ended(Whole),
    // expressions
    /// Something begins at a place.
    Wanting(Spot),
    /// Directly after the `(` of a `Bracketed`, and after a number there.
    Opening,
    Opened { number: Number, at: u32 },
    /// After a ratio before `<~` or `~>`; after that.
    Measured(Ratio),
    Shifted { by: Ratio, way: Way },
    /// After an operand, with those before it.
    Expressed(Expr),
    /// After a function with a name, which an operand may follow; after any other.
    Named(Box<Fun>),
    Chained(Box<Fun>),
    /// After a key; after the `(` there; after its `-`; after the number.
    Keyed(Key),
    Setting,
    Negating,
    Negated(Number),
    /// After the name of a list; after its `[`.
    Listing(Shape),
    ListOpen,
    /// After `timecat`; after its `[`; after a `,`; after a part; after the `(` of a part; after the weight.
    Timing,
    PartsOpen,
    PartWanted,
    PartRead,
    Weighing,
    Weighed(Number),
    /// After a function that asks for something.
    Asking { spot: Spot, asked: Asked },
    Number(NumberStage),
}

/// What an expression at the top is for.
#[derive(Clone, Copy, PartialEq, Eq)]
pub enum Front {
    /// A pattern alone.
    Pattern,
    Play { orbit: u8 },
    Jump { orbit: u8, every: u32 },
}
