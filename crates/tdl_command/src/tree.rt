// Syntax trees.
use crate::marks::{Operator, Way};
use crate::names::{BareFun, BoolsFun, CountFun, CycleFun, Flag, LayerFun, Order, RatioFun, Shape};
use tdl_control::Key;
use tdl_mini_tree::{Number, Tree};

/// A number as it is written, without a pattern.
#[derive(Clone, Copy, PartialEq, Eq)]
pub enum Plain {
    /// A number alone.
    Bare(Number),
    /// A number in round brackets, perhaps with a `-` before it.
    Signed {
        is_negative: bool,
        number: Number,
    },
    /// Whole numbers in round brackets, one over another, perhaps with a `-` before the first.
    Quotient {
        is_negative: bool,
        above: Number,
        below: Number,
    },
}

/// How fast, or how far.
#[derive(Drop)]
pub enum Ratio {
    Plain(Box<Plain>),
    Text(Box<Tree>),
}

/// How many.
#[derive(Drop)]
pub enum Count {
    Whole(u32),
    Text(Box<Tree>),
}

/// What a key is set to.
#[derive(Drop)]
pub enum Setting {
    Text(Box<Tree>),
    Number(Number),
    /// `(-n)`
    Negative(Number),
}

/// An expression.
#[derive(Drop)]
#[cycle(expressions)]
pub enum Expr {
    Silence,
    Control {
        key: Key,
        setting: Setting,
    },
    /// `( )` round an expression.
    Inside(Box<Expr>),
    /// A ratio, `<~` or `~>`, and an operand.
    Shifted {
        by: Ratio,
        way: Way,
        expr: Box<Expr>,
    },
    List {
        shape: Shape,
        exprs: Vec<Expr>,
    },
    Timecat {
        parts: Vec<Part>,
    },
    /// A named function directly before an operand.
    Called {
        fun: Box<Fun>,
        expr: Box<Expr>,
    },
    /// Two operands and the operator between them.
    Joined {
        left: Box<Expr>,
        operator: Operator,
        right: Box<Expr>,
    },
    /// A function, `$`, and an expression.
    Applied {
        fun: Box<Fun>,
        expr: Box<Expr>,
    },
}

/// An expression and its weight in `timecat`.
#[derive(Drop)]
#[cycle(expressions)]
pub struct Part {
    pub weight: Number,
    pub expr: Expr,
}

/// A function on patterns.
#[derive(Drop)]
#[cycle(expressions)]
pub enum Fun {
    Bare(BareFun),
    OfRatio {
        fun: RatioFun,
        ratio: Ratio,
    },
    OfCount {
        fun: CountFun,
        count: Count,
    },
    OfBools {
        fun: BoolsFun,
        bools: Box<Tree>,
    },
    Layer {
        fun: LayerFun,
        then: Box<Fun>,
    },
    Every {
        cycles: Count,
        then: Box<Fun>,
    },
    Cycle {
        fun: CycleFun,
        cycles: Count,
        from: Count,
        then: Box<Fun>,
    },
    Off {
        by: Ratio,
        then: Box<Fun>,
    },
    Within {
        from: Plain,
        to: Plain,
        then: Box<Fun>,
    },
    Euclid {
        hits: Count,
        steps: Count,
    },
    EuclidOff {
        hits: Count,
        steps: Count,
        from: Count,
    },
    /// An operand in the spot of the pattern.
    Const(Box<Expr>),
    /// `( )` round a function.
    Inside(Box<Fun>),
    /// An operator and its right side, in round brackets.
    Section {
        operator: Operator,
        right: Box<Expr>,
    },
    /// A ratio and `<~` or `~>`, in round brackets.
    Shift {
        by: Ratio,
        way: Way,
    },
    /// A function after another, with `.` between them.
    Chain {
        next: Box<Fun>,
        first: Box<Fun>,
    },
}

/// What a line asks for.
#[derive(Drop)]
pub enum Command {
    Nothing,
    Order(Order),
    Flag { flag: Flag, orbit: u8 },
    /// An orbit plays a pattern from the next cycle on.
    Play { orbit: u8, expr: Expr },
    /// An orbit plays nothing from the next cycle on.
    Silence { orbit: u8 },
    /// An orbit plays a pattern from the next multiple of so many cycles on.
    Jump { orbit: u8, every: u32, expr: Expr },
}

/// A whole text: a line, or a pattern alone.
#[derive(Drop)]
pub enum Whole {
    Line(Command),
    Pattern(Expr),
}
