// What lines and patterns are prepared to.
ghost use Rattle.std.specs.Prelude.{◌≡◌, IfOk, IfErr};
ghost use Rattle.tdl_command.specs.Valid.{IsValidExpr};
ghost use Rattle.tdl_command.specs.View.{expr_of, line_of, pattern_of};
ghost use Rattle.tdl_desk.specs.declared.changes.Change.TheVariants.{Set};
ghost use Rattle.tdl_prepare.specs.Asked.{asked, flagged, swap};
ghost use Rattle.tdl_prepare.specs.Built.{built};
ghost use Rattle.tdl_prepare.specs.declared.faults.PrepareFault.TheVariants.{NoMemory as OutOfMemory};
ghost use Rattle.tdl_prepare.specs.declared.prepared.Prepared.TheVariants.{Swap};
ghost use Rattle.tdl_prepare.specs.Prepared.{PreparesLine, PreparesTo, pattern_built};

use crate::faults::PrepareFault;
use crate::programs::{expr_program, mini_program};
use std::alloc::Global;
use tdl_command::{Command, Expr, Flag, Line, Order, Pattern, Source};
use tdl_compile::Program;
use tdl_control::{NoMemory, Text};
use tdl_desk::Change;

// About so many bytes of a line make a row of its pattern.
const BYTES_OF_A_ROW: usize = 4;

/// What a line asks for: nothing, a look, or a change from the next multiple of `every` cycles on. A swap has the text of
/// its line.
#[derive(Drop)]
pub enum Prepared {
    Nothing,
    Look,
    Swap {
        text: Text,
        every: u32,
        change: Change<Program>,
    },
}

/// What a line asks for, with the program of its pattern. A fault is that of the pattern, as in `prepare_pattern`.
pub fn prepare(alloc: Global, line: &Line<'_>) -> Result<Prepared, PrepareFault>
    ensures { PreparesLine (asked (line_of line.now.command)) line.now.text.now result }
{
    match &line.command {
        Command::Nothing => Ok(Prepared::Nothing),
        Command::Order(Order::Look) => Ok(Prepared::Look),
        Command::Order(Order::Hush) => change_alone(alloc, line, Change::Hush),
        Command::Order(Order::UnmuteAll) => change_alone(alloc, line, Change::UnmuteAll),
        Command::Order(Order::UnsoloAll) => change_alone(alloc, line, Change::UnsoloAll),
        Command::Flag { flag, orbit } => change_alone(alloc, line, flagged(*flag, *orbit)),
        Command::Play { orbit, expr } => set(alloc, line, *orbit, 1, expr),
        Command::Silence { orbit } => set(alloc, line, *orbit, 1, &Expr::Silence),
        Command::Jump { orbit, every, expr } => set(alloc, line, *orbit, *every, expr),
    }
}

/// The program of a pattern, in a table with exactly its rows. `TooLarge` comes at the first row that goes above the limits
/// of a table; then the load is looked at, then the fineness, then the reach.
pub fn prepare_pattern(alloc: Global, pattern: &Pattern) -> Result<Program, PrepareFault>
    ensures { PreparesTo (pattern_built (pattern_of pattern.now.source)) result }
{
    match &pattern.source {
        Source::Mini(tree) => mini_program(alloc, tree),
        Source::Expr(expr) => expr_program(alloc, expr, 0),
    }
}

fn flagged(flag: Flag, orbit: u8) -> Change<Program>
    ensures { result ≡ flagged flag orbit }
{
    match flag {
        Flag::Mute => Change::Mute { orbit },
        Flag::Unmute => Change::Unmute { orbit },
        Flag::Solo => Change::Solo { orbit },
        Flag::Unsolo => Change::Unsolo { orbit },
    }
}

// A change without a pattern.
fn change_alone(
    alloc: Global,
    line: &Line<'_>,
    change: Change<Program>,
) -> Result<Prepared, PrepareFault>
    ensures ok { IfOk result (λ p. p ≡ Swap line.now.text.now 1 change) }
    ensures err { IfErr result (λ fault. fault ≡ OutOfMemory) }
{
    let text = copied(alloc, line.text)?;
    Ok(Prepared::Swap {
        text,
        every: 1,
        change,
    })
}

// An orbit plays an expression.
fn set(
    alloc: Global,
    line: &Line<'_>,
    orbit: u8,
    every: u32,
    expr: &Expr,
) -> Result<Prepared, PrepareFault>
    requires { IsValidExpr expr.now }
    ensures { PreparesLine (swap every (Set orbit (built (expr_of expr.now)))) line.now.text.now result }
{
    let pattern = expr_program(alloc, expr, line.text.len() / BYTES_OF_A_ROW)?;
    let text = copied(alloc, line.text)?;
    let change = Change::Set { orbit, pattern };
    Ok(Prepared::Swap {
        text,
        every,
        change,
    })
}

fn copied(alloc: Global, text: &[u8]) -> Result<Text, NoMemory>
    ensures { IfOk result (λ copy. copy ≡ text.now) }
{
    let mut copy = Text::new(alloc);
    copy.add(text)?;
    Ok(copy)
}
