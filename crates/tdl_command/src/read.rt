// What was read, and what is known of it.
ghost use Rattle.tdl_command.specs.Valid.{IsValidCommand, IsValidSource};
ghost use Rattle.tdl_command.specs.ValidOnce.{command_once, source_once};

use crate::tree::{Command, Expr};
use tdl_mini_tree::Tree;

/// A line: its text without the blanks round it, and what it asks for.
#[derive(Drop)]
pub struct Line<'a> {
    pub text: &'a [u8],
    pub command: Command,
    pub ghost valid: { IsValidCommand command } by { command_once command },
}

/// What stands for a pattern: a text of mini-notation, or an expression.
#[derive(Drop)]
pub enum Source {
    Mini(Tree),
    Expr(Expr),
}

/// A pattern alone.
#[derive(Drop)]
pub struct Pattern {
    pub source: Source,
    pub ghost valid: { IsValidSource source } by { source_once source },
}
