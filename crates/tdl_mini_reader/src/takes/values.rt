// How the reader takes values, numbers and counts.
ghost use Rattle.std.specs.Prelude.{◌≡◌, List, IfErr, OnOk, IsTrue};
ghost use Rattle.tdl_mini_tree.specs.Tree.{Layers as Trees};
ghost use Rattle.tdl_mini_tree.specs.Numbers.{is_count};
ghost use Rattle.tdl_mini_reader.specs.TokenView.{tok_value};
ghost use Rattle.tdl_mini_machine.specs.Readable.{is_readable};
ghost use Rattle.tdl_mini_tree.specs.View.{value_of as value_tree};
ghost use Rattle.tdl_mini_machine.specs.Machine.Values.{value_stage};
ghost use Rattle.tdl_mini_reader.specs.inside.Follows.{Follows};
ghost use Rattle.tdl_mini_reader.specs.inside.Calls.{value_at, number_at, first_value, count_at, recount, IsTaken, IsRefused};
ghost use Rattle.tdl_mini_reader.specs.ReaderView.{stage_of};
ghost use Rattle.tdl_mini_reader.specs.inside.PartView.{is_wanting, is_weighing};

use crate::numbers::{is_end, is_sample};
use crate::reader::{Fault, MiniTokenReader, check};
use crate::stages::{Stage, begins};
use crate::tokens::Tok;
use crate::values::value_of;
use std::alloc::Global;
use std::mem;
use tdl_control::Word;
use tdl_mini_tree::{
    Kind, Last, MiniKind, Number, Operand, Term, Value, is_count, is_ratio, is_weight,
};

// The stage after a value.
fn value_stage(alloc: Global, kind: Kind, value: Value) -> Stage
    ensures { (trees : List Trees) → stage_of trees result ≡ value_stage kind (value_tree value) }
{
    match value {
        Value::Sound { word, number: None } => Stage::Voiced(word),
        Value::Number(number) if is_end(kind, number) => Stage::Numbered(number),
        _ => Stage::Stepping(begins(alloc, Term::Value(value))),
    }
}

impl MiniTokenReader {
    pub(super) fn take_value(&mut self, stage: &mut Stage, tok: &Tok) -> Result<(), Fault>
        requires { IsTrue (is_readable (tok_value tok.now)) }
        ensures { Follows (value_at self.old stage.old tok.now) self.old self.new stage.new result }
    {
        self.settle(stage, tok)?;
        self.take_first(stage, tok)
    }

    // A value begins a step.
    fn take_first(&mut self, stage: &mut Stage, tok: &Tok) -> Result<(), Fault>
        requires readable { IsTrue (is_readable (tok_value tok.now)) }
        requires ready { stage.old ≡ Stage.Ready }
        ensures { Follows (first_value self.old tok.now) self.old self.new stage.new result }
    {
        let Some(value) = value_of(self.level.kind, tok) else {
            return Err(self.refused(tok));
        };
        self.check_value(value)?;
        self.level.start = self.read;
        stage.follow(value_stage(self.alloc, self.level.kind, value));
        Ok(())
    }

    pub(super) fn take_number(
        &mut self,
        stage: &mut Stage,
        tok: &Tok,
        number: Number,
    ) -> Result<(), Fault>
        requires { IsTrue (is_readable (tok_value tok.now)) }
        ensures { Follows (number_at self.old stage.old tok.now number) self.old self.new stage.new result }
    {
        match stage {
            Stage::Sampling(word) => {
                let word = *word;
                self.take_sample(stage, tok, word, number)
            }
            Stage::Ranging(first) => {
                let first = *first;
                self.take_last(stage, tok, first, number)
            }
            Stage::Wanting { .. } => self.take_factor(stage, number),
            Stage::Weighing(_) => self.take_weight(stage, number),
            _ => self.take_value(stage, tok),
        }
    }

    // The number of a sample, after its name and a `:`.
    fn take_sample(
        &mut self,
        stage: &mut Stage,
        tok: &Tok,
        word: Word,
        number: Number,
    ) -> Result<(), Fault>
        requires { stage.old ≡ Stage.Sampling word }
        ensures { Follows (number_at self.old stage.old tok.now number) self.old self.new stage.new result }
    {
        if !is_sample(number) {
            return Err(self.refused(tok));
        }
        self.check(number.is_whole(), MiniKind::FloatValue)?;
        let value = Value::Sound {
            word,
            number: Some(number),
        };
        *stage = Stage::Stepping(begins(self.alloc, Term::Value(value)));
        Ok(())
    }

    // The last number of a range.
    fn take_last(
        &mut self,
        stage: &mut Stage,
        tok: &Tok,
        first: Number,
        number: Number,
    ) -> Result<(), Fault>
        requires { stage.old ≡ Stage.Ranging first }
        ensures { Follows (number_at self.old stage.old tok.now number) self.old self.new stage.new result }
    {
        if !is_end(self.level.kind, number) {
            return Err(self.refused(tok));
        }
        self.check_number(number)?;
        self.add_range(first, number)?;
        *stage = Stage::Ready;
        Ok(())
    }

    // A number where a factor is wanted.
    fn take_factor(&mut self, stage: &mut Stage, number: Number) -> Result<(), Fault>
        requires { IsTrue (is_wanting stage.old) }
        ensures { (tok : Tok) → Follows (number_at self.old stage.old tok number) self.old self.new stage.new result }
    {
        match mem::replace(stage, Stage::Ready) {
            Stage::Wanting { role, braces } => {
                self.check(is_ratio(number), MiniKind::BadFactor)?;
                let last = Last::Number(number);
                let step = role.join(self.alloc, Operand { braces, last })?;
                stage.follow(Stage::Stepping(step));
                Ok(())
            }
            _ => unreachable!(),
        }
    }

    // A number after `@`.
    fn take_weight(&mut self, stage: &mut Stage, number: Number) -> Result<(), Fault>
        requires { IsTrue (is_weighing stage.old) }
        ensures { (tok : Tok) → Follows (number_at self.old stage.old tok number) self.old self.new stage.new result }
    {
        match mem::replace(stage, Stage::Ready) {
            Stage::Weighing(step) => {
                self.check(is_weight(number), MiniKind::BadFactor)?;
                stage.follow(Stage::Weighted {
                    step,
                    weight: number,
                });
                Ok(())
            }
            _ => unreachable!(),
        }
    }

    // A number with which a count begins.
    pub(super) fn take_count(
        &mut self,
        stage: &mut Stage,
        tok: &Tok,
        number: Number,
    ) -> Result<(), Fault>
        ensures { Follows (count_at self.old stage.old tok.now number) self.old self.new stage.new result }
    {
        let Stage::Repeating { takes_count } = *stage else {
            return Err(self.unfit(stage, tok));
        };
        if !takes_count {
            return Err(self.refused(tok));
        }
        self.check(is_count(number), MiniKind::BadFactor)?;
        self.recount(number)?;
        *stage = Stage::Ready;
        Ok(())
    }

    // Plays the last step of the group so many times, if its last element is a step.
    fn recount(&mut self, number: Number) -> Result<(), Fault>
        requires { IsTrue (is_count number) }
        ensures ok { OnOk result (IsTaken (recount self.old number) self.new Stage.Ready) }
        ensures nests { OnOk result (self.new.nests ≡ self.old.nests) }
        ensures err { IfErr result (IsRefused (recount self.old number)) }
    {
        let size = self.level.size_with_count(number);
        check(
            size.is_within(self.level.before),
            MiniKind::TooManySteps,
            self.level.start,
        )?;
        self.level.set_count(self.alloc, number, size)?;
        Ok(())
    }
}
