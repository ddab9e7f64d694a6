// How the reader takes each token.
ghost use Rattle.std.specs.Prelude.{◌≡◌, ◌≤◌, ◌<◌, ◌^◌, length, ◌++◌, List, Some, IfOk, IfErr, OnOk, IsTrue, ◌+◌};
ghost use Rattle.tdl_mini_tree.specs.Tree.{Layers as Trees, MiniStep as StepTree, no_brace};
ghost use Rattle.tdl_mini_reader.specs.TokenView.{tok_value};
ghost use Rattle.tdl_mini_machine.specs.Readable.{is_readable};
ghost use Rattle.tdl_mini_tree.specs.View.{step_of};
ghost use Rattle.tdl_mini_machine.specs.Machine.States.{begun, Taken, pending, wanting};
ghost use Rattle.tdl_mini_reader.specs.NestsView.{trees_in};
ghost use Rattle.tdl_mini_reader.specs.inside.GrowthView.{is_inside, is_plain, MayNest};
ghost use Rattle.tdl_mini_reader.specs.ReaderView.{StaysAt, HasGrown, taken_at, IsReadTo, state_of, stage_of, role_of, Refusal};
ghost use Rattle.tdl_mini_reader.specs.inside.Follows.{Follows, FollowsOn};
ghost use Rattle.tdl_mini_reader.specs.inside.Calls.{mark_at, hold_at, going_on, past_of};

mod brackets;
mod values;

use crate::reader::{Fault, MiniTokenReader};
use crate::stages::{Role, Stage, begins};
use crate::tokens::Tok;
use std::mem;
use tdl_mini_machine::Mark;
use tdl_mini_tree::{Element, MiniStep, Number, Term, is_count};

impl MiniTokenReader {
    /// Takes a further token at a stage, which is then the next one. A fault stands at the index of its token, and
    /// after it nothing goes on.
    pub fn take(&mut self, stage: &mut Stage, tok: &Tok) -> Result<(), Fault>
        requires stays { StaysAt (trees_in self.old.nests) self.old stage.old }
        requires readable { IsTrue (is_readable (tok_value tok.now)) }
        requires room { length (trees_in self.old.nests) ≤ self.old.read }
        requires short { self.old.read < 2 ^ 25 }
        ensures ok { OnOk result ((more : List Trees) → IsReadTo (taken_at self.old stage.old tok.now) self.new stage.new (trees_in self.new.nests ++ more)) }
        ensures grown { OnOk result (HasGrown self.old.nests self.new.nests) }
        ensures count { OnOk result (self.new.read ≡ self.old.read + 1) }
        ensures room { OnOk result (length (trees_in self.new.nests) ≤ self.new.read) }
        ensures err { IfErr result (Refusal (taken_at self.old stage.old tok.now (trees_in self.old.nests))) }
    {
        self.take_next(stage, tok)?;
        self.read += 1;
        Ok(())
    }

    // The same before the token is counted.
    fn take_next(&mut self, stage: &mut Stage, tok: &Tok) -> Result<(), Fault>
        requires nests { MayNest self.old stage.old }
        requires readable { IsTrue (is_readable (tok_value tok.now)) }
        ensures { FollowsOn (taken_at self.old stage.old tok.now) self.old self.new stage.new result }
    {
        match tok {
            Tok::Mark(mark) => self.take_mark(stage, tok, *mark),
            _ => self.take_plain(stage, tok),
        }
    }

    fn take_mark(&mut self, stage: &mut Stage, tok: &Tok, mark: Mark) -> Result<(), Fault>
        requires { MayNest self.old stage.old }
        ensures { FollowsOn (mark_at self.old stage.old tok.now mark) self.old self.new stage.new result }
    {
        match mark {
            Mark::Close(bracket) => self.take_close(stage, tok, bracket),
            Mark::CloseRound => self.take_euclid(stage, tok),
            Mark::Comma => self.take_comma(stage, tok),
            _ => self.take_inside(stage, tok, mark),
        }
    }

    // A token that is no mark.
    fn take_plain(&mut self, stage: &mut Stage, tok: &Tok) -> Result<(), Fault>
        requires readable { IsTrue (is_readable (tok_value tok.now)) }
        requires plain { IsTrue (is_plain (tok_value tok.now)) }
        ensures { Follows (taken_at self.old stage.old tok.now) self.old self.new stage.new result }
    {
        match tok {
            Tok::Number {
                number,
                is_count,
                ..
            } => {
                if *is_count {
                    self.take_count(stage, tok, *number)
                } else {
                    self.take_number(stage, tok, *number)
                }
            }
            Tok::Word { is_count, .. } => {
                if *is_count {
                    Err(self.uncounted(stage, tok))
                } else {
                    self.take_value(stage, tok)
                }
            }
            Tok::Mark(_) => unreachable!(),
            Tok::End => {
                self.settle(stage, tok)?;
                self.take_end(stage, tok)
            }
        }
    }

    // A step begins with this token.
    fn begin(&mut self)
        ensures state { (trees : List Trees) (stage : Stage) → begun (state_of trees self.old Stage.Ready) (stage_of trees stage)
            ≡ past_of trees self.new stage }
        ensures nests { self.new.nests ≡ self.old.nests }
    {
        self.level.start = self.read;
    }

    // A mark that finishes no layers.
    fn take_inside(&mut self, stage: &mut Stage, tok: &Tok, mark: Mark) -> Result<(), Fault>
        requires { IsTrue (is_inside mark) }
        ensures { Follows (mark_at self.old stage.old tok.now mark) self.old self.new stage.new result }
    {
        match mark {
            Mark::Rest => self.take_rest(stage, tok),
            Mark::Open(bracket) => self.take_open(stage, tok, bracket),
            Mark::OpenRound => self.take_arguments(stage, tok),
            Mark::Repeat => self.take_repeat(stage, tok),
            Mark::Star => self.take_star(stage, tok),
            Mark::Slash => self.take_slash(stage, tok),
            Mark::At => self.take_at(stage, tok),
            Mark::Colon => self.take_colon(stage, tok),
            Mark::Percent => self.take_percent(stage, tok),
            Mark::Range => self.take_range(stage, tok),
            Mark::Question => Err(self.unfit(stage, tok)),
            Mark::Bar => Err(self.unfit(stage, tok)),
            Mark::Caret => Err(self.unfit(stage, tok)),
            Mark::Hold => self.take_hold(stage, tok),
            Mark::Dot => self.take_next_group(stage, tok),
            Mark::Close(_) | Mark::CloseRound | Mark::Comma => unreachable!(),
        }
    }

    fn take_rest(&mut self, stage: &mut Stage, tok: &Tok) -> Result<(), Fault>
        ensures { Follows (mark_at self.old stage.old tok.now Mark.Rest) self.old self.new stage.new result }
    {
        self.settle(stage, tok)?;
        self.begin();
        stage.follow(Stage::Stepping(begins(self.alloc, Term::Rest)));
        Ok(())
    }

    fn take_star(&mut self, stage: &mut Stage, tok: &Tok) -> Result<(), Fault>
        ensures { Follows (mark_at self.old stage.old tok.now Mark.Star) self.old self.new stage.new result }
    {
        let step = self.take_step(stage, tok)?;
        stage.follow(self.wanting(Role::Faster(step)));
        Ok(())
    }

    fn take_slash(&mut self, stage: &mut Stage, tok: &Tok) -> Result<(), Fault>
        ensures { Follows (mark_at self.old stage.old tok.now Mark.Slash) self.old self.new stage.new result }
    {
        let step = self.take_step(stage, tok)?;
        stage.follow(self.wanting(Role::Slower(step)));
        Ok(())
    }

    fn take_at(&mut self, stage: &mut Stage, tok: &Tok) -> Result<(), Fault>
        ensures { Follows (mark_at self.old stage.old tok.now Mark.At) self.old self.new stage.new result }
    {
        let step = self.take_step(stage, tok)?;
        stage.follow(Stage::Weighing(step));
        Ok(())
    }

    fn take_hold(&mut self, stage: &mut Stage, tok: &Tok) -> Result<(), Fault>
        ensures { Follows (mark_at self.old stage.old tok.now Mark.Hold) self.old self.new stage.new result }
    {
        self.settle(stage, tok)?;
        self.add_hold(tok)
    }

    // Between elements.
    fn add_hold(&mut self, tok: &Tok) -> Result<(), Fault>
        ensures { Follows (hold_at self.old tok.now) self.old self.new Stage.Ready result }
    {
        if !self.has_element() {
            return Err(self.refused(tok));
        }
        let size = self.level.size.and_hold();
        self.grow(Element::Hold, size, self.read)
    }

    // A `!`: a count may follow where a step without one ends.
    fn take_repeat(&mut self, stage: &mut Stage, tok: &Tok) -> Result<(), Fault>
        ensures { Follows (mark_at self.old stage.old tok.now Mark.Repeat) self.old self.new stage.new result }
    {
        let takes_count = stage.ends_step();
        self.settle(stage, tok)?;
        if !self.has_element() {
            return Err(self.refused(tok));
        }
        self.begin();
        stage.follow(Stage::Repeating { takes_count });
        Ok(())
    }

    // The step that a mark goes on with.
    pub(super) fn take_step(&mut self, stage: &mut Stage, tok: &Tok) -> Result<MiniStep, Fault>
        ensures ok { IfOk result (λ step. (trees : List Trees) → pending (stage_of trees stage.old) ≡ Some (step_of trees step)) }
        ensures ready { OnOk result (stage.new ≡ Stage.Ready) }
        ensures same { OnOk result (self.new ≡ self.old) }
        ensures err { IfErr result (λ fault. (trees : List Trees) (next : StepTree → Taken) → Refusal (going_on self.old stage.old tok.now next trees) fault) }
    {
        match stage.pending(self.alloc)? {
            Some(step) => Ok(step),
            None => Err(self.unfit(stage, tok)),
        }
    }

    // A factor is wanted after `*` or `/`.
    fn wanting(&self, role: Role) -> Stage
        ensures { (trees : List Trees) → stage_of trees result ≡ wanting (role_of trees role) no_brace }
    {
        Stage::Wanting {
            role,
            braces: Vec::new(self.alloc),
        }
    }

    fn take_colon(&mut self, stage: &mut Stage, tok: &Tok) -> Result<(), Fault>
        ensures { Follows (mark_at self.old stage.old tok.now Mark.Colon) self.old self.new stage.new result }
    {
        match stage {
            Stage::Voiced(word) => {
                *stage = Stage::Sampling(*word);
                Ok(())
            }
            _ => Err(self.unfit(stage, tok)),
        }
    }

    fn take_range(&mut self, stage: &mut Stage, tok: &Tok) -> Result<(), Fault>
        ensures { Follows (mark_at self.old stage.old tok.now Mark.Range) self.old self.new stage.new result }
    {
        match stage {
            Stage::Numbered(number) => {
                *stage = Stage::Ranging(*number);
                Ok(())
            }
            _ => Err(self.unfit(stage, tok)),
        }
    }

    fn take_percent(&mut self, stage: &mut Stage, tok: &Tok) -> Result<(), Fault>
        ensures { Follows (mark_at self.old stage.old tok.now Mark.Percent) self.old self.new stage.new result }
    {
        match mem::replace(stage, Stage::Ready) {
            Stage::Braced { role, braces, last } => {
                let mut braces = braces;
                braces.push(last)?;
                *stage = Stage::Wanting { role, braces };
                Ok(())
            }
            other => {
                *stage = other;
                Err(self.unfit(stage, tok))
            }
        }
    }
}
