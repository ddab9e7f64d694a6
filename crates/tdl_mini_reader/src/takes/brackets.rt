// How the reader opens and ends brackets, and takes what stands between groups, layers and arguments.
ghost use Rattle.std.specs.Prelude.{◌≡◌, length, ◌++◌, ◌∷◌, true, IfOk, IfErr, OnOk, [], ◌+◌, nat_le, IsTrue};
ghost use Rattle.tdl_mini_tree.specs.Limits.{max_groups};
ghost use Rattle.tdl_mini_tree.specs.View.{braces_of, named, changed, step_of};
ghost use Rattle.tdl_mini_machine.specs.Machine.States.{is_same_bracket, stepping, Taken};
ghost use Rattle.tdl_mini_machine.specs.Machine.Brackets.{after_bracket};
ghost use Rattle.tdl_mini_machine.specs.Machine.Running.{taken};
ghost use Rattle.tdl_mini_reader.specs.NestsView.{trees_in};
ghost use Rattle.tdl_mini_reader.specs.inside.GrowthView.{MayNest, euclid_accepted};
ghost use Rattle.tdl_mini_reader.specs.inside.Follows.{Follows, FollowsOn};
ghost use Rattle.tdl_mini_reader.specs.inside.Calls.{mark_at, next_group, text_end, bracket_end, euclid_end, next_part, FailsAt};
ghost use Rattle.tdl_mini_reader.specs.inside.PartView.{StandsAt, is_wanting};
ghost use Rattle.tdl_mini_reader.specs.ReaderView.{role_of, Refusal};

use crate::levels::{Frame, Level};
use crate::reader::{Fault, MiniTokenReader, check};
use crate::stages::{Hole, Role, Stage, changed};
use crate::tokens::Tok;
use std::mem;
use tdl_control::NoMemory;
use tdl_mini_machine::Mark;
use tdl_mini_tree::{
    Bracket, Kind, Last, MAX_GROUPS, MiniKind, MiniStep, NestId, Operand, StepChange, Term,
};

fn is_same_bracket(bracket: Bracket, opened: Bracket) -> bool
    ensures { result ≡ is_same_bracket bracket opened }
{
    bracket == opened
}

impl MiniTokenReader {
    pub(super) fn take_open(
        &mut self,
        stage: &mut Stage,
        tok: &Tok,
        bracket: Bracket,
    ) -> Result<(), Fault>
        ensures { Follows (mark_at self.old stage.old tok.now (Mark.Open bracket)) self.old self.new stage.new result }
    {
        if let Stage::Wanting { .. } = stage {
            return self.open_factor(stage, tok, bracket);
        }
        self.settle(stage, tok)?;
        self.level.start = self.read;
        let hole = Hole::Operand {
            role: Role::Term,
            braces: Vec::new(self.alloc),
            bracket,
        };
        self.open(hole, self.level.kind, tok)
    }

    // A bracket opens where a factor is wanted.
    fn open_factor(&mut self, stage: &mut Stage, tok: &Tok, bracket: Bracket) -> Result<(), Fault>
        requires { IsTrue (is_wanting stage.old) }
        ensures { Follows (mark_at self.old stage.old tok.now (Mark.Open bracket)) self.old self.new stage.new result }
    {
        match mem::replace(stage, Stage::Ready) {
            Stage::Wanting { role, braces } => {
                let hole = Hole::Operand {
                    role,
                    braces,
                    bracket,
                };
                self.open(hole, Kind::Ratio, tok)
            }
            _ => unreachable!(),
        }
    }

    // The arguments of a Euclid begin.
    pub(super) fn take_arguments(&mut self, stage: &mut Stage, tok: &Tok) -> Result<(), Fault>
        ensures { Follows (mark_at self.old stage.old tok.now Mark.OpenRound) self.old self.new stage.new result }
    {
        if self.is_full() {
            return Err(self.unfit(stage, tok));
        }
        let step = self.take_step(stage, tok)?;
        self.open(Hole::Hits(step), Kind::Count, tok)
    }

    pub(super) fn take_close(
        &mut self,
        stage: &mut Stage,
        tok: &Tok,
        bracket: Bracket,
    ) -> Result<(), Fault>
        requires { MayNest self.old stage.old }
        ensures { FollowsOn (mark_at self.old stage.old tok.now (Mark.Close bracket)) self.old self.new stage.new result }
    {
        self.settle(stage, tok)?;
        self.close(stage, tok, bracket)
    }

    // Ends the innermost bracket.
    fn close(&mut self, stage: &mut Stage, tok: &Tok, bracket: Bracket) -> Result<(), Fault>
        requires nests { MayNest self.old Stage.Ready }
        requires ready { stage.old ≡ Stage.Ready }
        ensures { FollowsOn (bracket_end self.old tok.now bracket) self.old self.new stage.new result }
    {
        let refused = self.refused(tok);
        let Some(Frame { level, hole }) = self.frames.pop() else {
            return Err(refused);
        };
        match hole {
            Hole::Operand {
                role,
                braces,
                bracket: opened,
            } => {
                if !is_same_bracket(bracket, opened) {
                    return Err(refused);
                }
                let nest = self.nest(level)?;
                let next = self.after_bracket(role, braces, bracket, nest)?;
                stage.follow(next);
                Ok(())
            }
            _ => Err(refused),
        }
    }

    // The stage after the end of a bracket.
    fn after_bracket(
        &self,
        role: Role,
        braces: Vec<NestId>,
        bracket: Bracket,
        nest: NestId,
    ) -> Result<Stage, NoMemory>
        ensures { IfOk result (StandsAt (λ trees. after_bracket (role_of trees role) (braces_of trees braces.items) bracket (named trees nest))) }
    {
        if let Bracket::Brace = bracket {
            return Ok(Stage::Braced {
                role,
                braces,
                last: nest,
            });
        }
        let last = Last::Nest { bracket, nest };
        let step = role.join(self.alloc, Operand { braces, last })?;
        Ok(Stage::Stepping(step))
    }

    // The arguments of a Euclid end.
    pub(super) fn take_euclid(&mut self, stage: &mut Stage, tok: &Tok) -> Result<(), Fault>
        requires { MayNest self.old stage.old }
        ensures { FollowsOn (mark_at self.old stage.old tok.now Mark.CloseRound) self.old self.new stage.new result }
    {
        self.settle(stage, tok)?;
        self.close_euclid(stage, tok)
    }

    // Takes off the innermost bracket, whose last argument ends.
    fn close_euclid(&mut self, stage: &mut Stage, tok: &Tok) -> Result<(), Fault>
        requires nests { MayNest self.old Stage.Ready }
        requires ready { stage.old ≡ Stage.Ready }
        ensures { FollowsOn (euclid_end self.old tok.now) self.old self.new stage.new result }
    {
        let refused = self.refused(tok);
        let Some(Frame { level, hole }) = self.frames.pop() else {
            return Err(refused);
        };
        match hole {
            Hole::Steps { step, hits } => {
                let steps = self.nest(level)?;
                self.end_euclid(stage, step, hits, steps, None)
            }
            Hole::From { step, hits, steps } => {
                let from = self.nest(level)?;
                self.end_euclid(stage, step, hits, steps, Some(from))
            }
            _ => Err(refused),
        }
    }

    // Changes the step, if there is a rhythm for each choice of the arguments.
    fn end_euclid(
        &self,
        stage: &mut Stage,
        step: MiniStep,
        hits: NestId,
        steps: NestId,
        from: Option<NestId>,
    ) -> Result<(), Fault>
        requires ready { stage.old ≡ Stage.Ready }
        ensures accepted { OnOk result (euclid_accepted (trees_in self.now.nests) hits steps from ≡ true) }
        ensures ok { OnOk result (StandsAt (λ trees. stepping (changed trees (step_of trees step) (StepChange.Euclid hits steps from))) stage.new) }
        ensures err { IfErr result (FailsAt MiniKind.BadEuclid self.now.read (euclid_accepted (trees_in self.now.nests) hits steps from)) }
    {
        let holds = self.accepts(hits, steps, from);
        self.check(holds, MiniKind::BadEuclid)?;
        let step = changed(step, StepChange::Euclid { hits, steps, from })?;
        stage.follow(Stage::Stepping(step));
        Ok(())
    }

    // Whether there is a rhythm for each choice of a Euclid's arguments, or none is played.
    fn accepts(&self, hits: NestId, steps: NestId, from: Option<NestId>) -> bool
        ensures { result ≡ euclid_accepted (trees_in self.now.nests) hits steps from }
    {
        let has_rhythms = self.nests.span(hits).has_rhythms(self.nests.span(steps));
        match from {
            Some(from) => self.nests.span(from).is_empty() || has_rhythms,
            None => has_rhythms,
        }
    }

    // A further argument, or a further layer.
    pub(super) fn take_comma(&mut self, stage: &mut Stage, tok: &Tok) -> Result<(), Fault>
        requires { MayNest self.old stage.old }
        ensures { FollowsOn (mark_at self.old stage.old tok.now Mark.Comma) self.old self.new stage.new result }
    {
        self.settle(stage, tok)?;
        self.part(tok)
    }

    // Ends an argument of the innermost bracket, or a layer in it.
    fn part(&mut self, tok: &Tok) -> Result<(), Fault>
        requires { MayNest self.old Stage.Ready }
        ensures { FollowsOn (next_part self.old tok.now) self.old self.new Stage.Ready result }
    {
        let refused = self.refused(tok);
        let Some(Frame { level, hole }) = self.frames.pop() else {
            self.level.end_sequence(self.alloc)?;
            return Ok(());
        };
        match hole {
            Hole::Operand { .. } => {
                self.level.end_sequence(self.alloc)?;
                self.go_on(level, hole)
            }
            Hole::Hits(step) => {
                let hits = self.nest(Level::new(self.alloc, Kind::Count))?;
                self.go_on(level, Hole::Steps { step, hits })
            }
            Hole::Steps { step, hits } => {
                let steps = self.nest(Level::new(self.alloc, Kind::Count))?;
                self.go_on(level, Hole::From { step, hits, steps })
            }
            Hole::From { .. } => Err(refused),
        }
    }

    // Goes on inside the bracket after a comma.
    fn go_on(&mut self, level: Level, hole: Hole) -> Result<(), Fault>
        ensures frames { OnOk result (self.new.frames.items ≡ self.old.frames.items ++ record { level = level; hole = hole } ∷ []) }
        ensures level { OnOk result (self.new.level ≡ self.old.level) }
        ensures nests { OnOk result (self.new.nests ≡ self.old.nests) }
        ensures read { OnOk result (self.new.read ≡ self.old.read) }
        ensures err { IfErr result (λ fault. (taken : Taken) → Refusal taken fault) }
    {
        self.frames.push(Frame { level, hole })?;
        Ok(())
    }

    pub(super) fn take_next_group(&mut self, stage: &mut Stage, tok: &Tok) -> Result<(), Fault>
        ensures { Follows (mark_at self.old stage.old tok.now Mark.Dot) self.old self.new stage.new result }
    {
        self.settle(stage, tok)?;
        self.take_dot()
    }

    // Whether the sequence may have a group besides the one that is read.
    fn has_room(&self) -> bool
        ensures { result ≡ nat_le (length self.now.level.groups.items + 2) max_groups }
    {
        self.level.groups.len() <= MAX_GROUPS - 2
    }

    // A further group.
    fn take_dot(&mut self) -> Result<(), Fault>
        ensures { Follows (next_group self.old) self.old self.new Stage.Ready result }
    {
        self.check(self.has_room(), MiniKind::TooManySteps)?;
        self.level.end_group(self.alloc)?;
        Ok(())
    }

    pub(super) fn take_end(&mut self, stage: &mut Stage, tok: &Tok) -> Result<(), Fault>
        requires { stage.old ≡ Stage.Ready }
        ensures { Follows (text_end self.old tok.now) self.old self.new stage.new result }
    {
        if self.has_frame() {
            return Err(self.refused(tok));
        }
        self.level.end_sequence(self.alloc)?;
        stage.follow(Stage::Ended);
        Ok(())
    }
}
