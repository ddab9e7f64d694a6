// A reader of tokens that keeps what is read so far.
ghost use Rattle.std.specs.Prelude.{◌≡◌, ◌≤◌, ◌<◌, ◌+◌, ◌^◌, ◌-◌, ℕ, nat_le, List, length, true, false, [], IsTrue, None, Some, Ok, IfOk, IfErr, OnOk};
ghost use Rattle.std.specs.Prelude.{nat_lt};
ghost use Rattle.tdl_control.specs.declared.faults.Faulted.TheVariants.{At};
ghost use Rattle.tdl_mini_tree.specs.Tree.{Layers as Trees, element as with_element};
ghost use Rattle.tdl_mini_tree.specs.Limits.{max_depth};
ghost use Rattle.tdl_mini_tree.specs.Sizes.{size_of, is_within};
ghost use Rattle.tdl_mini_tree.specs.SizeView.{size_value, IsSizeWith};
ghost use Rattle.tdl_mini_machine.specs.Rules.{number_tests, token_tests};
ghost use Rattle.tdl_mini_machine.specs.WrongTokens.{wrong_token};
ghost use Rattle.tdl_mini_reader.specs.declared.tokens.Tok.{Tok as TokValue};
ghost use Rattle.tdl_mini_reader.specs.TokenView.{tok_value};
ghost use Rattle.tdl_mini_tree.specs.Syntax.{syntax_of};
ghost use Rattle.tdl_mini_tree.specs.Valid.{is_valid};
ghost use Rattle.tdl_mini_tree.specs.View.{layers_of, group_of, element_of, value_of as value_tree};
ghost use Rattle.tdl_mini_machine.specs.Machine.States.{first_state};
ghost use Rattle.tdl_mini_reader.specs.NestsView.{trees_in};
ghost use Rattle.tdl_mini_reader.specs.inside.GrowthView.{HasNested};
ghost use Rattle.tdl_mini_reader.specs.inside.Calls.{bracket_at, unfit_at, uncounted_at, settled_before, FailsIn, step_added, repeat_added, IsAdded};
ghost use Rattle.tdl_mini_reader.specs.inside.Calls.{IsNotAdded, IsGrown, is_within_with, fault_in, FailsAt, IsTaken, IsRefused};
ghost use Rattle.tdl_mini_reader.specs.ReaderView.{IsReadTo, state_of};

use crate::levels::{Frame, Level, push_frame};
use crate::nests::Nests;
use crate::numbers::number_fault;
use crate::stages::{Hole, Role, Stage, begins, end_brace};
use crate::tokens::Tok;
use std::alloc::Global;
use std::mem;
use tdl_control::{Faulted, NoMemory};
use tdl_mini_machine::Mark;
use tdl_mini_tree::{
    Element, Kind, Layers, MAX_DEPTH, MiniKind, MiniStep, NestId, Number, Size, Term, Tree, UNIT,
    Value, weight_of,
};

/// Why a token is not taken: out of memory, or a fault at a token, counted from 0.
pub(crate) type Fault = Faulted<MiniKind>;

/// A reader of tokens: the open brackets, and what is finished in each. Finished layers inside others are kept
/// apart.
#[derive(Drop)]
pub struct MiniTokenReader {
    pub(crate) alloc: Global,
    pub(crate) nests: Nests,
    pub(crate) frames: Vec<Frame>,
    pub(crate) level: Level,
    pub(crate) read: u32,
}

/// A fault at a token, unless a rule holds.
pub(crate) fn check(holds: bool, kind: MiniKind, at: u32) -> Result<(), Fault>
    ensures ok { OnOk result (holds ≡ true) }
    ensures err { IfErr result (λ fault. (fault ≡ At kind at) × (holds ≡ false)) }
{
    if holds {
        Ok(())
    } else {
        Err(Faulted::At { kind, at })
    }
}

fn wrong_token(depth: usize, tok: &Tok) -> MiniKind
    ensures { result ≡ wrong_token depth (tok_value tok.now) }
{
    match *tok {
        Tok::Mark(Mark::Question | Mark::Bar) => MiniKind::Random,
        Tok::Mark(Mark::Caret) => MiniKind::Variable,
        Tok::Mark(Mark::Open(_) | Mark::OpenRound) if depth >= MAX_DEPTH => MiniKind::TooDeep,
        _ => MiniKind::Unexpected,
    }
}

impl MiniTokenReader {
    /// A reader of the tokens of a text of a kind, before the first. Memory comes from the allocator.
    pub fn new(alloc: Global, kind: Kind) -> MiniTokenReader
        ensures state { (trees : List Trees) → state_of trees result Stage.Ready ≡ first_state kind }
        ensures empty { trees_in result.nests ≡ [] }
    {
        MiniTokenReader {
            alloc,
            nests: Nests::new(alloc),
            frames: Vec::new(alloc),
            level: Level::new(alloc, kind),
            read: 0,
        }
    }

    /// The fault of a token that goes on with no text.
    #[cold]
    #[inline(never)]
    pub(crate) fn refused(&self, tok: &Tok) -> Fault
        ensures { result ≡ At (wrong_token (length self.now.frames.items) (tok_value tok.now)) self.now.read }
    {
        Faulted::At {
            kind: wrong_token(self.frames.len(), tok),
            at: self.read,
        }
    }

    /// A fault at this token, unless a rule holds.
    pub(crate) fn check(&self, holds: bool, kind: MiniKind) -> Result<(), Fault>
        ensures ok { OnOk result (holds ≡ true) }
        ensures err { IfErr result (λ fault. (fault ≡ At kind self.now.read) × (holds ≡ false)) }
    {
        check(holds, kind, self.read)
    }

    /// A fault at this token, unless the number can be a value or an end of a range here.
    pub(crate) fn check_number(&self, number: Number) -> Result<(), Fault>
        ensures ok { OnOk result (fault_in (number_tests self.now.level.kind self.now.read number) ≡ None) }
        ensures err { IfErr result (FailsIn (number_tests self.now.level.kind self.now.read number) self.now.read) }
    {
        match number_fault(self.level.kind, number) {
            Some(kind) => Err(Faulted::At {
                kind,
                at: self.read,
            }),
            None => Ok(()),
        }
    }

    /// A fault at this token, unless it can be this value here.
    pub(crate) fn check_value(&self, value: Value) -> Result<(), Fault>
        ensures ok { OnOk result (fault_in (token_tests self.now.level.kind self.now.read (value_tree value)) ≡ None) }
        ensures err { IfErr result (FailsIn (token_tests self.now.level.kind self.now.read (value_tree value)) self.now.read) }
    {
        match value {
            Value::Number(number) => self.check_number(number),
            Value::Sound { .. } | Value::Name(_) | Value::Note(_) | Value::Truth(_) => Ok(()),
        }
    }

    /// Puts an element at the end of the group, if the group may then have this size; the fault stands at `at`.
    pub(crate) fn grow(&mut self, element: Element, size: Size, at: u32) -> Result<(), Fault>
        requires sizes { IsSizeWith size self.old.level.elements.items element }
        requires last { size.last ≤ size.sum }
        requires fits { size.steps < 2 ^ 40 }
        ensures ok { OnOk result (IsTrue (is_within self.old.level.before (size_value size)) × IsGrown self.old self.new element) }
        ensures nests { OnOk result (self.new.nests ≡ self.old.nests) }
        ensures err { IfErr result (FailsAt MiniKind.TooManySteps at (is_within self.old.level.before (size_value size))) }
    {
        check(
            size.is_within(self.level.before),
            MiniKind::TooManySteps,
            at,
        )?;
        self.level.push(element, size)?;
        Ok(())
    }

    /// Puts a step at the end of the group.
    pub(crate) fn add_step(&mut self, step: MiniStep, weight: Option<Number>) -> Result<(), Fault>
        ensures ok { OnOk result (IsAdded (step_added self.old step weight) self.new) }
        ensures nests { OnOk result (self.new.nests ≡ self.old.nests) }
        ensures err { IfErr result (IsNotAdded (step_added self.old step weight)) }
    {
        let size = self.level.size.and_steps(1, weight_of(weight));
        let element = Element::Played {
            step,
            weight,
            count: None,
        };
        self.grow(element, size, self.level.start)
    }

    /// Puts a range at the end of the group.
    pub(crate) fn add_range(&mut self, first: Number, last: Number) -> Result<(), Fault>
        ensures ok { OnOk result (IsTrue (is_within_with self.old first last) × IsGrown self.old self.new (Element.Range first last)) }
        ensures nests { OnOk result (self.new.nests ≡ self.old.nests) }
        ensures err { IfErr result (FailsAt MiniKind.TooManySteps self.old.level.start (is_within_with self.old first last)) }
    {
        let size = self.level.size.and_steps(first.range_length(last), UNIT);
        self.grow(Element::Range { first, last }, size, self.level.start)
    }

    /// Puts a `!` without a count at the end of the group.
    pub(crate) fn add_repeat(&mut self) -> Result<(), Fault>
        ensures ok { OnOk result (IsAdded (repeat_added self.old) self.new) }
        ensures nests { OnOk result (self.new.nests ≡ self.old.nests) }
        ensures err { IfErr result (IsNotAdded (repeat_added self.old)) }
    {
        let size = self.level.size.and_steps(1, self.level.size.last);
        self.grow(Element::Repeat, size, self.level.start)
    }

    /// Finishes the element that is being read, if it can end before the token.
    pub(crate) fn settle(&mut self, stage: &mut Stage, tok: &Tok) -> Result<(), Fault>
        ensures ok { OnOk result ((trees : List Trees) → IsReadTo (settled_before self.old stage.old tok.now) self.new Stage.Ready trees) }
        ensures ready { OnOk result (stage.new ≡ Stage.Ready) }
        ensures nests { OnOk result (self.new.nests ≡ self.old.nests) }
        ensures err { IfErr result (IsRefused (settled_before self.old stage.old tok.now)) }
    {
        match stage {
            Stage::Ready => Ok(()),
            _ => self.finish(mem::replace(stage, Stage::Ready), tok),
        }
    }

    // Finishes an element that is begun.
    fn finish(&mut self, stage: Stage, tok: &Tok) -> Result<(), Fault>
        ensures ok { OnOk result ((trees : List Trees) → IsReadTo (settled_before self.old stage tok.now) self.new Stage.Ready trees) }
        ensures nests { OnOk result (self.new.nests ≡ self.old.nests) }
        ensures err { IfErr result (IsRefused (settled_before self.old stage tok.now)) }
    {
        match stage {
            Stage::Ready => Ok(()),
            Stage::Weighted { step, weight } => self.add_step(step, Some(weight)),
            Stage::Repeating { .. } => self.add_repeat(),
            Stage::Voiced(word) => {
                self.add_step(
                    begins(self.alloc, Term::Value(Value::Sound { word, number: None })),
                    None,
                )
            }
            Stage::Numbered(number) => {
                self.add_step(begins(self.alloc, Term::Value(Value::Number(number))), None)
            }
            Stage::Stepping(step) => self.add_step(step, None),
            Stage::Braced { role, braces, last } => self.add_braced(role, braces, last),
            _ => Err(self.refused(tok)),
        }
    }

    // Finishes a step that ends with a brace.
    fn add_braced(&mut self, role: Role, braces: Vec<NestId>, last: NestId) -> Result<(), Fault>
        ensures ok { (tok : TokValue) → OnOk result ((trees : List Trees)
            → IsReadTo (settled_before self.old (Stage.Braced role braces last) tok) self.new Stage.Ready trees) }
        ensures nests { OnOk result (self.new.nests ≡ self.old.nests) }
        ensures err { (tok : TokValue) → IfErr result (IsRefused (settled_before self.old (Stage.Braced role braces last) tok)) }
    {
        let step = end_brace(self.alloc, role, braces, last)?;
        self.add_step(step, None)
    }

    /// The fault of a token that goes on with no step.
    #[cold]
    #[inline(never)]
    pub(crate) fn unfit(&mut self, stage: &mut Stage, tok: &Tok) -> Fault
        ensures { IsRefused (unfit_at self.old stage.old tok.now) result }
    {
        match self.settle(stage, tok) {
            Ok(()) => self.refused(tok),
            Err(fault) => fault,
        }
    }

    /// The fault of a token that would be a count, where none may stand.
    pub(crate) fn uncounted(&mut self, stage: &mut Stage, tok: &Tok) -> Fault
        ensures { IsRefused (uncounted_at self.old stage.old tok.now) result }
    {
        match stage {
            Stage::Repeating { .. } => self.refused(tok),
            _ => self.unfit(stage, tok),
        }
    }

    /// Whether no bracket may be opened.
    pub(crate) fn is_full(&self) -> bool
        ensures { result ≡ nat_le max_depth (length self.now.frames.items) }
    {
        self.frames.len() >= MAX_DEPTH
    }

    /// Whether a bracket is open.
    pub(crate) fn has_frame(&self) -> bool
        ensures { result ≡ nat_lt 0 (length self.now.frames.items) }
    {
        !self.frames.is_empty()
    }

    /// Whether the group has an element.
    pub(crate) fn has_element(&self) -> bool
        ensures { result ≡ nat_lt 0 (length self.now.level.elements.items) }
    {
        !self.level.elements.is_empty()
    }

    /// Opens a bracket, and begins to read a text of a kind in it.
    pub(crate) fn open(&mut self, hole: Hole, kind: Kind, tok: &Tok) -> Result<(), Fault>
        ensures ok { OnOk result ((stage : Stage) → IsTaken (bracket_at self.old stage tok.now hole kind) self.new Stage.Ready) }
        ensures nests { OnOk result (self.new.nests ≡ self.old.nests) }
        ensures err { IfErr result (λ fault. (stage : Stage) → IsRefused (bracket_at self.old stage tok.now hole kind) fault) }
    {
        if self.is_full() {
            return Err(self.refused(tok));
        }
        let mut level = Level::new(self.alloc, kind);
        mem::swap(&mut self.level, &mut level);
        push_frame(&mut self.frames, Frame { level, hole })?;
        Ok(())
    }

    /// Keeps the layers of the innermost level, and goes on at another.
    pub(crate) fn nest(&mut self, next: Level) -> Result<NestId, NoMemory>
        requires room { length (trees_in self.old.nests) < 2 ^ 32 - 1 }
        ensures nested { IfOk result (HasNested self.old self.new) }
        ensures level { OnOk result (self.new.level ≡ next) }
        ensures frames { OnOk result (self.new.frames ≡ self.old.frames) }
        ensures read { OnOk result (self.new.read ≡ self.old.read) }
    {
        let level = mem::replace(&mut self.level, next);
        let layers = level.into_layers(self.alloc)?;
        self.nests.push(layers)
    }

    /// The text's tree, once its end is taken: the layers of the outermost level.
    pub fn into_tree(self) -> Result<Tree, NoMemory>
        requires room { length (trees_in self.nests) < 2 ^ 32 - 1 }
        requires valid { IsTrue (is_valid self.level.kind (layers_of (trees_in self.nests) self.level.sequences.items)) }
        ensures syntax { IfOk result (λ tree. syntax_of tree ≡ layers_of (trees_in self.nests) self.level.sequences.items) }
        ensures kind { IfOk result (λ tree. tree.kind ≡ self.level.kind) }
    {
        let MiniTokenReader {
            alloc: _,
            mut nests,
            frames: _,
            level,
            read: _,
        } = self;
        let kind = level.kind;
        let root = nests.push(Layers {
            sequences: level.sequences,
        })?;
        Ok(Tree {
            kind,
            nests: nests.into_layers(),
            root,
        })
    }
}
