// The tokens of keys and what they are set to.
ghost use Rattle.std.specs.Prelude.{◌≡◌, true, IfErr, OnOk};
ghost use Rattle.tdl_mini_tree.specs.Numbers.{is_whole};
ghost use Rattle.tdl_line_machine.specs.declared.faults.LineKind.TheVariants.{Mini};
ghost use Rattle.tdl_mini_tree.specs.declared.faults.MiniKind.TheVariants.{FloatValue};
ghost use Rattle.tdl_command.specs.Rules.{kind_of};
ghost use Rattle.tdl_line_machine.specs.Machine as machine;
ghost use Rattle.tdl_line_machine.specs.Machine.Settings.{setting_hole};
ghost use Rattle.tdl_line_reader.specs.ReaderView.{AgreesAt, AgreesEach, FailsAt, here};

use crate::faults::Fault;
use crate::reader::LineTokenReader;
use crate::stages::{Hole, Stage};
use crate::tokens::{Quoted, Tok};
use tdl_command::{Expr, Setting};
use tdl_control::Key;
use tdl_line_machine::{LineKind, Mark};
use tdl_mini_tree::{Kind, MiniKind, Number};

// The kind of a key's texts.
fn kind_of(key: Key) -> Kind
    ensures { result ≡ kind_of key }
{
    match key {
        Key::S => Kind::Sound,
        Key::N | Key::Note => Kind::Note { key },
        Key::Unit | Key::Vowel => Kind::Word { key },
        _ => Kind::Int { key },
    }
}

impl LineTokenReader {
    #[inline(never)]
    pub(super) fn take_keyed<Q: Quoted>(
        &mut self,
        tok: &Tok<Q>,
        key: Key,
    ) -> Result<Option<Stage>, Fault>
        ensures { AgreesAt Q.reads (λ c t. machine.at_key true c t key) self.old tok.now self.new result }
    {
        match *tok {
            Tok::Quoted(quoted) => {
                let setting = Setting::Text(self.text(quoted, kind_of(key))?);
                self.operand(Expr::Control { key, setting })
            }
            Tok::Number(number) if !key.takes_word() || !number.is_whole() => {
                self.check_whole(number)?;
                let setting = Setting::Number(number);
                self.operand(Expr::Control { key, setting })
            }
            Tok::Mark(Mark::OpenRound) if !key.takes_word() => {
                self.open(Hole::Setting { key }, Stage::Setting)
            }
            _ => Ok(None),
        }
    }

    // A fault unless a number that a key is set to is whole.
    fn check_whole(&self, number: Number) -> Result<(), Fault>
        ensures ok { OnOk result (is_whole number ≡ true) }
        ensures err { IfErr result (FailsAt (Mini FloatValue) (here self.now 0) (is_whole number)) }
    {
        self.check(number.is_whole(), LineKind::Mini(MiniKind::FloatValue))
    }

    #[inline(never)]
    pub(super) fn take_setting<Q: Quoted>(&mut self, tok: &Tok<Q>) -> Result<Option<Stage>, Fault>
        ensures { AgreesAt Q.reads (λ c t. machine.at_mark c t (machine.minus_mark c t)) self.old tok.now self.new result }
    {
        match *tok {
            Tok::Mark(Mark::Minus) => Ok(Some(Stage::Negating)),
            _ => Ok(None),
        }
    }

    #[inline(never)]
    pub(super) fn take_negating<Q: Quoted>(&mut self, tok: &Tok<Q>) -> Result<Option<Stage>, Fault>
        ensures { AgreesAt Q.reads (λ c t. machine.at_negating true c t) self.old tok.now self.new result }
    {
        match *tok {
            Tok::Number(number) => {
                self.check_whole(number)?;
                Ok(Some(Stage::Negated(number)))
            }
            _ => Ok(None),
        }
    }

    #[inline(never)]
    pub(super) fn take_negated<Q: Quoted>(
        &mut self,
        tok: &Tok<Q>,
        number: Number,
    ) -> Result<Option<Stage>, Fault>
        ensures { AgreesAt Q.reads (λ c t. machine.at_mark c t (machine.negated_mark c t number)) self.old tok.now self.new result }
    {
        match *tok {
            Tok::Mark(Mark::CloseRound) => self.close_setting(number),
            _ => Ok(None),
        }
    }

    // Closes the bracket with a negative number that a key is set to.
    fn close_setting(&mut self, number: Number) -> Result<Option<Stage>, Fault>
        ensures { AgreesEach (λ c t. machine.closed c.frames c t (setting_hole t number)) self.old self.new result }
    {
        match self.close() {
            Some(Hole::Setting { key }) => {
                let setting = Setting::Negative(number);
                self.operand(Expr::Control { key, setting })
            }
            _ => Ok(None),
        }
    }
}
