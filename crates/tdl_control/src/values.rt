ghost use Rattle.std.specs.Prelude.{◌≡◌, ◌++◌, OnOk, OnErr};
ghost use Rattle.tdl_control.specs.Text.{AddsPrefix};
ghost use Rattle.tdl_control.specs.Setting.{setting_text};
ghost use Rattle.tdl_control.specs.Value.{setting_of};

use crate::faults::NoMemory;
use crate::texts::Text;
use crate::words::Word;
use itoa::Buffer;

/// The value of a control: a whole number or a word.
#[derive(Clone, Copy, PartialEq, Eq)]
pub enum Value {
    Int(i32),
    Word(Word),
}

impl Value {
    // Adds the decimal or the word; a refusal of memory adds nothing.
    pub(crate) fn print(self, out: &mut Text) -> Result<(), NoMemory>
        ensures ok { OnOk result (out.new ≡ out.old ++ setting_text (setting_of self)) }
        ensures err { OnErr result (out.new ≡ out.old) }
    {
        match self {
            Value::Int(number) => out.add(Buffer::new().format(number).as_bytes()),
            Value::Word(word) => out.add(word.bytes()),
        }
    }
}
