ghost use Rattle.std.specs.Prelude.{◌≡◌, ◌++◌, IfOk, codes};
ghost use Rattle.std.specs.Fmt.{decimal};
ghost use Rattle.tdl_answer.specs.Refusals.{refusal_line, unread_words, large_words};

use itoa::Buffer;
use std::alloc::Global;
use tdl_control::{NoMemory, Text};
use tdl_script::LineKind;

/// Why a pattern is not played.
#[derive(Clone, Copy, PartialEq, Eq)]
pub enum Refusal {
    /// The pattern is not read, by its first fault, at this offset.
    Unread { kind: LineKind, at: u32 },
    /// The pattern needs more rows or more links than a table has.
    TooLarge { rows: u32, links: u32 },
    /// A cycle of the pattern asks for too much work.
    TooDense { load: u64 },
    /// Times of the pattern are too fine.
    TooFine { grid: u64 },
    /// Times of the pattern are too far from 0.
    TooFar { reach: u64 },
}

impl Refusal {
    /// The line that says so, with its line feed.
    pub fn line(self, alloc: Global) -> Result<Text, NoMemory>
        ensures { IfOk result (λ text. text ≡ refusal_line self) }
    {
        let mut text = Text::new(alloc);
        text.add(b"refused ")?;
        match self {
            Refusal::Unread { kind, at } => add_unread(&mut text, kind, at)?,
            Refusal::TooLarge { rows, links } => add_large(&mut text, rows, links)?,
            Refusal::TooDense { load } => add_number(&mut text, b"TooDense ", load)?,
            Refusal::TooFine { grid } => add_number(&mut text, b"TooFine ", grid)?,
            Refusal::TooFar { reach } => add_number(&mut text, b"TooFar ", reach)?,
        }
        text.add(b"\n")?;
        Ok(text)
    }
}

// Adds words and a number.
fn add_number(text: &mut Text, words: &[u8], number: u64) -> Result<(), NoMemory>
    ensures { IfOk result (λ _. text.new ≡ text.old ++ words.now ++ decimal number) }
{
    text.add(words)?;
    text.add(Buffer::new().format(number).as_bytes())
}

// Adds a kind of fault and its offset.
fn add_unread(text: &mut Text, kind: LineKind, at: u32) -> Result<(), NoMemory>
    ensures { IfOk result (λ _. text.new ≡ text.old ++ unread_words kind at) }
{
    text.add(kind.name())?;
    add_number(text, b" ", u64::from(at))
}

// Adds how many rows and links there would be.
fn add_large(text: &mut Text, rows: u32, links: u32) -> Result<(), NoMemory>
    ensures { IfOk result (λ _. text.new ≡ text.old ++ large_words rows links) }
{
    add_number(text, b"TooLarge ", u64::from(rows))?;
    add_number(text, b" ", u64::from(links))
}
