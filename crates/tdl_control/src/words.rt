ghost use Rattle.std.specs.Prelude.{◌≡◌, ◌≤◌, ◌-◌, ◌↔◌, length, take, drop, replicate, IsTrue, not, ◌==◌};
ghost use Rattle.std.specs.List.{list_all, list_any};
ghost use Rattle.tdl_control.specs.Limits.{max_word};
ghost use Rattle.tdl_control.specs.WordForm.{IsWord, is_word_byte};

use crate::limits::MAX_WORD;

/// A word: 1 to 32 letters, digits and `_`, of which one is no `_`.
#[derive(Clone, Copy, PartialEq, Eq)]
pub struct Word {
    letters: [u8; MAX_WORD],
    len: usize,
    ghost within: { len ≤ length letters },
    ghost padded: { drop len letters ≡ replicate (max_word - len) 0 },
    ghost is_word: { IsWord (take len letters) },
}

impl Word {
    ghost use Rattle.std.specs.Prelude.{IsSome, IfSome};
    ghost use Rattle.tdl_control.specs.Word.{word_bytes};

    /// The word of these bytes; a word of digits alone is a word.
    pub fn of(bytes: &[u8]) -> Option<Word>
        ensures exactly { IsSome result ↔ IsWord bytes.now }
        ensures same_bytes { IfSome result (λ word. word_bytes word ≡ bytes.now) }
    {
        if !is_word(bytes) {
            return None;
        }
        let mut letters = [0; MAX_WORD];
        letters[..bytes.len()].copy_from_slice(bytes);
        Some(Word {
            letters,
            len: bytes.len(),
        })
    }

    /// Words of the same bytes are the same word.
    pub fn same_bytes_law(left: &Word, right: &Word)
        ensures { word_bytes left.now ≡ word_bytes right.now → left.now ≡ right.now }
    {}

    /// The word's bytes, 1 to 32 of them.
    pub fn bytes(&self) -> &[u8]
        ensures bytes { result.now ≡ word_bytes self.now }
        ensures is_word { IsWord (word_bytes self.now) }
    {
        &self.letters[..self.len]
    }
}

fn is_word(bytes: &[u8]) -> bool
    ensures { IsTrue result ↔ IsWord bytes.now }
{
    bytes.len() <= MAX_WORD && is_plain(bytes) && is_named(bytes)
}

fn is_plain(bytes: &[u8]) -> bool
    ensures { result ≡ list_all is_word_byte bytes.now }
{
    bytes.iter().all(|&byte| is_word_byte(byte))
}

fn is_named(bytes: &[u8]) -> bool
    ensures { result ≡ list_any (λ byte. not (byte == 95)) bytes.now }
{
    bytes.iter().any(|&byte| byte != b'_')
}

fn is_word_byte(byte: u8) -> bool
    ensures { result ≡ is_word_byte byte }
{
    byte.is_ascii_alphanumeric() || byte == b'_'
}
