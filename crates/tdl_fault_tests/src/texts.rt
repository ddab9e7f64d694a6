// Texts of lines.
use std::alloc::{AllocError, Global};

pub(crate) fn words_of(alloc: Global, words: &[&str]) -> Result<Vec<String>, AllocError> {
    let mut all = Vec::new(alloc);
    for word in words {
        all.push(String::from_str(alloc, word)?)?;
    }
    Ok(all)
}

// The first lines of a text, with their line feeds: so many, or all.
pub(crate) fn first_lines(text: &[u8], count: usize) -> &[u8] {
    let mut left = count;
    for i in 0..text.len() {
        if left == 0 {
            return &text[..i];
        }
        if text[i] == b'\n' {
            left -= 1;
        }
    }
    text
}

// How many lines end in a text.
pub(crate) fn lines_in(text: &[u8]) -> usize {
    text.iter().filter(|&&byte| byte == b'\n').count()
}

// Whether a text is of these two pieces.
pub(crate) fn is_made_of(text: &[u8], front: &[u8], rest: &[u8]) -> bool {
    text.strip_prefix(front) == Some(rest)
}
