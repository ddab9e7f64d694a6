// What patterns are prepared to: how large their tables are, and the rows in words.
use crate::prints::print_table;
use std::alloc::Global;
use tdl_compile::Program;
use tdl_control::Text;
use tdl_prepare::prepare_pattern;
use tdl_script::read_pattern;

// A pattern, and how many rows and links its table has.
#[derive(Clone, Copy)]
pub struct Size(pub &'static [u8], pub u32, pub u32);

// A pattern, and the rows of its table in their order: a leaf, `~` for silence, or a node with the numbers of
// the rows that it names. A step of a `timecat` is its weight and its row, and the first row of a `pick` is
// its selector.
#[derive(Clone, Copy)]
pub struct Rows(pub &'static [u8], pub &'static [u8]);

fn program_of(alloc: Global, text: &[u8]) -> Option<Program> {
    let Ok(pattern) = read_pattern(alloc, text) else {
        return None;
    };
    prepare_pattern(alloc, &pattern).ok()
}

// Whether each pattern has its rows and links.
pub fn have_sizes(alloc: Global, sizes: &[Size]) -> bool {
    for Size(text, rows, links) in sizes {
        match &program_of(alloc, text) {
            Some(it) if it.table().rows() == *rows && it.table().links() == *links => {}
            _ => return false,
        }
    }
    true
}

fn printed(alloc: Global, text: &[u8]) -> Option<Text> {
    let program = program_of(alloc, text)?;
    let mut out = Text::new(alloc);
    print_table(program.table(), &mut out).ok()?;
    Some(out)
}

// Whether the table of each pattern has these rows.
pub fn have_rows(alloc: Global, cases: &[Rows]) -> bool {
    for Rows(text, rows) in cases {
        match &printed(alloc, text) {
            Some(out) if out.bytes() == *rows => {}
            _ => return false,
        }
    }
    true
}
