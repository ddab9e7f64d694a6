// Performers' lines, as the texts of histories.
ghost use Rattle.tdl_core.specs.Said.{Says};

use tdl_line_changes::texts_read_as_one_swap;
use tdl_score::Reader;

/// The texts of histories are performers' lines without outer blanks.
pub struct Lines;

impl Reader for Lines {
    ghost reads = { Says };

    fn reading_law() {
        texts_read_as_one_swap();
    }
}
