use tdl_compile::Program;
use tdl_control::Text;
use tdl_desk::Change;

/// What is asked of a core.
#[derive(Drop)]
pub enum Call {
    /// Changes what is played, from the next multiple of `every` cycles on. The text is that of the
    /// performer's line, without outer blanks.
    Swap {
        text: Text,
        every: u32,
        change: Change<Program>,
    },
    /// Asks what is played in the cycle of the frontier.
    Look,
    /// Plays up to a time in tick units, of which a cycle has 46,080.
    Tick {
        to: u64,
    },
    /// Ends all notes that sound. It is never refused, and takes no memory.
    Finish,
}
