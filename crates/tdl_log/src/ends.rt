// How ports ended.
ghost use Rattle.std.specs.Prelude.{◌≡◌, ◌+◌, ◌<◌, ◌≤◌, [], ◌∷◌, ◌++◌, ◌==◌, length};
ghost use Rattle.std.specs.List.{HoldsAt};

use arrayvec::ArrayVec;
use std::marker::Model;

// So many ports may end.
pub(crate) const MOST_ENDS: usize = 8;

/// How the loop over a port ended.
#[derive(Clone, Copy, Debug, Default, PartialEq, Eq)]
pub enum PortEnd {
    /// Its input was read to the end.
    Eof,
    /// The finish was accepted and answered.
    Finish,
    /// A call on one of its devices failed.
    Fault,
    /// Its input went on past the bytes that it may have.
    Spent,
    /// Out of memory for a line of it, or for a reply.
    Memory,
    /// The run ended before its input did.
    #[default]
    Stopped,
}

/// How the port of a number ended.
#[derive(Clone, Copy, Default)]
pub struct Ending {
    pub port: u8,
    pub end: PortEnd,
}

/// How ports ended: at most eight, held without memory.
#[derive(Drop)]
pub struct Ends {
    endings: ArrayVec<Ending, MOST_ENDS>,
}

impl Model for Ends {
    ghost use Rattle.std.specs.Prelude.{List};
    ghost use Rattle.tdl_log.specs.declared.ends.Ending.{Ending as EndingValue};

    ghost Value = { List EndingValue };

    ghost view = { λ ends. ends.endings.items };
}

impl Ends {
    /// No port has ended.
    pub fn new() -> Ends
        ensures { result ≡ [] }
    {
        Ends {
            endings: ArrayVec::new(),
        }
    }

    /// How many ports have ended.
    pub fn len(&self) -> usize
        ensures value { result ≡ length self.now }
        ensures few { length self.now ≤ 8 }
    {
        self.endings.len()
    }

    /// Whether none has.
    pub fn is_empty(&self) -> bool
        ensures { result ≡ (length self.now == 0) }
    {
        self.endings.is_empty()
    }

    /// The number of the port at place `i`, from 0, and how it ended.
    pub fn get(&self, i: usize) -> (u8, PortEnd)
        requires { i < length self.now }
        ensures { HoldsAt (λ ending. result ≡ (ending.port, ending.end)) self.now i }
    {
        let Ending { port, end } = self.endings.as_slice()[i];
        (port, end)
    }

    /// Puts the end of a port behind the others.
    pub fn add(&mut self, port: u8, end: PortEnd)
        requires { length self.old < 8 }
        ensures { self.new ≡ self.old ++ record { port = port; end = end } ∷ [] }
    {
        self.endings.push(Ending { port, end });
    }
}
