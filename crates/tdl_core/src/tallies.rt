ghost use Rattle.std.specs.Prelude.{◌≡◌, ◌+◌, ◌*◌, ◌^◌, ◌<◌, ◌≤◌, true, false, if◌then◌else◌};
ghost use Rattle.tdl_score.specs.History.{max_performed, max_ticks};

// How many swaps and looks a core accepted, how many ticks, how many packets and messages these send, and whether the
// finish was.
#[derive(Clone, Copy)]
pub(crate) struct Tally {
    pub performed: u32,
    pub ticks: u32,
    pub packets: u128,
    pub messages: u128,
    pub finished: bool,
    ghost few: { ticks ≤ max_ticks },
    ghost few_packets: { packets ≤ ticks * 2 ^ 64 },
    ghost few_messages: { messages ≤ (ticks + (if finished then 1 else 0)) * 2 ^ 64 },
}

// Before the first call.
pub(crate) const NOTHING: Tally = Tally {
    performed: 0,
    ticks: 0,
    packets: 0,
    messages: 0,
    finished: false,
};

impl Tally {
    // One swap or look more.
    pub(crate) fn and_performed(self) -> Tally
        requires { self.performed < max_performed }
        ensures performed { result.performed ≡ self.performed + 1 }
        ensures ticks { result.ticks ≡ self.ticks }
        ensures packets { result.packets ≡ self.packets }
        ensures messages { result.messages ≡ self.messages }
        ensures finished { result.finished ≡ self.finished }
    {
        Tally {
            performed: self.performed + 1,
            ticks: self.ticks,
            packets: self.packets,
            messages: self.messages,
            finished: self.finished,
        }
    }

    // One tick more, which sends so many packets and messages.
    pub(crate) fn and_tick(self, packets: usize, messages: usize) -> Tally
        requires { self.ticks < max_ticks }
        ensures performed { result.performed ≡ self.performed }
        ensures ticks { result.ticks ≡ self.ticks + 1 }
        ensures packets { result.packets ≡ self.packets + packets }
        ensures messages { result.messages ≡ self.messages + messages }
        ensures finished { result.finished ≡ self.finished }
    {
        Tally {
            performed: self.performed,
            ticks: self.ticks + 1,
            packets: self.packets + packets as u128,
            messages: self.messages + messages as u128,
            finished: self.finished,
        }
    }

    // The finish, which sends so many messages.
    pub(crate) fn and_finish(self, messages: usize) -> Tally
        requires { self.finished ≡ false }
        ensures performed { result.performed ≡ self.performed }
        ensures ticks { result.ticks ≡ self.ticks }
        ensures packets { result.packets ≡ self.packets }
        ensures messages { result.messages ≡ self.messages + messages }
        ensures finished { result.finished ≡ true }
    {
        Tally {
            performed: self.performed,
            ticks: self.ticks,
            packets: self.packets,
            messages: self.messages + messages as u128,
            finished: true,
        }
    }
}
