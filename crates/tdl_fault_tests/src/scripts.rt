// Scripts, and what comes of them where no device fails: worked out by the rules of the notation, of OSC 1.0 and of MIDI 1.0.
use tdl_log::PortEnd;

// A script, what a run of it prints, logs and sends, and how its port ends; and what there is before its first line and
// after each.
pub(crate) struct Script {
    pub(crate) given: &'static str,
    pub(crate) printed: &'static str,
    pub(crate) log: &'static str,
    pub(crate) osc: &'static [&'static [u8]],
    pub(crate) midi: &'static [&'static [u8]],
    pub(crate) end: PortEnd,
    pub(crate) counts: &'static [Counts],
}

// How many entries, packets and messages there are.
#[derive(Clone, Copy)]
pub(crate) struct Counts(pub(crate) u32, pub(crate) usize, pub(crate) usize);

const BD: &[u8] = b"#bundle\0\x83\xaa\x7e\x80\0\0\0\0\0\0\0\x44/dirt/play\0\0,sisisiss\0\0\0\
    cycle\0\0\0\0\0\0\0delta\0\0\0\0\x0d\x90\x38orbit\0\0\0\0\0\0\0s\0\0\0bd\0\0";

const SN: &[u8] =
    b"#bundle\0\x83\xaa\x7e\x80\xe3\x8e\x38\xe3\0\0\0\x44/dirt/play\0\0,sisisiss\0\0\0\
    cycle\0\0\0\0\0\0\0delta\0\0\0\0\x0d\x90\x38orbit\0\0\0\0\0\0\0s\0\0\0sn\0\0";

pub(crate) static SCRIPTS: [Script; 3] = [
    // two equal notes, whose ends come with the finish
    Script {
        given: "p1 d1 $ stack [note \"0\" # s \"midi\", note \"0\" # s \"midi\"]\ntick 1\nfinish\n",
        printed: "at 0 place 0\ntick 1 osc 0 midi 2\nfinish 1 midi 2\nend 1 entries 3 osc 0 midi 4\n",
        log: "tidal-log 1\ncps 9/16\norigin 2208988800\n\
         0 1 0 swap 0 d1 $ stack [note \"0\" # s \"midi\", note \"0\" # s \"midi\"]\n1 0 0 tick 1\n2 0 1 finish\n\
         port 0 finish\nend 3\n",
        osc: &[],
        midi: &[
            b"\x90\x3c\x40",
            b"\x90\x3c\x40",
            b"\x80\x3c\x40",
            b"\x80\x3c\x40",
        ],
        end: PortEnd::Finish,
        counts: &[
            Counts(0, 0, 0),
            Counts(1, 0, 0),
            Counts(2, 0, 2),
            Counts(3, 0, 4),
        ],
    },
    // two performers, on both wires, and a line that is refused
    Script {
        given: "p1 d1 $ s \"bd sn\"\np2 d2 $ note \"0 2\" # s \"midi\"\ntick 1/2\ntick 1/7\np2 look\ntick 1\nfinish\n",
        printed: "at 0 place 0\nat 0 place 1\ntick 1/2 osc 1 midi 1\nrefused OffGrid 5\n\
         desk 1/2 playing 1,2 muted - soloed - place 3\ntick 1 osc 1 midi 2\nfinish 1 midi 1\n\
         end 1 entries 6 osc 2 midi 4\n",
        log: "tidal-log 1\ncps 9/16\norigin 2208988800\n0 1 0 swap 0 d1 $ s \"bd sn\"\n\
         1 2 0 swap 0 d2 $ note \"0 2\" # s \"midi\"\n2 0 0 tick 1/2\n3 2 1/2 look\n4 0 1/2 tick 1\n5 0 1 finish\n\
         port 0 finish\nend 6\n",
        osc: &[BD, SN],
        midi: &[
            b"\x90\x3c\x40",
            b"\x80\x3c\x40",
            b"\x90\x3e\x40",
            b"\x80\x3e\x40",
        ],
        end: PortEnd::Finish,
        counts: &[
            Counts(0, 0, 0),
            Counts(1, 0, 0),
            Counts(2, 0, 0),
            Counts(3, 1, 1),
            Counts(3, 1, 1),
            Counts(4, 1, 1),
            Counts(5, 2, 3),
            Counts(6, 2, 4),
        ],
    },
    // no finish, and the last line has no line feed
    Script {
        given: "p1 d1 $ s \"bd sn\"\np2 -- a comment\ntick 1/2\ntick 1",
        printed: "at 0 place 0\nskip\ntick 1/2 osc 1 midi 0\ntick 1 osc 1 midi 0\nend 1 entries 3 osc 2 midi 0\n",
        log: "tidal-log 1\ncps 9/16\norigin 2208988800\n0 1 0 swap 0 d1 $ s \"bd sn\"\n1 0 0 tick 1/2\n2 0 1/2 tick 1\n\
         port 0 eof\nend 3\n",
        osc: &[BD, SN],
        midi: &[],
        end: PortEnd::Eof,
        counts: &[
            Counts(0, 0, 0),
            Counts(1, 0, 0),
            Counts(1, 0, 0),
            Counts(2, 1, 0),
            Counts(3, 2, 0),
        ],
    },
];
