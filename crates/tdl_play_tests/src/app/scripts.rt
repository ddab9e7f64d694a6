// Scripts that are played on devices that do not fail.
ghost use Rattle.std.specs.Prelude.{◌≤◌};

use super::{
    AMPLE, Devices, Sent, devices, has_ended, has_messages, has_packets, run_without_ports,
};
use crate::words::words_of;
use std::alloc::Global;
use tdl_app::PortEnd;
use tdl_control::NoMemory;
use tdl_io::MemSource;

// The words of a run and its script; what it prints and logs, how the port ended, and its packets and messages. All are
// those of another program.
struct Script {
    words: &'static [&'static str],
    given: &'static str,
    printed: &'static str,
    log: &'static str,
    end: PortEnd,
    osc: &'static [Sent],
    midi: &'static [&'static [u8]],
}

static SCRIPTS: [Script; 23] = [
    // a jump that waits for its cycle, and an orbit that is set anew before it
    Script {
        words: &["play"],
        given: "tick 1/2\np1 jumpMod 1 8 $ s \"bd\"\np2 d1 $ s \"~ sn\"\ntick 1\ntick 2\ntick 3\ntick 4\ntick 5\ntick 6\n\
         tick 7\ntick 8\ntick 9\nfinish\n",
        printed: "tick 1/2 osc 0 midi 0\nat 8 place 1\nat 1 place 2\ntick 1 osc 0 midi 0\ntick 2 osc 1 midi 0\n\
         tick 3 osc 1 midi 0\ntick 4 osc 1 midi 0\ntick 5 osc 1 midi 0\ntick 6 osc 1 midi 0\ntick 7 osc 1 midi 0\n\
         tick 8 osc 1 midi 0\ntick 9 osc 1 midi 0\nfinish 9 midi 0\nend 9 entries 13 osc 8 midi 0\n",
        log: "tidal-log 1\ncps 9/16\norigin 2208988800\n0 0 0 tick 1/2\n1 1 1/2 swap 8 jumpMod 1 8 $ s \"bd\"\n\
         2 2 1/2 swap 1 d1 $ s \"~ sn\"\n3 0 1/2 tick 1\n4 0 1 tick 2\n5 0 2 tick 3\n6 0 3 tick 4\n7 0 4 tick 5\n\
         8 0 5 tick 6\n9 0 6 tick 7\n10 0 7 tick 8\n11 0 8 tick 9\n12 0 9 finish\nport 0 finish\nend 13\n",
        end: PortEnd::Finish,
        osc: &[
            Sent(0x83aa7e82_aaaaaaaa, 1, 888_888, 0, b"sn"),
            Sent(0x83aa7e84_71c71c71, 2, 888_888, 0, b"sn"),
            Sent(0x83aa7e86_38e38e38, 3, 888_888, 0, b"sn"),
            Sent(0x83aa7e88_00000000, 4, 888_888, 0, b"sn"),
            Sent(0x83aa7e89_c71c71c7, 5, 888_888, 0, b"sn"),
            Sent(0x83aa7e8b_8e38e38e, 6, 888_888, 0, b"sn"),
            Sent(0x83aa7e8d_55555555, 7, 888_888, 0, b"sn"),
            Sent(0x83aa7e8f_1c71c71c, 8, 888_888, 0, b"sn"),
        ],
        midi: &[],
    },
    // of two changes the one that was made later is heard, also where its boundary is earlier
    Script {
        words: &["play"],
        given: "tick 1/2\np1 jumpMod 1 2 $ s \"bd\"\np2  d1 $ s \"~ sn\"  \ntick 1\ntick 2\ntick 3\n",
        printed: "tick 1/2 osc 0 midi 0\nat 2 place 1\nat 1 place 2\ntick 1 osc 0 midi 0\ntick 2 osc 1 midi 0\n\
         tick 3 osc 1 midi 0\nend 3 entries 6 osc 2 midi 0\n",
        log: "tidal-log 1\ncps 9/16\norigin 2208988800\n0 0 0 tick 1/2\n1 1 1/2 swap 2 jumpMod 1 2 $ s \"bd\"\n\
         2 2 1/2 swap 1 d1 $ s \"~ sn\"\n3 0 1/2 tick 1\n4 0 1 tick 2\n5 0 2 tick 3\nport 0 eof\nend 6\n",
        end: PortEnd::Eof,
        osc: &[
            Sent(0x83aa7e82_aaaaaaaa, 1, 888_888, 0, b"sn"),
            Sent(0x83aa7e84_71c71c71, 2, 888_888, 0, b"sn"),
        ],
        midi: &[],
    },
    // a pattern that is set after a cycle
    Script {
        words: &["play"],
        given: "tick 1/2\ntick 1\np1 d1 $ s \"bd\"\ntick 2\n",
        printed: "tick 1/2 osc 0 midi 0\ntick 1 osc 0 midi 0\nat 1 place 2\ntick 2 osc 1 midi 0\n\
         end 2 entries 4 osc 1 midi 0\n",
        log: "tidal-log 1\ncps 9/16\norigin 2208988800\n0 0 0 tick 1/2\n1 0 1/2 tick 1\n2 1 1 swap 1 d1 $ s \"bd\"\n\
         3 0 1 tick 2\nport 0 eof\nend 4\n",
        end: PortEnd::Eof,
        osc: &[Sent(0x83aa7e81_c71c71c7, 1, 1_777_777, 0, b"bd")],
        midi: &[],
    },
    // patterns that wait for the next cycle
    Script {
        words: &["play"],
        given: "p1 d1 $ s \"bd bd\"\ntick 1/4\np1 d1 $ s \"sn sn\"\ntick 3/4\np1 d1 $ s \"cp\"\ntick 1\n\
         p1 d1 $ s \"hh hh\"\ntick 3/2\n",
        printed: "at 0 place 0\ntick 1/4 osc 1 midi 0\nat 1 place 2\ntick 3/4 osc 1 midi 0\nat 1 place 4\n\
         tick 1 osc 0 midi 0\nat 1 place 6\ntick 3/2 osc 1 midi 0\nend 3/2 entries 8 osc 3 midi 0\n",
        log: "tidal-log 1\ncps 9/16\norigin 2208988800\n0 1 0 swap 0 d1 $ s \"bd bd\"\n1 0 0 tick 1/4\n\
         2 1 1/4 swap 1 d1 $ s \"sn sn\"\n3 0 1/4 tick 3/4\n4 1 3/4 swap 1 d1 $ s \"cp\"\n5 0 3/4 tick 1\n\
         6 1 1 swap 1 d1 $ s \"hh hh\"\n7 0 1 tick 3/2\nport 0 eof\nend 8\n",
        end: PortEnd::Eof,
        osc: &[
            Sent(0x83aa7e80_00000000, 0, 888_888, 0, b"bd"),
            Sent(0x83aa7e80_e38e38e3, 0, 888_888, 0, b"bd"),
            Sent(0x83aa7e81_c71c71c7, 1, 888_888, 0, b"hh"),
        ],
        midi: &[],
    },
    // a muted orbit that is soloed
    Script {
        words: &["play"],
        given: "p1 d1 $ s \"bd\"\np2 d2 $ s \"sn\"\np1 mute 2\np1 solo 2\ntick 1\np1 look\n",
        printed: "at 0 place 0\nat 0 place 1\nat 0 place 2\nat 0 place 3\ntick 1 osc 1 midi 0\n\
         desk 1 playing 2 muted 2 soloed 2 place 5\nend 1 entries 6 osc 1 midi 0\n",
        log: "tidal-log 1\ncps 9/16\norigin 2208988800\n0 1 0 swap 0 d1 $ s \"bd\"\n1 2 0 swap 0 d2 $ s \"sn\"\n\
         2 1 0 swap 0 mute 2\n3 1 0 swap 0 solo 2\n4 0 0 tick 1\n5 1 1 look\nport 0 eof\nend 6\n",
        end: PortEnd::Eof,
        osc: &[Sent(0x83aa7e80_00000000, 0, 1_777_777, 1, b"sn")],
        midi: &[],
    },
    // silence for all leaves what is muted and soloed, and comes in on its cycle
    Script {
        words: &["play"],
        given: "p1 d16 $ s \"bd\"\np2 mute 3\np3 solo 16\ntick 1/2\np5 hush\np6 look\ntick 1\np6 look\n",
        printed: "at 0 place 0\nat 0 place 1\nat 0 place 2\ntick 1/2 osc 1 midi 0\nat 1 place 4\n\
         desk 1/2 playing 16 muted 3 soloed 16 place 5\ntick 1 osc 0 midi 0\n\
         desk 1 playing - muted 3 soloed 16 place 7\nend 1 entries 8 osc 1 midi 0\n",
        log: "tidal-log 1\ncps 9/16\norigin 2208988800\n0 1 0 swap 0 d16 $ s \"bd\"\n1 2 0 swap 0 mute 3\n\
         2 3 0 swap 0 solo 16\n3 0 0 tick 1/2\n4 5 1/2 swap 1 hush\n5 6 1/2 look\n6 0 1/2 tick 1\n7 6 1 look\n\
         port 0 eof\nend 8\n",
        end: PortEnd::Eof,
        osc: &[Sent(0x83aa7e80_00000000, 0, 1_777_777, 15, b"bd")],
        midi: &[],
    },
    // what sounds at one time is sent by orbit, and what is there twice is sent twice
    Script {
        words: &["play"],
        given: "p8 d2 $ s \"[bd,bd]\"\np8 d1 $ s \"sn\"\ntick 1\n",
        printed: "at 0 place 0\nat 0 place 1\ntick 1 osc 3 midi 0\nend 1 entries 3 osc 3 midi 0\n",
        log: "tidal-log 1\ncps 9/16\norigin 2208988800\n0 8 0 swap 0 d2 $ s \"[bd,bd]\"\n1 8 0 swap 0 d1 $ s \"sn\"\n\
         2 0 0 tick 1\nport 0 eof\nend 3\n",
        end: PortEnd::Eof,
        osc: &[
            Sent(0x83aa7e80_00000000, 0, 1_777_777, 0, b"sn"),
            Sent(0x83aa7e80_00000000, 0, 1_777_777, 1, b"bd"),
            Sent(0x83aa7e80_00000000, 0, 1_777_777, 1, b"bd"),
        ],
        midi: &[],
    },
    // a cycle of two seconds
    Script {
        words: &["play", "--cps", "1/2"],
        given: "p1 d1 $ s \"bd sn\"\ntick 1\n",
        printed: "at 0 place 0\ntick 1 osc 2 midi 0\nend 1 entries 2 osc 2 midi 0\n",
        log: "tidal-log 1\ncps 1/2\norigin 2208988800\n0 1 0 swap 0 d1 $ s \"bd sn\"\n1 0 0 tick 1\nport 0 eof\nend 2\n",
        end: PortEnd::Eof,
        osc: &[
            Sent(0x83aa7e80_00000000, 0, 1_000_000, 0, b"bd"),
            Sent(0x83aa7e81_00000000, 0, 1_000_000, 0, b"sn"),
        ],
        midi: &[],
    },
    // times that the history refuses
    Script {
        words: &["play"],
        given: "tick 0\ntick 46081/46080\ntick 1048576\ntick 48318382081/46080\ntick 1/2\ntick 1/2\ntick 2\n\
         tick 1048577\ntick 1/7\ntick 3/2\n",
        printed: "refused Backward 0\nrefused TooLong 0\nrefused TooLong 0\nrefused PastLast 0\ntick 1/2 osc 0 midi 0\n\
         refused Backward 1/2\nrefused TooLong 1/2\nrefused PastLast 1/2\nrefused OffGrid 5\ntick 3/2 osc 0 midi 0\n\
         end 3/2 entries 2 osc 0 midi 0\n",
        log: "tidal-log 1\ncps 9/16\norigin 2208988800\n0 0 0 tick 1/2\n1 0 1/2 tick 3/2\nport 0 eof\nend 2\n",
        end: PortEnd::Eof,
        osc: &[],
        midi: &[],
    },
    // a refused tick leaves no entry, and an entry has its text without outer blanks
    Script {
        words: &["play"],
        given: "tick 1/2\ntick 0\np1  unsolo 4 \np2 look\n",
        printed: "tick 1/2 osc 0 midi 0\nrefused Backward 1/2\nat 1 place 1\n\
         desk 1/2 playing - muted - soloed - place 2\nend 1/2 entries 3 osc 0 midi 0\n",
        log: "tidal-log 1\ncps 9/16\norigin 2208988800\n0 0 0 tick 1/2\n1 1 1/2 swap 1 unsolo 4\n2 2 1/2 look\n\
         port 0 eof\nend 3\n",
        end: PortEnd::Eof,
        osc: &[],
        midi: &[],
    },
    // the ends of lines
    Script {
        words: &["play"],
        given: "p1 d1 $ s \"bd\"\r\ntick 1/2\r\r\n\r\n\rtick 1\ntick 1\r",
        printed: "at 0 place 0\nrefused BadFraction 5\nrefused Unexpected 0\nrefused Unexpected 0\ntick 1 osc 1 midi 0\n\
         end 1 entries 2 osc 1 midi 0\n",
        log: "tidal-log 1\ncps 9/16\norigin 2208988800\n0 1 0 swap 0 d1 $ s \"bd\"\n1 0 0 tick 1\nport 0 eof\nend 2\n",
        end: PortEnd::Eof,
        osc: &[Sent(0x83aa7e80_00000000, 0, 1_777_777, 0, b"bd")],
        midi: &[],
    },
    // the blanks round what a performer says
    Script {
        words: &["play"],
        given: "p8 look  \np1  d2 silence \n",
        printed: "desk 0 playing - muted - soloed - place 0\nat 0 place 1\nend 0 entries 2 osc 0 midi 0\n",
        log: "tidal-log 1\ncps 9/16\norigin 2208988800\n0 8 0 look\n1 1 0 swap 0 d2 silence\nport 0 eof\nend 2\n",
        end: PortEnd::Eof,
        osc: &[],
        midi: &[],
    },
    // one note ends where the next begins, and the finish ends that one
    Script {
        words: &["play"],
        given: "p1 d1 $ note \"0 2\" # s \"midi\"\ntick 1/2\ntick 1\nfinish\n",
        printed: "at 0 place 0\ntick 1/2 osc 0 midi 1\ntick 1 osc 0 midi 2\nfinish 1 midi 1\n\
         end 1 entries 4 osc 0 midi 4\n",
        log: "tidal-log 1\ncps 9/16\norigin 2208988800\n0 1 0 swap 0 d1 $ note \"0 2\" # s \"midi\"\n1 0 0 tick 1/2\n\
         2 0 1/2 tick 1\n3 0 1 finish\nport 0 finish\nend 4\n",
        end: PortEnd::Finish,
        osc: &[],
        midi: &[
            b"\x90\x3c\x40",
            b"\x80\x3c\x40",
            b"\x90\x3e\x40",
            b"\x80\x3e\x40",
        ],
    },
    // a chord that sounds on after its orbit is silent; what follows the finish is not looked at
    Script {
        words: &["play"],
        given: "p1 d1 $ stack [note \"0 4 7\" # s \"midi\" # midichan \"3\", s \"bd\"]\ntick 1/2\np1 d1 silence\n\
         tick 3/2\nfinish\ntick 2\nfoo\n",
        printed: "at 0 place 0\ntick 1/2 osc 1 midi 3\nat 1 place 2\ntick 3/2 osc 0 midi 3\nfinish 3/2 midi 0\n\
         end 3/2 entries 5 osc 1 midi 6\n",
        log: "tidal-log 1\ncps 9/16\norigin 2208988800\n\
         0 1 0 swap 0 d1 $ stack [note \"0 4 7\" # s \"midi\" # midichan \"3\", s \"bd\"]\n1 0 0 tick 1/2\n\
         2 1 1/2 swap 1 d1 silence\n3 0 1/2 tick 3/2\n4 0 3/2 finish\nport 0 finish\nend 5\n",
        end: PortEnd::Finish,
        osc: &[Sent(0x83aa7e80_00000000, 0, 1_777_777, 0, b"bd")],
        midi: &[
            b"\x93\x3c\x40",
            b"\x83\x3c\x40",
            b"\x93\x40\x40",
            b"\x83\x40\x40",
            b"\x93\x43\x40",
            b"\x83\x43\x40",
        ],
    },
    // ticks cut the time where they will; neither rests nor MIDI notes go to OSC
    Script {
        words: &["play"],
        given: "p1 d1 $ s \"bd midi sn\"\ntick 30721/46080\ntick 1\ntick 5/3\ntick 2\n",
        printed: "at 0 place 0\ntick 30721/46080 osc 2 midi 2\ntick 1 osc 0 midi 0\ntick 5/3 osc 1 midi 1\n\
         tick 2 osc 1 midi 1\nend 2 entries 5 osc 4 midi 4\n",
        log: "tidal-log 1\ncps 9/16\norigin 2208988800\n0 1 0 swap 0 d1 $ s \"bd midi sn\"\n1 0 0 tick 30721/46080\n\
         2 0 30721/46080 tick 1\n3 0 1 tick 5/3\n4 0 5/3 tick 2\nport 0 eof\nend 5\n",
        end: PortEnd::Eof,
        osc: &[
            Sent(0x83aa7e80_00000000, 0, 592_592, 0, b"bd"),
            Sent(0x83aa7e81_2f684bda, 0, 592_592, 0, b"sn"),
            Sent(0x83aa7e81_c71c71c7, 1, 592_592, 0, b"bd"),
            Sent(0x83aa7e82_f684bda1, 1, 592_592, 0, b"sn"),
        ],
        midi: &[
            b"\x90\x3c\x40",
            b"\x80\x3c\x40",
            b"\x90\x3c\x40",
            b"\x80\x3c\x40",
        ],
    },
    // a note of three cycles, and a finish without its line feed
    Script {
        words: &["play"],
        given: "p1 d1 $ slow 3 $ note \"0\" # s \"midi\" # velocity \"100\"\ntick 1\np1 hush\ntick 2\nfinish",
        printed: "at 0 place 0\ntick 1 osc 0 midi 1\nat 1 place 2\ntick 2 osc 0 midi 0\nfinish 2 midi 1\n\
         end 2 entries 5 osc 0 midi 2\n",
        log: "tidal-log 1\ncps 9/16\norigin 2208988800\n\
         0 1 0 swap 0 d1 $ slow 3 $ note \"0\" # s \"midi\" # velocity \"100\"\n1 0 0 tick 1\n2 1 1 swap 1 hush\n\
         3 0 1 tick 2\n4 0 2 finish\nport 0 finish\nend 5\n",
        end: PortEnd::Finish,
        osc: &[],
        midi: &[b"\x90\x3c\x64", b"\x80\x3c\x40"],
    },
    // the finish ends a note of three cycles
    Script {
        words: &["play"],
        given: "p1 d1 $ slow 3 $ note \"0\" # s \"midi\"\ntick 1\nfinish\n",
        printed: "at 0 place 0\ntick 1 osc 0 midi 1\nfinish 1 midi 1\nend 1 entries 3 osc 0 midi 2\n",
        log: "tidal-log 1\ncps 9/16\norigin 2208988800\n0 1 0 swap 0 d1 $ slow 3 $ note \"0\" # s \"midi\"\n\
         1 0 0 tick 1\n2 0 1 finish\nport 0 finish\nend 3\n",
        end: PortEnd::Finish,
        osc: &[],
        midi: &[b"\x90\x3c\x40", b"\x80\x3c\x40"],
    },
    // the same note twice
    Script {
        words: &["play"],
        given: "p1 d1 $ stack [note \"0\" # s \"midi\", note \"0\" # s \"midi\"]\ntick 1\nfinish\n",
        printed: "at 0 place 0\ntick 1 osc 0 midi 2\nfinish 1 midi 2\nend 1 entries 3 osc 0 midi 4\n",
        log: "tidal-log 1\ncps 9/16\norigin 2208988800\n\
         0 1 0 swap 0 d1 $ stack [note \"0\" # s \"midi\", note \"0\" # s \"midi\"]\n1 0 0 tick 1\n2 0 1 finish\n\
         port 0 finish\nend 3\n",
        end: PortEnd::Finish,
        osc: &[],
        midi: &[
            b"\x90\x3c\x40",
            b"\x90\x3c\x40",
            b"\x80\x3c\x40",
            b"\x80\x3c\x40",
        ],
    },
    // keys and velocities out of range; without a finish notes sound on
    Script {
        words: &["play"],
        given: "p1 d1 $ stack [note \"68\" # s \"midi\", note \"67\" # s \"midi\",\
         note \"0\" # s \"midi\" # velocity \"0\", n \"-60\" # s \"midi\"]\ntick 1\n",
        printed: "at 0 place 0\ntick 1 osc 0 midi 2\nend 1 entries 2 osc 0 midi 2\n",
        log: "tidal-log 1\ncps 9/16\norigin 2208988800\n\
         0 1 0 swap 0 d1 $ stack [note \"68\" # s \"midi\", note \"67\" # s \"midi\",\
         note \"0\" # s \"midi\" # velocity \"0\", n \"-60\" # s \"midi\"]\n1 0 0 tick 1\nport 0 eof\nend 2\n",
        end: PortEnd::Eof,
        osc: &[],
        midi: &[b"\x90\x7f\x40", b"\x90\x00\x40"],
    },
    // nothing was played
    Script {
        words: &["play"],
        given: "finish\n",
        printed: "finish 0 midi 0\nend 0 entries 1 osc 0 midi 0\n",
        log: "tidal-log 1\ncps 9/16\norigin 2208988800\n0 0 0 finish\nport 0 finish\nend 1\n",
        end: PortEnd::Finish,
        osc: &[],
        midi: &[],
    },
    // the finish is its word alone
    Script {
        words: &["play"],
        given: "finish \nfinish\r\n",
        printed: "refused Unexpected 0\nfinish 0 midi 0\nend 0 entries 1 osc 0 midi 0\n",
        log: "tidal-log 1\ncps 9/16\norigin 2208988800\n0 0 0 finish\nport 0 finish\nend 1\n",
        end: PortEnd::Finish,
        osc: &[],
        midi: &[],
    },
    // drills, whose script is made of two numbers
    Script {
        words: &["drill", "1", "4"],
        given: "",
        printed: "end 73/960 entries 5 osc 0 midi 0\n",
        log: "tidal-log 1\ncps 9/16\norigin 2208988800\n0 3 0 swap 0 unsolo 1\n1 3 0 swap 0 unsolo 1\n\
         2 3 0 swap 0 solo 1\n3 0 0 tick 73/960\n4 0 73/960 finish\nport 0 finish\nend 5\n",
        end: PortEnd::Finish,
        osc: &[],
        midi: &[],
    },
    Script {
        words: &["drill", "1", "6"],
        given: "",
        printed: "end 73/960 entries 7 osc 0 midi 0\n",
        log: "tidal-log 1\ncps 9/16\norigin 2208988800\n0 3 0 swap 0 unsolo 1\n1 3 0 swap 0 unsolo 1\n\
         2 3 0 swap 0 solo 1\n3 0 0 tick 73/960\n4 1 73/960 swap 1 d1 $ s \"bd*3 sn\"\n\
         5 2 73/960 swap 6 jumpMod 2 6 $ note \"0 9\" # s \"midi\"\n6 0 73/960 finish\nport 0 finish\nend 7\n",
        end: PortEnd::Finish,
        osc: &[],
        midi: &[],
    },
];

// Whether a script is played as it is to be on these devices, whose input has it.
fn is_played(alloc: Global, script: &Script, devices: &mut Devices) -> bool {
    let Ok(words) = words_of(alloc, script.words) else {
        return false;
    };
    let Some(outcome) = run_without_ports(alloc, &words, devices) else {
        return false;
    };
    outcome.status == 0
        && has_ended(&outcome, script.end)
        && devices.out.bytes.as_slice() == script.printed.as_bytes()
        && devices.log.bytes.as_slice() == script.log.as_bytes()
        && has_packets(&devices.osc, script.osc.len(), script.osc)
        && has_messages(&devices.midi, script.midi.len(), script.midi)
}

fn plays(alloc: Global, script: &Script) -> bool {
    match devices(alloc, script.given.as_bytes(), AMPLE) {
        Ok(mut devices) => is_played(alloc, script, &mut devices),
        Err(_) => false,
    }
}

#[test]
fn plays_scripts(rt: HostRuntime) {
    for script in &SCRIPTS {
        assert!(rt; plays(rt.alloc(), script), "{}", script.given);
    }
}

// Devices whose input gives the script so many bytes at a time.
fn devices_in_pieces(alloc: Global, script: &[u8], most: u32) -> Result<Devices, NoMemory>
    requires { 1 ≤ most }
{
    let mut devices = devices(alloc, b"", AMPLE)?;
    devices.input = MemSource::pieces(alloc, script, most, &[])?;
    Ok(devices)
}

fn plays_in_pieces(alloc: Global, script: &Script) -> bool {
    for most in 1..8 {
        let Ok(mut devices) = devices_in_pieces(alloc, script.given.as_bytes(), most) else {
            return false;
        };
        if !is_played(alloc, script, &mut devices) {
            return false;
        }
    }
    true
}

#[test]
fn plays_scripts_that_come_in_pieces(rt: HostRuntime) {
    for script in &SCRIPTS {
        assert!(rt; plays_in_pieces(rt.alloc(), script), "{}", script.given);
    }
}
