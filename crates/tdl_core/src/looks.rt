// What a look says of a desk.
ghost use Rattle.std.specs.Prelude.{◌≡◌, ◌≤◌, ◌+◌, ◌++◌, List, IfOk, filter, true, false};
ghost use Rattle.std.specs.Fmt.{decimal};
ghost use Rattle.std.specs.List.{list_any};
ghost use Rattle.arrayvec.specs.ArrayVec.{array_vec_len};
ghost use Rattle.tdl_fraction.specs.Units.{last_units};
ghost use Rattle.tdl_compile.specs.Compiled.{Compiled};
ghost use Rattle.tdl_desk.specs.declared.changes.Dated.{Dated};
ghost use Rattle.tdl_desk.specs.Desk.{IsOrbit, desk as desk_of, orbits};
ghost use Rattle.tdl_desk.specs.Kept.{StandsFor};
ghost use Rattle.tdl_core.specs.Looks.{after_comma, listed, look_text};
ghost use Rattle.tdl_core.specs.inside.Orbits.{is_shown};

use crate::pieces::{push, put};
use arrayvec::ArrayVec;
use itoa::Buffer;
use std::alloc::Global;
use tdl_compile::Program;
use tdl_control::{MAX_ORBIT, NoMemory, Text};
use tdl_desk::Desk;
use tdl_fraction::print_units;

// As many bytes as a look's text may have: three lists of at most 49, 41 for a time, 40 for a place, and 36 round them.
const LOOK: usize = 264;

type LookText = ArrayVec<u8, LOOK>;

// Which orbits a list shows: those that are heard and have a pattern, or that are muted, or soloed.
#[derive(Clone, Copy, PartialEq, Eq)]
enum Shown {
    Playing,
    Muted,
    Soloed,
}

// What a look at place `place` says of a cycle. The frontier is in tick units.
pub(crate) fn look_text(
    alloc: Global,
    desk: &Desk<Program>,
    cycle: u32,
    frontier: u64,
    place: u32,
) -> Result<Text, NoMemory>
    requires settled { desk.now.settled ≤ cycle }
    requires to_last { frontier ≤ last_units }
    ensures { (kept : List (Dated Compiled)) → StandsFor desk.now kept
        → IfOk result (λ text. text ≡ look_text (desk_of kept cycle) frontier place) }
{
    let any_soloed = desk.any_soloed(cycle);
    let mut line: LookText = ArrayVec::new();
    put(&mut line, b"desk ");
    put(&mut line, print_units(frontier).bytes());
    put(&mut line, b" playing ");
    put_orbits(desk, cycle, any_soloed, Shown::Playing, &mut line);
    put(&mut line, b" muted ");
    put_orbits(desk, cycle, any_soloed, Shown::Muted, &mut line);
    put(&mut line, b" soloed ");
    put_orbits(desk, cycle, any_soloed, Shown::Soloed, &mut line);
    put(&mut line, b" place ");
    put(&mut line, Buffer::new().format(place).as_bytes());
    let mut text = Text::new(alloc);
    text.add(&line)?;
    Ok(text)
}

// Puts the orbits that a list shows, with commas between them, or `-` where there is none. Whether any orbit is soloed
// is asked once, before.
fn put_orbits(desk: &Desk<Program>, cycle: u32, any_soloed: bool, shown: Shown, text: &mut LookText)
    requires settled { desk.now.settled ≤ cycle }
    requires room { array_vec_len text.old + 49 ≤ 264 }
    ensures text { (kept : List (Dated Compiled)) → StandsFor desk.now kept → any_soloed ≡ list_any (desk_of kept cycle).soloed orbits
        → text.new.items ≡ text.old.items ++ listed (filter (is_shown shown (desk_of kept cycle)) orbits) }
    ensures count { array_vec_len text.new ≤ array_vec_len text.old + 49 }
{
    let mut is_first = true;
    for orbit in 1..=MAX_ORBIT {
        if is_shown(desk, cycle, any_soloed, shown, orbit) {
            put_orbit(orbit, is_first, text);
            is_first = false;
        }
    }
    if is_first {
        push(text, b'-');
    }
}

// Puts an orbit, after a comma unless it is the first.
fn put_orbit(orbit: u8, is_first: bool, text: &mut LookText)
    requires orbit { IsOrbit orbit }
    requires room { array_vec_len text.old + 3 ≤ 264 }
    ensures first { is_first ≡ true → text.new.items ≡ text.old.items ++ decimal orbit }
    ensures other { is_first ≡ false → text.new.items ≡ text.old.items ++ after_comma orbit }
    ensures count { array_vec_len text.new ≤ array_vec_len text.old + 3 }
{
    if !is_first {
        push(text, b',');
    }
    put_number(orbit, text);
}

// Puts the number of an orbit, which has one digit or two.
#[tactic(auto, using(crate::proofs::OrbitLists::one_digit, crate::proofs::OrbitLists::two_digits))]
fn put_number(orbit: u8, text: &mut LookText)
    requires orbit { IsOrbit orbit }
    requires room { array_vec_len text.old + 2 ≤ 264 }
    ensures items { text.new.items ≡ text.old.items ++ decimal orbit }
    ensures count { array_vec_len text.new ≤ array_vec_len text.old + 2 }
{
    if orbit < 10 {
        push(text, b'0' + orbit);
        return;
    }
    push(text, b'1');
    push(text, b'0' + (orbit - 10));
}

// Whether a list shows an orbit, where it is known whether any is soloed.
fn is_shown(desk: &Desk<Program>, cycle: u32, any_soloed: bool, shown: Shown, orbit: u8) -> bool
    requires settled { desk.now.settled ≤ cycle }
    requires orbit { IsOrbit orbit }
    ensures { (kept : List (Dated Compiled)) → StandsFor desk.now kept → any_soloed ≡ list_any (desk_of kept cycle).soloed orbits
        → result ≡ is_shown shown (desk_of kept cycle) orbit }
{
    match shown {
        Shown::Playing => {
            desk.audible_among(cycle, orbit, any_soloed) && desk.pattern(cycle, orbit).is_some()
        }
        Shown::Muted => desk.muted(cycle, orbit),
        Shown::Soloed => desk.soloed(cycle, orbit),
    }
}
