//! Work with the items of two lists, pair by pair and all at once.
ghost use Rattle.std.specs.Prelude.{◌≡◌, ◌<◌, length};
ghost use Rattle.std.specs.Thread.{IsSync};
ghost use Rattle.tdl_session.specs.inside.Beside.{AllMay, EachDid};

use std::sync::Wait;
use std::thread::{Threads, join_mut};

/// Work with a pair of items.
pub(crate) trait PairWork<A, B> {
    ghost may: { Self → A → B → Type 0 };

    // From the first item as it was to what it is then, and so the second.
    ghost did: { Self → A → A → B → B → Type 0 };

    fn act<R: Wait>(&self, rt: &R, first: &mut A, second: &mut B)
        requires { may self.now first.old second.old }
        ensures { did self.now first.old first.new second.old second.new };
}

/// Does the work with each pair of the two slices, each pair on a thread of its own where one can be made.
pub(crate) fn each_beside<R: Threads + Wait + Sync, W: PairWork<A, B> + Sync, A: Send, B: Send>(
    rt: &R,
    work: &W,
    firsts: &mut [A],
    seconds: &mut [B],
)
    requires same { length firsts.old ≡ length seconds.old }
    requires may { AllMay (W.may work.now) firsts.old seconds.old }
    ensures { EachDid (W.did work.now) firsts.old firsts.new seconds.old seconds.new }
{
    if seconds.len() < 2 {
        at_last(rt, work, firsts, seconds);
        return;
    }
    let middle = seconds.len() / 2;
    let (front, back) = firsts.split_at_mut(middle);
    let (near, far) = seconds.split_at_mut(middle);
    join_mut(
        rt,
        &mut ||
            requires { IsSync R.row × IsSync W.row × (length front.now ≡ length near.now) × AllMay (W.may work.now) front.now near.now }
            ensures { EachDid (W.did work.entry.now) front.entry.now front.exit.now near.entry.now near.exit.now }
        { each_beside(rt, work, front, near) },
        &mut ||
            requires { IsSync R.row × IsSync W.row × (length back.now ≡ length far.now) × AllMay (W.may work.now) back.now far.now }
            ensures { EachDid (W.did work.entry.now) back.entry.now back.exit.now far.entry.now far.exit.now }
        { each_beside(rt, work, back, far) },
    );
}

// Where at most one pair is left.
fn at_last<R: Wait, W: PairWork<A, B>, A, B>(rt: &R, work: &W, firsts: &mut [A], seconds: &mut [B])
    requires few { length seconds.old < 2 }
    requires same { length firsts.old ≡ length seconds.old }
    requires may { AllMay (W.may work.now) firsts.old seconds.old }
    ensures { EachDid (W.did work.now) firsts.old firsts.new seconds.old seconds.new }
{
    if let ([first], [second]) = (firsts, seconds) {
        work.act(rt, first, second);
    }
}
