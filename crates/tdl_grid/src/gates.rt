ghost use Rattle.std.specs.Prelude.{◌≡◌, ◌<◌, ◌≤◌, ◌^◌, ◌++◌, ◌&&◌, pos, length, take, drop};
ghost use Rattle.std.specs.Int.{int_rem_euclid};
ghost use Rattle.std.specs.List.{filter};
ghost use lib.Signed.{le_z, lt_z};
ghost use Rattle.tdl_grid.specs.Item.{passes_in};

use crate::counts::count_from;
use crate::items::Items;
use tdl_meaning::Window;

impl<'t> Items<'t> {
    /// Keeps of the items from this place on those that the window is meant for, by where their wholes start, in their order.
    pub fn gate(&mut self, from: usize, window: Window, unit: u128)
        requires place { from ≤ length self.old }
        requires positive { 0 < unit }
        requires small { unit ≤ 2 ^ 88 }
        ensures { self.new ≡ take from self.old ++ filter (passes_in unit window.from window.to window.inside) (drop from self.old) }
    {
        let first = count_from(window.from, unit);
        let limit = count_from(window.to, unit);
        let mut kept = from;
        for i in from..self.len() {
            let start = self.get(i).whole.start();
            if is_between(start, first, limit, unit) == window.inside {
                self.swap(kept, i);
                kept += 1;
            }
        }
        self.truncate(kept);
    }
}

// Whether the count is, in its cycle, one from `first` on before `limit`.
fn is_between(count: i128, first: i128, limit: i128, unit: u128) -> bool
    requires positive { 0 < unit }
    requires small { unit ≤ 2 ^ 88 }
    ensures { result ≡ (le_z first (int_rem_euclid count (pos unit)) && lt_z (int_rem_euclid count (pos unit)) limit) }
{
    let place = count.rem_euclid(unit as i128);
    first <= place && place < limit
}
