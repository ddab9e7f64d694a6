ghost use Rattle.std.specs.Prelude.{◌≡◌, ◌<◌, ◌≤◌, ◌^◌, ◌++◌, length, map, take, drop};
ghost use Rattle.tdl_meaning.specs.Proper.{Each};
ghost use Rattle.tdl_grid.specs.Item.{HasCounts, delayed, finer_item, turned_item};

use crate::items::Items;

impl<'t> Items<'t> {
    /// Moves the items from this place on, in place, so many counts later.
    pub fn delay(&mut self, from: usize, by: i128)
        requires from { from ≤ length self.old }
        requires fits { Each HasCounts (map (delayed by) (drop from self.old)) }
        ensures { self.new ≡ take from self.old ++ map (delayed by) (drop from self.old) }
    {
        for i in from..self.len() {
            let item = self.get(i);
            let whole = item.whole.later(by);
            let part = item.part.later(by);
            self.retime(i, whole, part);
        }
    }

    /// Brings the items from this place on, in place, into a unit so many times as fine.
    pub fn refine(&mut self, from: usize, times: u128)
        requires from { from ≤ length self.old }
        requires positive { 0 < times }
        requires small { times ≤ 2 ^ 88 }
        requires fits { Each HasCounts (map (finer_item times) (drop from self.old)) }
        ensures { self.new ≡ take from self.old ++ map (finer_item times) (drop from self.old) }
    {
        for i in from..self.len() {
            let item = self.get(i);
            let whole = item.whole.finer(times);
            let part = item.part.finer(times);
            self.retime(i, whole, part);
        }
    }

    /// Turns the items from this place on round, in place: each of their counts is taken from this one.
    pub fn turn(&mut self, from: usize, round: i128)
        requires from { from ≤ length self.old }
        requires fits { Each HasCounts (map (turned_item round) (drop from self.old)) }
        ensures { self.new ≡ take from self.old ++ map (turned_item round) (drop from self.old) }
    {
        for i in from..self.len() {
            let item = self.get(i);
            let whole = item.whole.turned(round);
            let part = item.part.turned(round);
            self.retime(i, whole, part);
        }
    }
}
