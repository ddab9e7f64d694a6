// A text that is written a page at a time.
ghost use Rattle.std.specs.Prelude.{◌≡◌, [], OnOk, OnErr};
ghost use Rattle.tdl_io.specs.Faults.{HasCause};
ghost use Rattle.tdl_io.specs.Told.{GainedExactly, GainedPrefix};
ghost use Rattle.tdl_log.specs.inside.Pages.{Cut, Written};
ghost use Rattle.tdl_log.specs.inside.Pieces.{one_after_another};

use arrayvec::ArrayVec;
use std::marker::Model;
use tdl_io::{Failed, Sink};

// So many bytes are written at once.
const PAGE: usize = 16_384;

// Bytes that wait to be written.
#[derive(Drop)]
pub(crate) struct Page {
    waiting: ArrayVec<u8, PAGE>,
}

impl Model for Page {
    ghost use Rattle.std.specs.Prelude.{ℕ, List};

    ghost Value = { List ℕ };

    ghost view = { λ page. page.waiting.items };
}

impl Page {
    // Nothing waits.
    pub(crate) fn new() -> Page
        ensures { result ≡ [] }
    {
        Page {
            waiting: ArrayVec::new(),
        }
    }

    // Puts the pieces behind what waits, one after another, up to the first that fails.
    pub(crate) fn put_all<K: Sink>(&mut self, pieces: &[&[u8]], sink: &mut K) -> Result<(), Failed>
        ensures ok { OnOk result (Written (K.held sink.old) (K.held sink.new) self.old self.new (one_after_another pieces.now)) }
        ensures err { OnErr result (Cut (K.held sink.old) (K.held sink.new) self.old (one_after_another pieces.now)) }
        ensures cause { HasCause (K.faults sink.old) (K.faults sink.new) result }
    {
        for piece in pieces {
            self.put(piece, sink)?;
        }
        Ok(())
    }

    // Puts a piece behind what waits. Where the page has no room for it, what waits is written first.
    fn put<K: Sink>(&mut self, piece: &[u8], sink: &mut K) -> Result<(), Failed>
        ensures ok { OnOk result (Written (K.held sink.old) (K.held sink.new) self.old self.new piece.now) }
        ensures err { OnErr result (Cut (K.held sink.old) (K.held sink.new) self.old piece.now) }
        ensures cause { HasCause (K.faults sink.old) (K.faults sink.new) result }
    {
        if self.waiting.try_extend_from_slice(piece).is_ok() {
            return Ok(());
        }
        self.flush(sink)?;
        if self.waiting.try_extend_from_slice(piece).is_ok() {
            return Ok(());
        }
        sink.put(piece)
    }

    // Writes what waits.
    pub(crate) fn flush<K: Sink>(&mut self, sink: &mut K) -> Result<(), Failed>
        ensures empty { OnOk result (self.new ≡ []) }
        ensures ok { OnOk result (GainedExactly (K.held sink.old) (K.held sink.new) self.old) }
        ensures err { OnErr result (GainedPrefix (K.held sink.old) (K.held sink.new) self.old) }
        ensures cause { HasCause (K.faults sink.old) (K.faults sink.new) result }
    {
        sink.put(&self.waiting)?;
        self.waiting.clear();
        Ok(())
    }
}
