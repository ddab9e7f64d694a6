ghost use Rattle.std.specs.Prelude.{◌≡◌, ◌≤◌};

use std::marker::Model;

// How many cycles a run has: at most 65,536.
#[derive(Drop)]
pub(crate) struct Length {
    cycles: u32,
}

impl Model for Length {
    ghost use Rattle.std.specs.Prelude.{ℕ, ◌≤◌};

    ghost Value = { ℕ };

    ghost view = { λ l. l.cycles };

    ghost invariant = { λ l. l.cycles ≤ 65536 };
}

impl Length {
    pub(crate) fn of(cycles: u32) -> Length
        requires { cycles ≤ 65536 }
        ensures { result ≡ cycles }
    {
        Length { cycles }
    }

    pub(crate) fn cycles(&self) -> u32
        ensures value { result ≡ self.now }
        ensures few { result ≤ 65536 }
    {
        self.cycles
    }
}
