//! What a session asks of a machine.
ghost use Rattle.std.specs.Prelude.{◌≡◌, ℕ, List, IfOk, IfErr};
ghost use Rattle.tdl_session.specs.Passes.{mine_of, Gains};

use std::alloc::Global;
use tdl_turn::Chronicle;

/// A value that is called, and whose history has an entry of each accepted call.
pub trait Machine: Chronicle {
    type Call;

    type Reply;

    type Refusal;

    ghost legal: { Self.Fixed → List Self.Entry → Type 0 };

    // After this history the call of this number adds this entry, and gets this reply.
    ghost adds: { Self.Fixed → List Self.Entry → ℕ → Self.Call → Self.Entry → Self.Reply → Type 0 };

    ghost refuses: { Self.Fixed → List Self.Entry → ℕ → Self.Call → Self.Refusal → Type 0 };

    // What a caller of this number, with these entries of its own, has to keep.
    ghost may: { ℕ → List Self.Entry → Self.Call → Type 0 };

    /// The history of every machine is legal.
    fn legal_law(&self)
        ensures { legal (Self.fixed self.now) (Self.history self.now) };

    /// The call adds one entry, or is refused and changes nothing.
    fn apply(
        &mut self,
        alloc: Global,
        who: u32,
        call: Self::Call,
    ) -> Result<Self::Reply, Self::Refusal>
        requires { may who (mine_of Self.by who (Self.history self.old)) call }
        ensures fixed { Self.fixed self.new ≡ Self.fixed self.old }
        ensures ok { IfOk result (λ r. Gains Self.by (λ h e. adds (Self.fixed self.old) h who call e r) who (Self.history self.old) (Self.history self.new)) }
        ensures err { IfErr result (λ x. (self.new ≡ self.old) × refuses (Self.fixed self.old) (Self.history self.old) who call x) };
}
