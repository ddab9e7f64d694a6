ghost use Rattle.std.specs.Prelude.{◌≡◌, ◌≤◌, ◌<◌, ◌+◌, [], ◌∷◌, ◌++◌, length, option_to_list, IsOk, OnErr, OnOk};
ghost use Rattle.std.specs.List.{HoldsAt};
ghost use Rattle.std.specs.Borrow.{sem};

use std::alloc::Global;
use std::marker::Model;
use tdl_control::NoMemory;
use tdl_perform::Port;

/// The performers' ports, in the order of their numbers, and room for more.
#[derive(Drop)]
pub struct Ports<S, K> {
    ports: Vec<Port<S, K>>,
}

impl<S, K> Model for Ports<S, K> {
    ghost use Rattle.std.specs.Prelude.{◌-◌};
    ghost use Rattle.std.specs.Vec.{vec_capacity, vec_len};
    ghost use Rattle.tdl_perform.specs.declared.ports.Port.{Port as PortValue};
    ghost use Rattle.tdl_serve.specs.Places.{Places};

    ghost Value = { Places (PortValue S K) };

    ghost view = { λ p. record { items = p.ports.items; spare = vec_capacity p.ports - vec_len p.ports } };
}

impl<S: Drop, K: Drop> Ports<S, K> {
    /// No ports. What the list grows by comes from the allocator.
    pub fn new(alloc: Global) -> Ports<S, K>
        ensures { result.items ≡ [] }
    {
        Ports {
            ports: Vec::new(alloc),
        }
    }

    /// Puts the port at the end. It takes no memory where there is room. `NoMemory` leaves the list as it was, and the
    /// port is lost.
    pub fn push(&mut self, port: Port<S, K>) -> Result<(), NoMemory>
        ensures ok { OnOk result (self.new.items ≡ self.old.items ++ port ∷ []) }
        ensures err { OnErr result (self.new ≡ self.old) }
        ensures room { 1 ≤ self.old.spare → IsOk result }
        ensures spare { 1 ≤ self.old.spare → self.new.spare + 1 ≡ self.old.spare }
    {
        if self.ports.len() == self.ports.capacity() {
            self.ports.reserve(1)?;
        }
        self.ports.push_reserved(port);
        Ok(())
    }

    /// Takes the last port out, if there is one. It takes no memory.
    pub fn pop(&mut self) -> Option<Port<S, K>>
        ensures items { self.old.items ≡ self.new.items ++ option_to_list result }
        ensures spare { self.new.spare ≡ self.old.spare + length (option_to_list result) }
    {
        self.ports.pop()
    }

    /// Makes room for `n` ports more. Memory runs out only where there was less.
    pub fn reserve(&mut self, n: usize) -> Result<(), NoMemory>
        ensures ok { OnOk result (n ≤ self.new.spare) }
        ensures items { self.new.items ≡ self.old.items }
        ensures spare { self.old.spare ≤ self.new.spare }
        ensures err { OnErr result (self.new ≡ self.old) }
        ensures missing { OnErr result (self.old.spare < n) }
    {
        self.ports.reserve(n)?;
        Ok(())
    }
}

impl<S, K> Ports<S, K> {
    ghost use Rattle.tdl_serve.specs.LentPorts.{lends_places};

    /// How many ports there are.
    pub fn len(&self) -> usize
        ensures { result ≡ length self.now.items }
    {
        self.ports.len()
    }

    /// The port at this index, counted from 0.
    pub fn get(&self, index: usize) -> &Port<S, K>
        requires { index < length self.now.items }
        ensures { HoldsAt (λ port. result.now ≡ port) self.now.items index }
    {
        &self.ports[index]
    }

    /// The ports, for writing. There stay as many.
    pub fn as_mut_slice(&mut self) -> &mut [Port<S, K>]
        ensures* writes_back { sem 𝓛 (lends_places S.row K.row self.entry result) }
        ensures value { result.now ≡ self.old.items }
    {
        self.ports.as_mut_slice()
    }
}
