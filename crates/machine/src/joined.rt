ghost use Rattle.std.specs.Prelude.{◌≡◌, ◌-◌};
ghost use Rattle.machine.specs.Machines.{keys};
ghost use Rattle.machine.specs.Means.{AlwaysUnbroken};
ghost use Rattle.machine.specs.Rules.{Rules};

use crate::machine::Machine;

// A machine whose blocks meet: consecutive cells share a face.
pub trait JoinedMachine: Machine {
    // How many moves lead from the first cell to the last. At every order, and from every state, each leads to a cell that shares a face.
    fn moves(&self) -> u64
        ensures count { result ≡ keys (Self.Machine.model self.now) (Self.Machine.depth self.now) - 1 }
        ensures joined { AlwaysUnbroken (Self.Machine.model self.now) }
    {
        self.grid().size() - 1
    }

    ghost rules: { (x : Self) → Rules (Self.Machine.model x) };
}
