ghost use Rattle.std.specs.Prelude.{◌≡◌, OnOk, find, nat_le};
ghost use Rattle.sc_core.specs.Bodies.{cued};
ghost use Rattle.sc_core.specs.HostStates.{CanInstall, CanMake};
ghost use Rattle.sc_core.specs.Installing.{installed};
ghost use Rattle.sc_machine.specs.Hosts.{empty_host};

use crate::body::Body;
use crate::prepared::Prepared;
use sc_base::NoMemory;
use sc_law::Engine;
use std::alloc::Global;
use std::marker::Model;

/// The host: its charts with their plans, its sessions and its pending sends, which contracts see as the host machine.
/// A change costs what it changes, whatever the host holds beside.
#[derive(Drop)]
pub struct HostState<E: Engine> {
    pub(crate) body: Body<E::Plan>,
    pub(crate) alloc: Global,
}

impl<E: Engine> Model for HostState<E> {
    ghost use Rattle.sc_core.specs.HostStates.{HostOf};
    ghost use Rattle.sc_core.specs.Holding.{IsHeld, host_of};
    ghost use Rattle.sc_types.specs.contracts.host.HostImage as host_type;
    ghost use Rattle.std.specs.Coded.{codes};

    ghost Value = { HostOf };

    ghost coded = { Prim.hlevel (codes, host_type.the_row.coded) };

    ghost view = { λ h. host_of h.body };

    ghost invariant = { λ h. IsHeld E.chart_of h.body };
}

impl<E: Engine> HostState<E> {
    /// Before the first command.
    pub fn new(alloc: Global) -> HostState<E>
        ensures { result.image ≡ empty_host }
    {
        HostState {
            body: Body::new(alloc),
            alloc,
        }
    }

    /// The clock, in milliseconds.
    pub fn clock(&self) -> u64
        ensures { result ≡ self.now.image.clock }
    {
        self.body.clock
    }

    /// The first place, from one on, of a session that has a cue. Places are counted from 0 in the order of start.
    pub fn ready(&self, from: usize) -> Option<usize>
        ensures { result ≡ find (λ place. nat_le from place) (cued 0 self.now.image.sessions) }
    {
        self.body.ready(from)
    }

    /// Makes the changes that were prepared, without memory. They are taken out of what was prepared, and the answer
    /// stays there.
    pub fn install(&mut self, prepared: &mut Prepared<E::Plan>)
        requires can { CanInstall E.chart_of self.old prepared.old.changes }
        ensures image { self.new.image ≡ installed prepared.old.changes self.old.image }
        ensures reply { prepared.new.reply ≡ prepared.old.reply }
        ensures logs { prepared.new.logs ≡ prepared.old.logs }
        ensures sent { prepared.new.sent ≡ prepared.old.sent }
    {
        self.body.install(&mut prepared.changes);
    }

    /// Makes the room that prepared changes need. Out of memory, the host machine is as before.
    #[inline(always)]
    pub(crate) fn make_room(&mut self, prepared: &Prepared<E::Plan>) -> Result<(), NoMemory>
        requires can { CanMake E.chart_of self.old.image prepared.now.changes }
        ensures image { self.new.image ≡ self.old.image }
        ensures can { OnOk result (CanInstall E.chart_of self.new prepared.now.changes) }
    {
        self.body.make_room(&prepared.changes)?;
        Ok(())
    }
}
