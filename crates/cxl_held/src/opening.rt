//! How a session to be kept opens.

ghost use Rattle.std.specs.Prelude.{◌≡◌, ◌≤◌, Some, None, [], ◌∷◌, IfOk, IfErr, OnOk};
ghost use Rattle.cxl_io.specs.Fetch.{AsksFor};
ghost use Rattle.cxl_machine.specs.Machine.{Machine};
ghost use Rattle.cxl_machine.specs.Sound.{Opens};
ghost use Rattle.cxl_model.specs.System.{IsSystem, system_of};
ghost use Rattle.cxl_model.specs.Accepted.{IsAccepted};
ghost use Rattle.cxl_opening.specs.Opening.{endpoints_in, enabling};
ghost use Rattle.cxl_held.specs.Sessions.{IsHeldAt, IsKept, IsOpened, IsRefused, OpensNone};

use crate::held::Held;
use crate::trail_bus::TrailBus;
use cxl_commands::checked;
use cxl_inputs::{OwnedHost, Status, fetch_host, fetch_reset_host, finish};
use cxl_io::{Fetch, Sink};
use cxl_media::SimMedia;
use cxl_model::accepted_or_breach;
use cxl_session::Session;
use cxl_shell::unopened;
use std::alloc::Global;

impl Held {
    /// Opens a session as `run` does, over the host of a table and a topology after reset. Where none opens, the text that
    /// `run` writes is written, and its status is the answer. (This project's rule.) Takes memory.
    pub fn open_from_reset<F: Fetch, K: Sink>(
        alloc: Global,
        cedt: &str,
        topo: &str,
        files: &mut F,
        out: &mut K,
    ) -> Result<Held, Status>
        // It is at the machine that the host of the files opens with, its words are those that let the endpoints decode, and
        // nothing is written.
        ensures opened { IfOk result (IsOpened (F.state files.old).told cedt.now topo.now None) }
        ensures kept { IfOk result IsKept }
        ensures quiet { OnOk result (out.new ≡ out.old) }
        // Each file is asked for once, in the order of their names, and none again.
        ensures asked { OnOk result (AsksFor (F.state files.old) (F.state files.new) (cedt.now ∷ topo.now ∷ [])) }
        // Or none opens, for a cause of which the text is written.
        ensures unopened { IfErr result (λ status. OpensNone cedt.now topo.now None
            (F.state files.old) (F.state files.new) status (K.state out.old) (K.state out.new)) }
        ensures files { (F.state files.old).faults ≤ (F.state files.new).faults }
        ensures sink { (K.state out.old).faults ≤ (K.state out.new).faults }
        ensures told { (F.state files.new).told ≡ (F.state files.old).told }
    {
        match fetch_reset_host(alloc, cedt, topo, files) {
            Ok(host) => open_accepted(alloc, host, out),
            Err(stop) => Err(finish(Err(stop), out)),
        }
    }

    /// Opens a session as `run` does, over the host of a table and a topology with the registers of an image. Where none
    /// opens, the text that `run` writes is written, and its status is the answer. (This project's rule.) Takes memory.
    pub fn open_from_image<F: Fetch, K: Sink>(
        alloc: Global,
        cedt: &str,
        topo: &str,
        image: &str,
        files: &mut F,
        out: &mut K,
    ) -> Result<Held, Status>
        // It is at the machine that the host of the files opens with, its words are those that let the endpoints decode, and
        // nothing is written.
        ensures opened { IfOk result (IsOpened (F.state files.old).told cedt.now topo.now (Some image.now)) }
        ensures kept { IfOk result IsKept }
        ensures quiet { OnOk result (out.new ≡ out.old) }
        // Each file is asked for once, in the order of their names, and none again.
        ensures asked { OnOk result (AsksFor (F.state files.old) (F.state files.new) (cedt.now ∷ topo.now ∷ image.now ∷ [])) }
        // Or none opens, for a cause of which the text is written.
        ensures unopened { IfErr result (λ status. OpensNone cedt.now topo.now (Some image.now)
            (F.state files.old) (F.state files.new) status (K.state out.old) (K.state out.new)) }
        ensures files { (F.state files.old).faults ≤ (F.state files.new).faults }
        ensures sink { (K.state out.old).faults ≤ (K.state out.new).faults }
        ensures told { (F.state files.new).told ≡ (F.state files.old).told }
    {
        match fetch_host(alloc, cedt, topo, image, files) {
            Ok(host) => open_checked(alloc, host, out),
            Err(stop) => Err(finish(Err(stop), out)),
        }
    }
}

/// A session over a host, or what is told of an image with a breach.
fn open_checked<K: Sink>(alloc: Global, host: OwnedHost, out: &mut K) -> Result<Held, Status>
    requires { IsSystem (system_of host.image host.topo host.windows.items) }
    ensures opened { IfOk result (λ held. (m : Machine)
        × Opens (system_of host.image host.topo host.windows.items) host.topo.frames m × IsHeldAt held m
        × (held.regs.trail ≡ enabling (endpoints_in host.topo.nodes))) }
    ensures quiet { OnOk result (out.new ≡ out.old) }
    ensures refused { IfErr result (λ status. IsRefused (system_of host.image host.topo host.windows.items) status
        (K.state out.old) (K.state out.new)) }
    ensures sink { (K.state out.old).faults ≤ (K.state out.new).faults }
{
    match checked(alloc, &host) {
        Ok(_) => open_accepted(alloc, host, out),
        Err(breach) => Err(finish(Err(breach), out)),
    }
}

/// A session over a host whose image is accepted.
fn open_accepted<K: Sink>(alloc: Global, host: OwnedHost, out: &mut K) -> Result<Held, Status>
    requires system { IsSystem (system_of host.image host.topo host.windows.items) }
    requires accepted { IsAccepted (system_of host.image host.topo host.windows.items) }
    ensures opened { IfOk result (λ held. (m : Machine)
        × Opens (system_of host.image host.topo host.windows.items) host.topo.frames m × IsHeldAt held m
        × (held.regs.trail ≡ enabling (endpoints_in host.topo.nodes))) }
    ensures quiet { OnOk result (out.new ≡ out.old) }
    ensures refused { IfErr result (λ status. IsRefused (system_of host.image host.topo host.windows.items) status
        (K.state out.old) (K.state out.new)) }
    ensures sink { (K.state out.old).faults ≤ (K.state out.new).faults }
{
    accepted_or_breach();
    let OwnedHost {
        topo,
        image,
        windows,
    } = host;
    let mut regs = TrailBus::new(alloc);
    let mut media = SimMedia::new(alloc);
    match Session::open(alloc, topo, windows, image, &mut regs, &mut media) {
        Ok(session) => Ok(Held {
            session,
            regs,
            media,
        }),
        Err(fault) => Err(finish(unopened(fault), out)),
    }
}
