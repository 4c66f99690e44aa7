//! The calls on a session that is kept.

ghost use Rattle.std.specs.Prelude.{◌≡◌, ◌<◌, ◌≤◌, List, length, IfOk};
ghost use Rattle.cxl_image.specs.File.{IsImageFile};
ghost use Rattle.cxl_machine.specs.Machine.{Machine};
ghost use Rattle.cxl_machine.specs.Scripts.{Asked, Turn};
ghost use Rattle.cxl_shell.specs.Endings.{EndsScript};
ghost use Rattle.cxl_held.specs.Sessions.{IsKept, IsHeldAt, HasAnswered};
ghost use Rattle.cxl_held.specs.Trails.{room};

use crate::held::Held;
use cxl_bus::Sent;
use cxl_enc::Memory;
use cxl_image::write_image;
use cxl_inputs::Status;
use cxl_io::{Sink, Source};
use cxl_machine::live_regions_stay;
use cxl_shell::over_session;
use std::alloc::Global;

impl Held {
    /// Carries out the lines of a script, one line or more, and writes their replies as `run` does. After status 9 it is as
    /// the lines before the one that met want of memory left it. (This project's rule.) Takes memory.
    #[tactic(auto, using(crate::proofs::Keeping::at_emptied, crate::proofs::Keeping::stands_emptied))]
    pub fn act<S: Source, K: Sink>(&mut self, alloc: Global, lines: &mut S, out: &mut K) -> Status
        requires kept { IsKept self.old }
        ensures kept { IsKept self.new }
        // Whatever machine it is at, the lines are answered from there on, by the turns of that machine; and it ends as a script does.
        ensures answered { (m : Machine) → IsHeldAt self.old m → (asked : List Asked) × (turns : List Turn)
            × HasAnswered m asked turns self.old self.new
            × EndsScript m.settled.nodes asked turns (S.state lines.old) (S.state lines.new)
            (K.state out.old) (K.state out.new) result }
        // Where these sent fewer words than there is room for, no call of the registers failed.
        ensures unfailed { length self.new.regs.trail < room → self.new.regs.overruns ≡ 0 }
        ensures source { (S.state lines.old).faults ≤ (S.state lines.new).faults }
        ensures sink { (K.state out.old).faults ≤ (K.state out.new).faults }
    {
        self.regs.empty_trail();
        let status = over_session(
            alloc,
            &mut self.session,
            lines,
            out,
            &mut self.regs,
            &mut self.media,
        );
        let _words = self.regs.trail();
        status
    }

    /// The register words that the last call of `act` sent, in order; before the first such call those that opening it
    /// sent. Takes no memory.
    pub fn words(&self) -> &[Sent]
        ensures { result.now ≡ self.now.regs.trail }
    {
        self.regs.trail()
    }

    /// The file of its register image as it is. Takes memory for it. (This project's rule.)
    #[tactic(auto, using(crate::proofs::Keeping::has_caps, crate::proofs::Keeping::image_is))]
    pub fn image(&self, alloc: Global) -> Result<Vec<u8>, Memory>
        requires kept { IsKept self.now }
        ensures file { IfOk result (λ bytes. IsImageFile bytes.items self.now.session.topo.nodes self.now.session.image) }
        // The image is that of its registers.
        ensures registers { self.now.session.image ≡ self.now.regs.blocks }
    {
        live_regions_stay();
        write_image(alloc, self.session.image())
    }
}
