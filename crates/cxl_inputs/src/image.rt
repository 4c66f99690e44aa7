//! The file of an image: its reading over a topology, or the text of its first fault.

ghost use Rattle.std.specs.Prelude.{◌≡◌, ◌≢◌, ◌≤◌, ⊤, [], ◌∷◌, IfOk, IfErr, OnOk};
ghost use Rattle.cxl_image.specs.Images.{HasCapsOf};
ghost use Rattle.cxl_image.specs.declared.fault.ImageFault.{ImageFault};
ghost use Rattle.cxl_io.specs.Fetch.{AsksFor};
ghost use Rattle.cxl_inputs.specs.File.{HasNotFailed, RunsOutBehind};
ghost use Rattle.cxl_inputs.specs.Image.{IsImageOf, HasNoImage, bad_image, image_fault_word, image_fault_number, IsImageReading};
ghost use Rattle.cxl_inputs.specs.Given.{HoldNoImage};
ghost use Rattle.cxl_inputs.specs.Stop.{IsStop};

use crate::faults::fault_line;
use crate::file::{fetch_file, within_limit};
use crate::outcome::Outcome;
use crate::status::Status;
use crate::stop::Stop;
use cxl_image::{Image, ImageFault, read_image};
use cxl_io::{Fetch, Memory};
use cxl_topo::Topo;
use std::alloc::Global;

/// The image over a topology of a command's file. It stops where there is none.
pub(crate) fn fetch_image<F: Fetch>(
    alloc: Global,
    file: &str,
    topo: &Topo,
    files: &mut F,
) -> Result<Image, Stop>
    ensures image { IfOk result (IsImageOf ((F.state files.old).told file.now) topo.now.nodes) }
    ensures caps { IfOk result (λ image. HasCapsOf image topo.now.nodes) }
    ensures asked { OnOk result (AsksFor (F.state files.old) (F.state files.new) (file.now ∷ [])) }
    ensures unfailed { OnOk result (HasNotFailed (F.state files.old) (F.state files.new)) }
    ensures stops { IfErr result (IsStop (HasNoImage [] file.now topo.now.nodes (F.state files.old) (F.state files.new))
        (RunsOutBehind (file.now ∷ []) (F.state files.old) (F.state files.new))) }
    ensures counts { (F.state files.old).faults ≤ (F.state files.new).faults }
    ensures stays { (F.state files.new).told ≡ (F.state files.old).told }
{
    let bytes = fetch_file(alloc, file, files)?;
    match read_image(alloc, bytes.as_slice(), topo) {
        Ok(image) => Ok(image),
        Err(fault) => Err(Stop::of(faulty(alloc, fault))),
    }
}

/// The image over a topology that the bytes of a file of this name hold. It stops where they hold none. Takes memory.
pub fn given_image(alloc: Global, file: &str, bytes: &[u8], topo: &Topo) -> Result<Image, Stop>
    ensures image { IfOk result (IsImageReading bytes.now topo.now.nodes) }
    ensures caps { IfOk result (λ image. HasCapsOf image topo.now.nodes) }
    ensures stops { IfErr result (IsStop (HoldNoImage file.now bytes.now topo.now.nodes) ⊤) }
{
    within_limit(alloc, file, bytes)?;
    match read_image(alloc, bytes, topo) {
        Ok(image) => Ok(image),
        Err(fault) => Err(Stop::of(faulty(alloc, fault))),
    }
}

/// The first fault of an image file. Want of memory in the reader is want of memory here.
fn faulty(alloc: Global, fault: ImageFault) -> Result<Outcome, Memory>
    ensures { IfOk result (λ outcome. (fault ≢ ImageFault.Memory) × (outcome ≡ bad_image fault)) }
{
    if fault == ImageFault::Memory {
        return Err(Memory);
    }
    let text = fault_line(alloc, "image", fault_word(fault), fault_number(fault))?;
    Ok(Outcome::made(Status::BadImage(fault), text))
}

fn fault_word(fault: ImageFault) -> &'static str
    ensures { result.now ≡ image_fault_word fault }
{
    match fault {
        ImageFault::Magic => "magic",
        ImageFault::Cut(_) => "cut",
        ImageFault::Nodes(_) => "nodes",
        ImageFault::Caps(_) => "caps",
        ImageFault::Trailing(_) => "trailing",
        ImageFault::Memory => "memory",
    }
}

/// The number that the fault tells.
fn fault_number(fault: ImageFault) -> Option<u32>
    ensures { result ≡ image_fault_number fault }
{
    match fault {
        ImageFault::Cut(number)
        | ImageFault::Nodes(number)
        | ImageFault::Caps(number)
        | ImageFault::Trailing(number) => Some(number),
        ImageFault::Magic | ImageFault::Memory => None,
    }
}
