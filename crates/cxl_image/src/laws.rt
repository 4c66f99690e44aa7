//! Laws of images and their files, each the contract of a function that does nothing.

ghost use Rattle.std.specs.Prelude.{◌≡◌, ◌<◌, ◌^◌, ◌⊎◌, ℕ, List};
ghost use Rattle.cxl_regs.specs.Registers.{Registers};
ghost use Rattle.cxl_regs.specs.Blocks.{blocks_after};
ghost use Rattle.cxl_topo.specs.declared.node.Node.{Node};
ghost use Rattle.cxl_image.specs.declared.fault.ImageFault.{ImageFault};
ghost use Rattle.cxl_image.specs.Images.{IsImage, HasCapsOf};
ghost use Rattle.cxl_image.specs.File.{IsImageFile, IsFirstImageFault, HasImage, HasImageFault};

use cxl_regs::write_laws;

/// Bytes are a file of one image at the most, or have one first fault: one of the two, and never both.
pub fn one_image_reading()
    ensures one_image { (bytes : List ℕ) (nodes : List Node) (image other : List Registers) →
        IsImageFile bytes nodes image → IsImageFile bytes nodes other → image ≡ other }
    ensures one_fault { (bytes : List ℕ) (nodes : List Node) (fault other : ImageFault) →
        IsFirstImageFault bytes nodes fault → IsFirstImageFault bytes nodes other → fault ≡ other }
    ensures not_both { (bytes : List ℕ) (nodes : List Node) (image : List Registers) (fault : ImageFault) →
        IsImageFile bytes nodes image → IsFirstImageFault bytes nodes fault → ⊥ }
    ensures some { (bytes : List ℕ) (nodes : List Node) → HasImage bytes nodes ⊎ HasImageFault bytes nodes }
{}

/// What every write of a word of 32 bits leaves of an image, for whoever reasons about one: an image, with the same
/// capability words. Does nothing.
pub fn image_laws()
    ensures caps { (blocks : List Registers) (nodes : List Node) (node off v : ℕ) → HasCapsOf blocks nodes → HasCapsOf (blocks_after blocks node off v) nodes }
    ensures image { (blocks : List Registers) (node off v : ℕ) → IsImage blocks → v < 2 ^ 32 → IsImage (blocks_after blocks node off v) }
{
    write_laws();
}
