//! The ways in which a run ends, each with its exit status.

ghost use Rattle.std.specs.Prelude.{◌≡◌};
ghost use Rattle.std.specs.Process.{exit_status};
ghost use Rattle.cxl_inputs.specs.Exit.{exit_code};

use cxl_cedt::CedtFault;
use cxl_image::ImageFault;
use cxl_topofile::TopoFault;
use std::process::ExitCode;

/// How a run of the program ended. (This project's rule.)
#[derive(Clone, Copy)]
pub enum Status {
    /// The command was carried out.
    Done,
    /// The words are no command.
    Usage,
    /// A file is not there, or reading it failed.
    FetchFault,
    /// The bytes of the CEDT spell no table. The fault is the first from the front.
    BadTable(CedtFault),
    /// The topology file stands for no tree. The fault is its first.
    BadTopo(TopoFault),
    /// The script failed. The lines that ended before are carried out and answered.
    ReadFault,
    /// The sink failed. A part of the text from the front may be written.
    WriteFault,
    /// The registers failed while the endpoints were enabled. No line of the script is read.
    BusFault,
    /// The command has no answer: no window that can be used holds the address, the image has a
    /// breach, or there is no plan.
    Refused,
    /// Memory ran out.
    Memory,
    /// The image file is none of an image over the topology. The fault is the first from the front.
    BadImage(ImageFault),
    /// The script has more than 16,777,216 bytes. The lines that ended within them are carried out and answered.
    TooMuch,
    /// A file has more than 1,048,576 bytes.
    TooLarge,
}

impl Status {
    /// The exit status of the program.
    pub fn code(&self) -> u8
        ensures { result ≡ exit_code self.now }
    {
        match self {
            Status::Done => 0,
            Status::Usage => 1,
            Status::FetchFault => 2,
            Status::BadTable(_) => 3,
            Status::BadTopo(_) => 4,
            Status::ReadFault => 5,
            Status::WriteFault => 6,
            Status::BusFault => 7,
            Status::Refused => 8,
            Status::Memory => 9,
            Status::BadImage(_) => 10,
            Status::TooMuch => 11,
            Status::TooLarge => 12,
        }
    }
}

/// The exit status of a program is that of its run.
pub fn ended(status: Status) -> ExitCode
    ensures { exit_status result ≡ exit_code status }
{
    ExitCode::from(status.code())
}
