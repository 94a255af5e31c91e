//! What the words of a command line say.

use crate::plans::FaultPlans;
use unit_port::Fuse;

/// The numbers of a drive to be made, each as the option of its name gives it.
#[derive(Clone, Copy, Debug, PartialEq, Eq)]
pub struct CreateNumbers {
    /// Groups of the drive.
    pub groups: u16,
    /// Parallel units of a group.
    pub units: u16,
    /// Chunks of a parallel unit.
    pub chunks: u32,
    /// Logical blocks of a chunk.
    pub blocks: u32,
    /// The minimum write size, in blocks.
    pub ws_min: u32,
    /// The optimal write size, in blocks.
    pub ws_opt: u32,
    /// The blocks that the device holds back before they can be read.
    pub mw: u32,
    /// A block's size in bytes.
    pub sector: u32,
    /// Sectors that the user has.
    pub capacity: u64,
    /// Entries of the write buffer.
    pub ring: u32,
}

/// What a run is told besides its files, as its options give it.
#[derive(Debug, Drop)]
pub struct RunOptions {
    /// Where the drive stops, by `--stop`. None is nowhere.
    pub stop: Option<Fuse>,
    /// Which commands of which units fail, by `--fail`.
    pub plans: FaultPlans,
    /// How many lanes work beside the script's threads, by `--lanes`: 0 to 8. Without it none does.
    pub lanes: u32,
    /// Whether a collector works beside them, by `--collector`.
    pub collector: bool,
}

/// A command with its file names and numbers. The names are neither empty nor begin with `-`.
#[derive(Debug, Drop)]
pub enum CommandLine<'a> {
    /// Makes a blank image of these numbers.
    Create {
        image: &'a str,
        numbers: CreateNumbers,
    },
    /// Prints the numbers of an image.
    Geometry {
        image: &'a str,
    },
    /// Prints what an image holds.
    Show {
        image: &'a str,
    },
    /// Prints the numbers of what an image holds.
    Report {
        image: &'a str,
    },
    /// Closes the Open chunks of an image, and makes a file of its parity.
    Parity {
        image: &'a str,
        parity: &'a str,
    },
    /// Makes a unit of an image anew from the parity in a file and from the other units.
    Rebuild {
        image: &'a str,
        parity: &'a str,
        unit: u32,
    },
    /// Makes the certificate of what an image holds, in a file of this name.
    Certify {
        image: &'a str,
        certificate: &'a str,
    },
    /// Checks the certificate in the file of this name against an image.
    Check {
        image: &'a str,
        certificate: &'a str,
    },
    /// Runs a script on an image.
    Run {
        image: &'a str,
        script: &'a str,
        options: RunOptions,
    },
    /// Makes the load of this number and of so many rounds, 1 to 3,125, and runs it on an image.
    Soak {
        image: &'a str,
        number: u64,
        rounds: u32,
    },
}
