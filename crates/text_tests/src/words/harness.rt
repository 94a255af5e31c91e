//! Words that are read, and what they say.

use command_words::{CommandLine, CreateNumbers, RunOptions, read_words};
use std::alloc::{AllocError, Global};
use unit_port::{CommandKind, FaultPlan};

/// What the words of a line say, which are parted by `|`: the command, its file names and its
/// numbers in their order, each in brackets; or `refused`.
pub fn told(alloc: Global, line: &str) -> Result<String, AllocError> {
    let mut words = Vec::new(alloc);
    for word in line.split('|') {
        words.push(String::from_str(alloc, word)?)?;
    }
    match read_words(&words) {
        Some(CommandLine::Create { image, numbers }) => created(alloc, image, numbers),
        Some(CommandLine::Geometry { image }) => format!(in alloc; "geometry [{image}]"),
        Some(CommandLine::Show { image }) => format!(in alloc; "show [{image}]"),
        Some(CommandLine::Report { image }) => format!(in alloc; "report [{image}]"),
        Some(
            CommandLine::Run {
                image,
                script,
                options,
            },
        ) => run(alloc, image, script, options),
        Some(
            CommandLine::Soak {
                image,
                number,
                rounds,
            },
        ) => format!(in alloc; "soak [{image}] {number} {rounds}"),
        Some(CommandLine::Parity { image, parity }) => {
            format!(in alloc; "parity [{image}] [{parity}]")
        }
        Some(
            CommandLine::Rebuild {
                image,
                parity,
                unit,
            },
        ) => format!(in alloc; "rebuild [{image}] [{parity}] {unit}"),
        Some(CommandLine::Certify { image, certificate }) => {
            format!(in alloc; "certify [{image}] [{certificate}]")
        }
        Some(CommandLine::Check { image, certificate }) => {
            format!(in alloc; "check [{image}] [{certificate}]")
        }
        None => format!(in alloc; "refused"),
    }
}

fn created(alloc: Global, image: &str, n: CreateNumbers) -> Result<String, AllocError> {
    let mut text = format!(in alloc; "create [{image}] {} {} {}", n.groups, n.units, n.chunks)?;
    write!(text, " {} {} {} {}", n.blocks, n.ws_min, n.ws_opt, n.mw)?;
    write!(text, " {} {} {}", n.sector, n.capacity, n.ring)?;
    Ok(text)
}

fn run(
    alloc: Global,
    image: &str,
    script: &str,
    options: RunOptions,
) -> Result<String, AllocError> {
    let mut text = format!(in alloc; "run [{image}] [{script}]")?;
    if options.lanes != 0 {
        write!(text, " lanes {}", options.lanes)?;
    }
    if options.collector {
        write!(text, " collector")?;
    }
    if let Some(fuse) = options.stop {
        write!(text, " stop {} {} {}", fuse.unit, fuse.nth, fuse.cut)?;
    }
    for plan in options.plans.as_slice() {
        add_plan(&mut text, plan)?;
    }
    Ok(text)
}

fn add_plan(text: &mut String, plan: &FaultPlan) -> Result<(), AllocError> {
    let kind = match plan.kind {
        CommandKind::Program => "program",
        CommandKind::Fetch => "fetch",
        CommandKind::Reset => "reset",
    };
    write!(text, " {kind} {} {} {}", plan.unit, plan.nth, plan.cut)
}
