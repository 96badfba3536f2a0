// Reads the two netlists of a folder and prints one line: what was read, or why not.
#![tactic(auto)]

mod folder;
mod report;
mod summary;

use folder::{folder_named, read_file};
use report::{Report, Texts};
use std::path::Path;
use std::process::ExitCode;

fn run(rt: &HostRuntime) -> anyhow::Result<Report> {
    let name = folder_named(rt)?;
    let folder = Path::new(name.as_str());
    let original = read_file(rt, folder, "orig.aag")?;
    let gated = read_file(rt, folder, "gated.aag")?;
    let texts = Texts {
        original: original.as_slice(),
        gated: gated.as_slice(),
    };
    let report = Report::of(rt.alloc(), texts)?;
    rt.println(report)?;
    Ok(report)
}

// Status 0 where both netlists are read, else 1; what kept the checker from a report goes to standard error.
fn main(rt: HostRuntime) -> anyhow::Result<ExitCode> {
    match run(&rt) {
        Ok(report) if report.both_read() => Ok(ExitCode::SUCCESS),
        Ok(_) => Ok(ExitCode::FAILURE),
        Err(e) => {
            eprintln!(rt; "checker: {e}")?;
            Ok(ExitCode::FAILURE)
        }
    }
}
