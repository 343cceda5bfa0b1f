//! Reads the module text `module.ahpl` of the folder that it is run in, or of the folder that it is given, and prints the six
//! tables, or why the text is refused.
#![tactic(auto)]

use anyhow::Context;
use listing::{Kept, module_path};
use std::fs;
use std::process::ExitCode;
use text::Reader;

fn main(rt: HostRuntime) -> anyhow::Result<ExitCode> {
    let path = module_path(&rt)?;
    let text = fs::read(&rt, path.as_str()).context(path.as_str())?;
    let mut reader = Reader::new(rt.alloc())?;
    let mut kept = Kept::filled(rt.alloc(), 0)?;
    match kept.read(&mut reader, text.as_slice()) {
        Ok(counts) => {
            kept.show(&rt, counts)?;
            Ok(ExitCode::SUCCESS)
        }
        Err(fault) => {
            rt.println(fault)?;
            Ok(ExitCode::FAILURE)
        }
    }
}
