//! Plays the bench lines `lines.txt` on the module text `module.ahpl`, both in the folder that it is run in or in the one that it is
//! given.
#![tactic(auto)]

mod arguments;
mod bench;
mod telling;

use anyhow::Context;
use arguments::{Asked, HELP, read_arguments};
use bench::play_lines;
use engine::Engine;
use fault::Fault;
use listing::Kept;
use playing::rows;
use std::fs;
use std::process::ExitCode;
use telling::tell_text;
use text::Reader;

fn play(rt: &HostRuntime, folder: &str) -> anyhow::Result<ExitCode> {
    let path = format!(in rt.alloc(); "{folder}/module.ahpl")?;
    let text = fs::read(rt, path.as_str()).context(path.as_str())?;
    let mut reader = Reader::new(rt.alloc())?;
    let mut kept = Kept::filled(rt.alloc(), 0)?;
    if let Err(fault) = kept.read(&mut reader, text.as_slice()) {
        rt.println(fault)?;
        tell_text(rt, path.as_str(), text.as_slice(), fault.refusal())?;
        return Ok(ExitCode::FAILURE);
    }
    let path = format!(in rt.alloc(); "{folder}/lines.txt")?;
    let lines = fs::read(rt, path.as_str()).context(path.as_str())?;
    let engine = Engine::new(text.as_slice(), rows(&kept))?;
    play_lines(rt, &engine, path.as_str(), lines.as_slice())
}

fn main(rt: HostRuntime) -> anyhow::Result<ExitCode> {
    match read_arguments(&rt)? {
        Asked::Help => {
            rt.println(HELP)?;
            Ok(ExitCode::SUCCESS)
        }
        Asked::Play(folder) => play(&rt, folder.as_str()),
        Asked::Unknown => {
            rt.eprintln(HELP)?;
            Ok(ExitCode::from(2))
        }
    }
}
