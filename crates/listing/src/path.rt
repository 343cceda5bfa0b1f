//! Where a program finds its module text.

use std::env::Env;
use std::{env, io};

/// The file that is read.
const MODULE: &str = "module.ahpl";

/// The path of the module text: in the folder that the program is given or, with none, in the one that it is run in.
pub fn module_path(rt: &(impl Env + AllocGlobal)) -> io::Result<String> {
    match env::args(rt)?.nth(1) {
        Some(folder) => Ok(format!(in rt.alloc(); "{folder}/{MODULE}")?),
        None => Ok(String::from_str(rt.alloc(), MODULE)?),
    }
}
