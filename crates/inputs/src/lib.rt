// How the programs get a planner input: from the file named by the first argument, or from standard input where none
// is named.
#![tactic(auto)]

use records::cursors::LONGEST_INPUT;
use std::fs::File;
use std::io::Read;
use std::{env, io};

// The bytes of the input, but at most one more than an input may have, so that a longer one is seen to be too long.
fn read_bytes(rt: &HostRuntime) -> io::Result<Vec<u8>> {
    let most = LONGEST_INPUT as u64 + 1;
    let mut bytes = Vec::new(rt.alloc());
    match env::args(rt)?.nth(1) {
        Some(name) => File::open(rt, name)?.take(most).read_to_end(&mut bytes)?,
        None => rt.stdin().take(most).read_to_end(&mut bytes)?,
    };
    Ok(bytes)
}

// The input of this program. Where it cannot be read, that is said on standard error, and the error is handed on.
pub fn read_input(rt: &HostRuntime, program: &str) -> anyhow::Result<Vec<u8>> {
    let bytes = read_bytes(rt).inspect_err(|error| {
        let _ = eprintln!(rt; "{program}: the input cannot be read: {error}");
    })?;
    Ok(bytes)
}
