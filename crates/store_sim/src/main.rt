//! The store as a program: it executes the script on standard input over devices in memory, and
//! writes the transcript to standard output.
//!
//! All that it promises stands on `shared_store::run`, which it calls with the words of its command
//! line, adapters over the two streams, and two devices of `disk_model`.
#![tactic(auto)]

mod streams;

use disk_model::{Fused, MemDisk};
use shared_store::{Status, run};
use std::alloc::{AllocError, Global};
use std::env::{self, Env};
use std::io;
use std::process::ExitCode;
use streams::{Input, Output};

/// The number of blocks of the disk.
const DISK_BLOCKS: u32 = 8192;

/// The number of blocks of the vault.
const VAULT_BLOCKS: u32 = 16384;

/// The status where a device can't be had for want of memory.
const NO_MEMORY: u8 = 5;

fn main(rt: HostRuntime) -> ExitCode {
    let words = match words(&rt) {
        Ok(words) => words,
        Err(error) if error.kind() == io::ErrorKind::OutOfMemory => return no_memory(&rt),
        // A word that is no text is no word of the program.
        Err(_) => return end(&rt, Status::Usage),
    };
    let Ok((mut disk, mut vault)) = devices(rt.alloc()) else {
        return no_memory(&rt);
    };
    let mut source = Input::new(rt.stdin());
    let mut sink = Output::new(rt.stdout());
    let status = run(
        rt.alloc(),
        &words,
        &mut source,
        &mut sink,
        &mut disk,
        &mut vault,
    );
    end(&rt, status)
}

/// Ends with a status, and its line on standard error.
fn end(rt: &impl Eprint, status: Status) -> ExitCode {
    if let Some(line) = message(status) {
        let _ = rt.eprintln(line);
    }
    ExitCode::from(status.number())
}

/// The words of the command line, the program's name first.
fn words(rt: &(impl Env + AllocGlobal)) -> io::Result<Vec<String>> {
    let mut words = Vec::new(rt.alloc());
    for word in env::args(rt)? {
        words.push(word)?;
    }
    Ok(words)
}

/// The disk and the vault, at which nothing is armed.
fn devices(alloc: Global) -> Result<(Fused<MemDisk>, Fused<MemDisk>), AllocError> {
    let disk = Fused::new(MemDisk::new(alloc, DISK_BLOCKS)?);
    let vault = Fused::new(MemDisk::new(alloc, VAULT_BLOCKS)?);
    Ok((disk, vault))
}

fn no_memory(rt: &impl Eprint) -> ExitCode {
    let _ = rt.eprintln("no memory");
    ExitCode::from(NO_MEMORY)
}

/// The line on standard error that belongs to a status.
fn message(status: Status) -> Option<&'static str> {
    match status {
        Status::Done => None,
        Status::Usage => Some("usage: store_sim [workload NUMBER | sweep]"),
        Status::ReadFault => Some("read fault"),
        Status::WriteFault => Some("write fault"),
        Status::TooLong => Some("input too long"),
    }
}
