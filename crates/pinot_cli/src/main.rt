//! The program: a folder, and the words of one command.
#![tactic(auto)]

use host_devices::{FolderDepot, FolderShelf, StreamSink};
use outside::Sink;
use pinot_run::{Status, may_write, run_command};
use std::alloc::AllocError;
use std::io::ErrorKind;
use std::process::ExitCode;
use std::{env, io};

// A block that glibc's allocator maps by itself, and so large that it keeps up to twice as much of
// what is let go later, in place of giving it back to the system. Larger blocks teach it nothing.
const TAUGHT_BYTES: usize = 31 << 20;

// Has the memory of a segment that is done with kept for the next one: the block is let go at once,
// and none of its pages is touched. Where there is no room for it, all goes on as before.
fn keep_memory(rt: &HostRuntime) {
    let _block: Result<Vec<u8>, AllocError> = Vec::with_capacity(rt.alloc(), TAUGHT_BYTES);
}

// The folder that the store is kept in, and the words of the command. An argument that is no UTF-8
// is an error; without arguments there are no words.
fn arguments(rt: &HostRuntime) -> io::Result<(String, Vec<String>)> {
    let mut arguments = env::args(rt)?.skip(1);
    let folder = match arguments.next() {
        Some(folder) => folder,
        None => String::from_str(rt.alloc(), ".")?,
    };
    let words = arguments.collect(rt.alloc())?;
    Ok((folder, words))
}

// The depot over the folder of a store. Only where the command may write, it locks the folder.
fn depot_over(
    rt: &HostRuntime,
    folder: String,
    words: &[String],
) -> io::Result<FolderDepot<HostRuntime>> {
    let rt = rt.clone()?;
    if may_write(words) {
        Ok(FolderDepot::new(rt, folder))
    } else {
        Ok(FolderDepot::read_only(rt, folder))
    }
}

// Runs the command over the folder that the program is run in, and the folder of the store.
fn run(rt: &HostRuntime) -> io::Result<Status> {
    let (folder, words) = arguments(rt)?;
    let mut inputs = FolderShelf::new(rt.clone()?, String::from_str(rt.alloc(), ".")?);
    let mut depot = depot_over(rt, folder, &words)?;
    let mut out = StreamSink::new(rt.stdout());
    let mut notes = StreamSink::new(rt.stderr());
    Ok(run_command(
        rt.alloc(),
        &words,
        &mut inputs,
        &mut depot,
        &mut out,
        &mut notes,
    ))
}

// Notes why a command was not begun.
fn refuse(rt: &HostRuntime, status: Status, line: &[u8]) -> Status {
    match StreamSink::new(rt.stderr()).put(line) {
        Ok(()) => status,
        Err(_) => Status::WriteFault,
    }
}

fn main(rt: HostRuntime) -> ExitCode {
    keep_memory(&rt);
    let status = match run(&rt) {
        Ok(status) => status,
        Err(e) if e.kind() == ErrorKind::InvalidData => {
            refuse(&rt, Status::BadWords, b"bad words\n")
        }
        Err(_) => refuse(&rt, Status::NoMemory, b"no memory\n"),
    };
    ExitCode::from(status.code())
}
