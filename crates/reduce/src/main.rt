//! Reads a job on standard input, and writes it on standard output.
#![tactic(auto)]

use job::denial::{ReadError, Refusal};
use job::job::Job;
use std::alloc::AllocError;
use std::io;
use std::io::{Read, Write};
use std::process::ExitCode;
use thiserror::Error;

/// Why no job was written.
#[derive(Debug, Drop, Error)]
enum Failure {
    #[error("refused: {0}")]
    Refused(Refusal),
    #[error("failed: no memory")]
    NoMemory,
    #[error("failed: {0}")]
    Io(#[from] io::Error),
}

impl From<AllocError> for Failure {
    fn from(_: AllocError) -> Failure {
        Failure::NoMemory
    }
}

impl From<ReadError> for Failure {
    fn from(e: ReadError) -> Failure {
        match e {
            ReadError::Refused(refusal) => Failure::Refused(refusal),
            ReadError::NoMemory => Failure::NoMemory,
        }
    }
}

fn run(rt: &HostRuntime) -> Result<(), Failure> {
    let heap = rt.alloc();
    let mut bytes = Vec::new(heap);
    rt.stdin().read_to_end(&mut bytes)?;
    let job = Job::read(heap, bytes.as_slice())?;
    let inputs = job.network().inputs();
    let nodes = job.network().rows().len();
    let outputs = job.network().outputs().len();
    let length = bytes.len();
    eprintln!(rt; "read {inputs} inputs, {nodes} nodes, {outputs} outputs in {length} bytes")?;
    let written = job.to_bytes(heap)?;
    rt.stdout().write_all(written.as_slice())?;
    let length = written.len();
    eprintln!(rt; "wrote {length} bytes, 0 nodes changed")?;
    Ok(())
}

fn main(rt: HostRuntime) -> ExitCode {
    match run(&rt) {
        Ok(()) => ExitCode::SUCCESS,
        Err(failure) => {
            let _ = eprintln!(rt; "{failure}");
            ExitCode::FAILURE
        }
    }
}
