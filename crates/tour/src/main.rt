//! Does one job from start to end, and prints each thing that it did.
#![tactic(auto)]

use job::denial::{ReadError, Refusal};
use job::job::Job;
use logic::evaluate::outputs;
use network::network::Network;
use network::row::{Assignment, Minterm, Row, Signal};
use std::alloc::{AllocError, Global};
use std::fmt;
use std::io::Read;
use window::extracted::Context;
use window::scope::Scope;

/// The function's bits, the one at the highest minterm first.
#[derive(Clone, Copy)]
struct FunctionBits<'a>(&'a Row);

impl fmt::Display for FunctionBits<'_> {
    fn fmt<W: fmt::Write>(&self, f: &mut fmt::Formatter<W>) -> fmt::Result {
        // A minterm is a number, and no list holds them.
        for y in (0..1u16 << self.0.count.min(8)).rev() {
            let bit = self.0.function.bit(Minterm(y));
            f.write_str(if bit { "1" } else { "0" })?;
        }
        Ok(())
    }
}

/// Signals, with a blank before each.
#[derive(Clone, Copy)]
struct Signals<'a>(&'a [Signal]);

impl fmt::Display for Signals<'_> {
    fn fmt<W: fmt::Write>(&self, f: &mut fmt::Formatter<W>) -> fmt::Result {
        for signal in self.0 {
            write!(f, " {}", signal.0)?;
        }
        Ok(())
    }
}

fn show_network(rt: &HostRuntime, network: &Network) -> anyhow::Result<()> {
    let inputs = network.inputs();
    for (n, row) in network.rows().iter().enumerate() {
        let signal = inputs.saturating_add(n);
        let fanins = Signals(row.used());
        let bits = FunctionBits(row);
        println!(rt; "  node {n}, signal {signal}: fanins{fanins}, function {bits}")?;
    }
    for (j, output) in network.outputs().iter().enumerate() {
        println!(rt; "  output {j}: signal {}", output.0)?;
    }
    Ok(())
}

/// The outputs under the first assignments.
fn show_outputs(rt: &HostRuntime, network: &Network) -> anyhow::Result<()> {
    println!(rt; "values:")?;
    // An assignment is a number, and no list holds them.
    for x in 0..1u64 << network.inputs().min(3) {
        let bits = outputs(network, Assignment(x));
        println!(rt; "  assignment {x}: outputs {bits}")?;
    }
    Ok(())
}

/// The context of a node, as a network of its own.
fn show_context(rt: &HostRuntime, network: &Network, n: usize, scope: Scope) -> anyhow::Result<()> {
    match Context::build(rt.alloc(), network, n, scope) {
        Ok(context) => {
            let leaves = Signals(context.leaves());
            let target = context.target();
            let inputs = context.network().inputs();
            println!(rt;
                "    {inputs} leaves, signals{leaves}; target: node {target}; members and roots:"
            )?;
            show_network(rt, context.network())
        }
        Err(refusal) => {
            let number = refusal.number().unwrap_or(0);
            println!(rt; "    refused with {number}")?;
            Ok(())
        }
    }
}

/// Two contexts of each node, which is named by its number alone.
fn show_contexts(rt: &HostRuntime, network: &Network) -> anyhow::Result<()> {
    for n in 0..network.rows().len() {
        println!(rt; "node {n} in the whole context:")?;
        show_context(rt, network, n, Scope::Whole)?;
        println!(rt; "node {n} in the window of levels 1 and 1:")?;
        let near = Scope::Window {
            inward: 1,
            outward: 1,
        };
        show_context(rt, network, n, near)?;
    }
    Ok(())
}

/// Prints why some bytes are no job.
fn show_refusal(rt: &HostRuntime, name: &str, refusal: Refusal) -> anyhow::Result<()> {
    let Refusal { cause, place } = refusal;
    let number = cause.number();
    println!(rt; "  {name}: refused with {number} at {place}, {cause}")?;
    Ok(())
}

/// What is done to the bytes of a job.
#[derive(Clone, Copy)]
enum Damage {
    /// Only so many of the first are left.
    CutTo(usize),
    /// The one at a place is replaced.
    Replaced(usize, u8),
}

impl Damage {
    /// The bytes with the damage done to them.
    fn apply(self, heap: Global, bytes: &[u8]) -> Result<Vec<u8>, AllocError> {
        let mut damaged = bytes.to_vec(heap)?;
        match self {
            Damage::CutTo(length) => damaged.truncate(length),
            Damage::Replaced(place, byte) => {
                if let Some(there) = damaged.get_mut(place) {
                    *there = byte;
                }
            }
        }
        Ok(damaged)
    }
}

/// Damages a job in each way, and prints what is read.
fn show_damages(rt: &HostRuntime, network: &Network, bytes: &[u8]) -> anyhow::Result<()> {
    let pairs = network.rows().len().saturating_mul(4).saturating_add(4);
    let head = network
        .outputs()
        .len()
        .saturating_mul(2)
        .saturating_add(pairs);
    let last = bytes.len().saturating_sub(1);
    println!(rt; "damaged:")?;
    for (name, damage) in [
        ("the empty file", Damage::CutTo(0)),
        ("49 inputs", Damage::Replaced(0, 49)),
        ("no outputs", Damage::Replaced(1, 0)),
        ("cut off in its head", Damage::CutTo(5)),
        ("an output that is no signal", Damage::Replaced(pairs, 255)),
        (
            "a record that is not where it is due",
            Damage::Replaced(4, 255),
        ),
        ("the last byte cut off", Damage::CutTo(last)),
        ("nine fanins", Damage::Replaced(head, 9)),
        (
            "a fanin that is not lower",
            Damage::Replaced(head.saturating_add(2), 1),
        ),
        ("a function bit too many", Damage::Replaced(last, 22)),
    ] {
        let damaged = damage.apply(rt.alloc(), bytes)?;
        match Job::read(rt.alloc(), damaged.as_slice()) {
            Ok(_) => println!(rt; "  {name}: accepted")?,
            Err(ReadError::Refused(refusal)) => show_refusal(rt, name, refusal)?,
            Err(e) => println!(rt; "  {name}: {e}")?,
        }
    }
    Ok(())
}

/// Writes the job into one byte too few.
fn show_short_write(rt: &HostRuntime, job: &Job) -> anyhow::Result<()> {
    let room = job.file_len().saturating_sub(1);
    let mut out = vec![in rt.alloc(); 0xEEu8; room]?;
    match job.write(&mut out) {
        Ok(length) => println!(rt; "written into {room} bytes: {length}")?,
        Err(cause) => {
            let number = cause.number();
            println!(rt; "written into {room} bytes: refused with {number}, {cause}")?
        }
    }
    Ok(())
}

fn run(rt: &HostRuntime) -> anyhow::Result<()> {
    let heap = rt.alloc();
    let mut bytes = Vec::new(heap);
    rt.stdin().read_to_end(&mut bytes)?;
    let length = bytes.len();
    let job = match Job::read(heap, bytes.as_slice()) {
        Ok(job) => job,
        Err(ReadError::Refused(refusal)) => return show_refusal(rt, "standard input", refusal),
        // Want of memory ends the tour; a refusal is shown.
        Err(e) => return Err(e.into()),
    };
    let inputs = job.network().inputs();
    let nodes = job.network().rows().len();
    let outputs = job.network().outputs().len();
    println!(rt; "read {length} bytes: {inputs} inputs, {nodes} nodes, {outputs} outputs")?;
    show_network(rt, job.network())?;
    show_outputs(rt, job.network())?;
    show_contexts(rt, job.network())?;
    let written = job.to_bytes(heap)?;
    let length = written.len();
    let same = if written == bytes {
        "the same as"
    } else {
        "other than"
    };
    println!(rt; "written back: {length} bytes, {same} were read")?;
    show_short_write(rt, &job)?;
    show_damages(rt, job.network(), bytes.as_slice())
}

fn main(rt: HostRuntime) -> anyhow::Result<()> {
    run(&rt)
}
