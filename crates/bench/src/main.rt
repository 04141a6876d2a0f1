//! Walks a job many times, and prints a checksum of its outputs: a program to measure. The arguments
//! are `words` or `ternary` and the number of walks; the job comes on standard input.
#![tactic(auto)]

ghost use Rattle.std.specs.Prelude.{◌*◌, ◌^◌, ◌<◌};
ghost use Rattle.std.specs.Mem.{type_size};

use anyhow::bail;
use job::job::{Job, MAX_OUTPUTS};
use logic::evaluate::output_values;
use logic::logic::Logic;
use logic::ternary::Ternary;
use logic::trit::Trit;
use logic::words::Words;
use network::limits::{MAX_SIGNALS, MINTERMS};
use network::network::Network;
use std::env;
use std::io::Read;

/// A logic whose values can be drawn for the inputs, and counted at the outputs.
trait Measured: Logic {
    /// The value that a number of the generator stands for.
    fn draw(number: u64) -> Self::Value;

    /// What a value counts in the checksum.
    fn count(value: Self::Value) -> u64;
}

impl Measured for Words {
    fn draw(number: u64) -> u64 {
        number
    }

    fn count(value: u64) -> u64 {
        value
    }
}

impl Measured for Ternary {
    fn draw(number: u64) -> Trit {
        match number % 3 {
            0 => Trit::known(false),
            1 => Trit::known(true),
            _ => Trit::unknown(),
        }
    }

    /// 1 if it may be 0, and 2 more if it may be 1.
    fn count(value: Trit) -> u64 {
        match value.bit() {
            Some(false) => 1,
            Some(true) => 2,
            None => 3,
        }
    }
}

/// The generator's state, and the checksum so far.
#[derive(Drop)]
struct Measurement {
    state: u64,
    sum: u64,
}

impl Measurement {
    /// The next number of the generator.
    fn next(&mut self) -> u64 {
        self.state ^= self.state << 13;
        self.state ^= self.state >> 7;
        self.state ^= self.state << 17;
        self.state
    }

    /// Counts an output in the checksum.
    fn add(&mut self, count: u64) {
        self.sum = self.sum.wrapping_mul(3).wrapping_add(count);
    }

    /// One walk, with a value drawn for each input and each output's value counted.
    fn walk<L: Measured>(
        &mut self,
        network: &Network,
        values: &mut [L::Value; MAX_SIGNALS],
        fold: &mut [L::Value; MINTERMS],
        outputs: &mut [L::Value; MAX_OUTPUTS],
    ) {
        for leaf in values.iter_mut().take(network.inputs()) {
            *leaf = L::draw(self.next());
        }
        output_values::<L>(network, values, fold, outputs);
        for value in outputs.iter().take(network.outputs().len()) {
            self.add(L::count(*value));
        }
    }
}

/// The checksum of some walks.
fn checksum<L: Measured>(network: &Network, walks: u64) -> u64
    requires { MAX_SIGNALS * type_size L.Value.row < 2 ^ 63 }
{
    let mut measurement = Measurement { state: 1, sum: 0 };
    let mut values = [L::constant(false); MAX_SIGNALS];
    let mut fold = [L::constant(false); MINTERMS];
    let mut outputs = [L::constant(false); MAX_OUTPUTS];
    // So many walks, and nothing is indexed.
    for _ in 0..walks {
        measurement.walk::<L>(network, &mut values, &mut fold, &mut outputs);
    }
    measurement.sum
}

fn run(rt: &HostRuntime) -> anyhow::Result<()> {
    let heap = rt.alloc();
    let words: Vec<String> = env::args(rt)?.collect(heap)?;
    let mut bytes = Vec::new(heap);
    rt.stdin().read_to_end(&mut bytes)?;
    let Ok(job) = Job::read(heap, bytes.as_slice()) else {
        bail!("standard input has no job");
    };
    let [_, logic, walks] = words.as_slice() else {
        bail!("usage: bench words|ternary COUNT < JOB");
    };
    let walks = walks.as_str().parse::<u64>()?;
    let sum = match logic.as_str() {
        "words" => checksum::<Words>(job.network(), walks),
        _ => checksum::<Ternary>(job.network(), walks),
    };
    println!(rt; "{sum}")?;
    Ok(())
}

fn main(rt: HostRuntime) -> anyhow::Result<()> {
    run(&rt)
}
