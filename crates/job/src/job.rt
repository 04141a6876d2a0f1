//! A network with as many outputs as a job may have.
ghost use Rattle.std.specs.Prelude.{◌<◌, ◌≤◌, length};
ghost use Rattle.network.specs.Parts.{net_of};
ghost use Rattle.job.specs.Checks.{max_outputs};

use network::network::Network;

mod ops;

/// Outputs of a job.
pub const MAX_OUTPUTS: usize = 48;

/// A network that a job file can hold: it has 1 to 48 outputs.
#[derive(Drop)]
pub struct Job {
    network: Network,
    ghost some: { 0 < length (net_of network).outputs },
    ghost few: { length (net_of network).outputs ≤ max_outputs },
}
