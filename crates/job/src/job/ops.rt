//! What can be done with a job.
ghost use Rattle.std.specs.Prelude.{◌≡◌, ◌<◌, ◌≤◌, length, IfOk, MatchOption};
ghost use Rattle.network.specs.Rows.{Clean};
ghost use Rattle.network.specs.Nets.{nodes, row_at, replaced};
ghost use Rattle.network.specs.Parts.{net_of};
ghost use Rattle.job.specs.Checks.{max_outputs, max_file_length};
ghost use Rattle.job.specs.Bytes.{encode};
ghost use Rattle.job.specs.Jobs.{job_net, Reads, Writes, Reopens, WritesBack};

use super::{Job, MAX_OUTPUTS};
use crate::denial::{Cause, ReadError};
use crate::judge::judge;
use crate::store::{records_len, store};
use network::network::Network;
use network::row::Function;
use std::alloc::{AllocError, Global};

impl Job {
    /// The job of a network; None where it has no outputs or too many, which is the one way to fail.
    pub fn from_network(network: Network) -> Option<Job>
        ensures { MatchOption result ((0 < length (net_of network).outputs) → length (net_of network).outputs ≤ max_outputs → ⊥) (λ j. j.network ≡ network) }
    {
        let outputs = network.outputs().len();
        if outputs == 0 || outputs > MAX_OUTPUTS {
            return None;
        }
        Some(Job { network })
    }

    pub fn network(&self) -> &Network
        ensures { result.now ≡ self.now.network }
    {
        &self.network
    }

    /// The length of the job's file.
    pub fn file_len(&self) -> usize
        ensures value { result ≡ length (encode (job_net self.now)) }
        ensures most { result ≤ max_file_length }
    {
        let rows = self.network.rows().len();
        let outputs = self.network.outputs().len();
        4 + 4 * rows + 2 * outputs + records_len(&self.network)
    }

    /// Reads a job file. What is read is written back as the same bytes.
    pub fn read(heap: Global, bytes: &[u8]) -> Result<Job, ReadError>
        ensures reads { Reads bytes.now result }
        ensures back { IfOk result (WritesBack bytes.now) }
    {
        let network = judge(bytes)?.load(heap)?;
        Ok(Job { network })
    }

    /// Writes the job file into supplied bytes, and says how long it is. What is written reads as the same network.
    pub fn write(&self, out: &mut [u8]) -> Result<usize, Cause>
        ensures writes { Writes (job_net self.now) out.old result out.new }
        ensures reopens { Reopens self.now }
    {
        let len = self.file_len();
        if out.len() < len {
            return Err(Cause::OutputShort);
        }
        store(out, &self.network);
        Ok(len)
    }

    /// The job file in memory of its own.
    pub fn to_bytes(&self, heap: Global) -> Result<Vec<u8>, AllocError>
        ensures { IfOk result (λ v. v.items ≡ encode (job_net self.now)) }
    {
        let mut bytes = vec![in heap; 0u8; self.file_len()]?;
        store(&mut bytes, &self.network);
        Ok(bytes)
    }

    /// Gives node n another function.
    pub fn replace_function(&mut self, n: usize, f: Function)
        requires within { n < nodes (job_net self.old) }
        requires clean { Clean (row_at (job_net self.old) n).count f }
        ensures { job_net self.new ≡ replaced (job_net self.old) n f }
    {
        self.network.replace_function(n, f);
    }
}
