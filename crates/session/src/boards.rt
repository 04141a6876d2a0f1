//! The boards of a session, by name, and what each call answers.
use crate::answer::{Answer, Denied};
use crate::script::Call;
use job::job::Job;
use logic::evaluate::outputs;
use network::network::Network;
use network::row::Signal;
use std::alloc::{AllocError, Global};
use std::collections::BTreeMap;
use window::extracted::Context;

#[derive(Drop)]
pub(crate) struct Boards {
    heap: Global,
    jobs: BTreeMap<String, Job>,
    /// The job of each board that was never opened.
    unopened: Job,
}

/// The job of a board that was never opened: one input, which is the one output.
fn never_opened(heap: Global) -> Result<Job, AllocError> {
    let mut network = Network::new(heap, 1).unwrap();
    network.append_output(Signal(0))?;
    Ok(Job::from_network(network).unwrap())
}

impl Boards {
    pub(crate) fn new(heap: Global) -> Result<Boards, AllocError> {
        Ok(Boards {
            heap,
            jobs: BTreeMap::new(heap),
            unopened: never_opened(heap)?,
        })
    }

    fn job(&self, board: &str) -> &Job {
        self.jobs.get(board).unwrap_or(&self.unopened)
    }

    fn open(&mut self, board: &str, bytes: &[u8]) -> Result<Answer, Denied> {
        let job = Job::read(self.heap, bytes)?;
        let board = String::from_str(self.heap, board)?;
        self.jobs.insert(board, job).map_err(AllocError::from)?;
        Ok(Answer::Opened)
    }

    fn write(&self, board: &str, length: usize) -> Result<Answer, Denied> {
        let mut buffer = vec![in self.heap; 0xEEu8; length]?;
        let length = self.job(board).write(&mut buffer)?;
        Ok(Answer::Written(length, buffer))
    }

    pub(crate) fn answer(&mut self, call: Call) -> Result<Answer, Denied> {
        match call {
            Call::Open(board, bytes) => self.open(board, bytes.as_slice()),
            Call::Context(board, node, scope) => {
                let network = self.job(board).network();
                Ok(Answer::Context(Context::build(self.heap, network, node, scope)?))
            }
            Call::Run(board, x) => Ok(Answer::Outputs(outputs(self.job(board).network(), x))),
            Call::Write(board, length) => self.write(board, length),
        }
    }
}
