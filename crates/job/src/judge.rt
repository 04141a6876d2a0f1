//! The checks of a job file.
ghost use Rattle.std.specs.Prelude.{◌≡◌, ◌+◌, ◌*◌, ◌^◌, ◌<◌, ◌≤◌, min, [], ◌∷◌, length, IfOk, None, nat_lt};
ghost use Rattle.std.specs.Result.{result_err};
ghost use Rattle.job.specs.Checks.{verdict, upto, byte_at, outputs_of, nodes_of, fanin_checks, node_checks, due_of, offset_of, length_of, head_checks, output_checks, signal_checks, pair_checks, end_checks, shape_check, stray_check, record_checks, checks};

use crate::denial::{Cause, Refusal};
use crate::fields::{Head, Passed, Record, record_len, word};
use crate::job::MAX_OUTPUTS;
use network::limits::{MAX_FANINS, MAX_INPUTS, MAX_NODES};

fn check_head(bytes: &[u8]) -> Result<Head<'_>, Refusal>
    ensures judged { result_err result ≡ verdict (head_checks bytes.now) }
    ensures same { IfOk result (λ h. h.bytes.now ≡ bytes.now) }
{
    Refusal::unless(bytes.len() >= 4, Cause::HeadShort, bytes.len())?;
    let inputs = usize::from(bytes[0]);
    Refusal::unless(inputs <= MAX_INPUTS, Cause::CountRange, 0)?;
    let outputs = usize::from(bytes[1]);
    Refusal::unless((1..=MAX_OUTPUTS).contains(&outputs), Cause::CountRange, 1)?;
    let nodes = usize::from(word(bytes, 2));
    Refusal::unless(nodes <= MAX_NODES, Cause::CountRange, 2)?;
    let end = 4 + 4 * nodes + 2 * outputs;
    Refusal::unless(end <= bytes.len(), Cause::HeadShort, bytes.len())?;
    Ok(Head { bytes })
}

fn check_shape(bytes: &[u8], at: usize, size: usize) -> Result<Record<'_>, Refusal>
    requires { at + size ≤ length bytes.now }
    ensures judged { result_err result ≡ verdict (shape_check bytes.now at size ∷ []) }
    ensures same { IfOk result (λ r. (r.bytes.now ≡ bytes.now) × (r.at ≡ at)) }
{
    let fits = size > 0 && usize::from(bytes[at]) <= MAX_FANINS && size == record_len(bytes[at]);
    Refusal::unless(fits, Cause::RecordShape, at)?;
    Ok(Record { bytes, at })
}

/// Whether each of some signals, whose words start at a place, is lower than a bound.
fn check_signals(bytes: &[u8], first: usize, count: usize, bound: usize) -> Result<(), Refusal>
    requires { first + 2 * count ≤ length bytes.now }
    ensures { result_err result ≡ verdict (upto count (signal_checks bytes.now bound first)) }
{
    // The number of a signal gives its place in the file.
    for i in 0..count {
        let place = first + 2 * i;
        let signal = usize::from(word(bytes, place));
        Refusal::unless(signal < bound, Cause::SignalRange, place)?;
    }
    Ok(())
}

/// Whether a function's first byte has no bit at or above 2^f.
fn is_clean_byte(f: u8, byte: u8) -> bool
    ensures { result ≡ nat_lt byte (2 ^ (2 ^ min f 3)) }
{
    match f {
        0 => byte < 2,
        1 => byte < 4,
        2 => byte < 16,
        _ => true,
    }
}

impl Record<'_> {
    fn check_fanins(&self, signal: usize) -> Result<(), Refusal>
        ensures { result_err result ≡ verdict (upto (byte_at self.now.bytes.now self.now.at) (fanin_checks self.now.bytes.now signal self.now.at)) }
    {
        let count = usize::from(self.count());
        check_signals(self.bytes, self.fanin_place(0), count, signal)
    }

    fn check_stray(&self) -> Result<(), Refusal>
        ensures { result_err result ≡ verdict (stray_check self.now.bytes.now (byte_at self.now.bytes.now self.now.at) (self.now.at + 1 + 2 * byte_at self.now.bytes.now self.now.at) ∷ []) }
    {
        let f = self.count();
        let place = self.fanin_place(usize::from(f));
        Refusal::unless(is_clean_byte(f, self.bytes[place]), Cause::StrayBit, place)
    }
}

fn check_record(bytes: &[u8], signal: usize, at: usize, size: usize) -> Result<(), Refusal>
    requires { at + size ≤ length bytes.now }
    ensures { result_err result ≡ verdict (record_checks bytes.now signal at size) }
{
    let shaped = check_shape(bytes, at, size)?;
    shaped.check_fanins(signal)?;
    shaped.check_stray()
}

impl Head<'_> {
    fn check_outputs(&self) -> Result<(), Refusal>
        ensures { result_err result ≡ verdict (upto (outputs_of self.now.bytes.now) (output_checks self.now.bytes.now)) }
    {
        let signals = self.inputs() + self.nodes();
        check_signals(self.bytes, self.output_place(0), self.outputs(), signals)
    }

    /// Where the record of pair n ends; it is due to start at `due`.
    fn check_pair(&self, n: usize, due: usize) -> Result<usize, Refusal>
        requires within { n < nodes_of self.now.bytes.now }
        requires due { due ≡ due_of self.now.bytes.now n }
        ensures judged { result_err result ≡ verdict (pair_checks self.now.bytes.now n) }
        ensures end { IfOk result (λ e. e ≡ offset_of self.now.bytes.now n + length_of self.now.bytes.now n) }
    {
        let offset = self.offset(n);
        Refusal::unless(offset == due, Cause::PairLine, 4 + 4 * n)?;
        let end = offset + self.length(n);
        Refusal::unless(end <= self.bytes.len(), Cause::PairLine, 6 + 4 * n)?;
        Ok(end)
    }

    /// Where the last record ends.
    fn check_pairs(&self) -> Result<usize, Refusal>
        ensures judged { result_err result ≡ verdict (upto (nodes_of self.now.bytes.now) (pair_checks self.now.bytes.now)) }
        ensures end { IfOk result (λ e. e ≡ due_of self.now.bytes.now (nodes_of self.now.bytes.now)) }
    {
        let mut due = self.end();
        // The number of a pair gives its place in the file.
        for n in 0..self.nodes() {
            due = self.check_pair(n, due)?;
        }
        Ok(due)
    }

    fn check_end(&self, due: usize) -> Result<(), Refusal>
        requires { due ≡ due_of self.now.bytes.now (nodes_of self.now.bytes.now) }
        ensures { result_err result ≡ verdict (end_checks self.now.bytes.now) }
    {
        let place = match self.nodes() {
            0 => self.end(),
            nodes => 2 + 4 * nodes,
        };
        Refusal::unless(due == self.bytes.len(), Cause::PairLine, place)
    }

    fn check_records(&self) -> Result<(), Refusal>
        requires { verdict (upto (nodes_of self.now.bytes.now) (pair_checks self.now.bytes.now)) ≡ None }
        ensures { result_err result ≡ verdict (upto (nodes_of self.now.bytes.now) (node_checks self.now.bytes.now)) }
    {
        let inputs = self.inputs();
        // The number of a record gives the place of its pair, and its signal.
        for n in 0..self.nodes() {
            check_record(self.bytes, inputs + n, self.offset(n), self.length(n))?;
        }
        Ok(())
    }
}

/// Whether the bytes are a job, or the first fault.
pub(crate) fn judge(bytes: &[u8]) -> Result<Passed<'_>, Refusal>
    ensures judged { result_err result ≡ verdict (checks bytes.now) }
    ensures same { IfOk result (λ p. p.head.bytes.now ≡ bytes.now) }
{
    let head = check_head(bytes)?;
    head.check_outputs()?;
    let due = head.check_pairs()?;
    head.check_end(due)?;
    head.check_records()?;
    Ok(Passed { head })
}
