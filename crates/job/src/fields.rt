//! The fields of a job file.
ghost use Rattle.std.specs.Prelude.{◌≡◌, ℕ, ◌+◌, ◌*◌, ◌<◌, ◌≤◌, length, None, slice_index};
ghost use Rattle.network.specs.Limits.{max_inputs, max_nodes, max_fanins};
ghost use Rattle.job.specs.Bytes.{seg};
ghost use Rattle.job.specs.Checks.{verdict, byte_at, word_at, inputs_of, outputs_of, nodes_of, head_end, width_of, record_size, offset_of, length_of, output_place, checks};

/// The word of two bytes at a place, the low byte first.
pub(crate) fn word(bytes: &[u8], at: usize) -> u16
    requires { at + 1 < length bytes.now }
    ensures { result ≡ word_at bytes.now at }
{
    u16::from_le_bytes([bytes[at], bytes[at + 1]])
}

/// Function bytes of a node with f fanins.
pub(crate) fn width(f: u8) -> usize
    requires { f ≤ max_fanins }
    ensures { result ≡ width_of f }
{
    1usize.max((1usize << f) / 8)
}

/// The length of the record of a node with f fanins.
pub(crate) fn record_len(f: u8) -> usize
    requires { f ≤ max_fanins }
    ensures { result ≡ record_size f }
{
    1 + 2 * usize::from(f) + width(f)
}

/// The bytes of a file whose head has passed: its counts are in range, and all of the head lies within it.
#[derive(Drop)]
pub(crate) struct Head<'a> {
    pub(crate) bytes: &'a [u8],
    ghost bytes_fit: { (i : ℕ) → slice_index bytes.now i < 256 },
    ghost four: { 4 ≤ length bytes.now },
    ghost few_inputs: { inputs_of bytes.now ≤ max_inputs },
    ghost few_nodes: { nodes_of bytes.now ≤ max_nodes },
    ghost whole: { head_end bytes.now ≤ length bytes.now },
}

/// A record whose count is in range, and all of which lies within the file.
#[derive(Drop)]
pub(crate) struct Record<'a> {
    pub(crate) bytes: &'a [u8],
    pub(crate) at: usize,
    ghost few: { byte_at bytes.now at ≤ max_fanins },
    ghost within: { at + record_size (byte_at bytes.now at) ≤ length bytes.now },
}

/// A file that has passed every check.
#[derive(Drop)]
pub(crate) struct Passed<'a> {
    pub(crate) head: Head<'a>,
    ghost passed: { verdict (checks head.bytes.now) ≡ None },
}

impl<'a> Head<'a> {
    pub(crate) fn inputs(&self) -> usize
        ensures { result ≡ inputs_of self.now.bytes.now }
    {
        usize::from(self.bytes[0])
    }

    pub(crate) fn outputs(&self) -> usize
        ensures { result ≡ outputs_of self.now.bytes.now }
    {
        usize::from(self.bytes[1])
    }

    pub(crate) fn nodes(&self) -> usize
        ensures { result ≡ nodes_of self.now.bytes.now }
    {
        usize::from(word(self.bytes, 2))
    }

    /// The first byte after the head.
    pub(crate) fn end(&self) -> usize
        ensures { result ≡ head_end self.now.bytes.now }
    {
        self.output_place(self.outputs())
    }

    // What is asked of n is that there is such a record, as an index into a slice asks it.
    /// Where record n starts, by its pair.
    pub(crate) fn offset(&self, n: usize) -> usize
        requires { n < nodes_of self.now.bytes.now }
        ensures value { result ≡ offset_of self.now.bytes.now n }
        ensures small { result < 65536 }
    {
        usize::from(word(self.bytes, 4 + 4 * n))
    }

    /// How long record n is, by its pair.
    pub(crate) fn length(&self, n: usize) -> usize
        requires { n < nodes_of self.now.bytes.now }
        ensures value { result ≡ length_of self.now.bytes.now n }
        ensures small { result < 65536 }
    {
        usize::from(word(self.bytes, 6 + 4 * n))
    }

    /// The place of output j, or of the first record behind the last.
    pub(crate) fn output_place(&self, j: usize) -> usize
        requires { j ≤ outputs_of self.now.bytes.now }
        ensures { result ≡ output_place self.now.bytes.now j }
    {
        4 + 4 * self.nodes() + 2 * j
    }

    /// The signal of output j.
    pub(crate) fn output(&self, j: usize) -> u16
        requires { j < outputs_of self.now.bytes.now }
        ensures { result ≡ word_at self.now.bytes.now (output_place self.now.bytes.now j) }
    {
        word(self.bytes, self.output_place(j))
    }
}

impl<'a> Record<'a> {
    /// How many fanins the node has.
    pub(crate) fn count(&self) -> u8
        ensures { result ≡ byte_at self.now.bytes.now self.now.at }
    {
        self.bytes[self.at]
    }

    /// The place of fanin i, or of the function behind the last.
    pub(crate) fn fanin_place(&self, i: usize) -> usize
        requires { i ≤ byte_at self.now.bytes.now self.now.at }
        ensures { result ≡ self.now.at + 1 + 2 * i }
    {
        self.at + 1 + 2 * i
    }

    /// The signal of fanin i.
    pub(crate) fn fanin(&self, i: usize) -> u16
        requires { i < byte_at self.now.bytes.now self.now.at }
        ensures { result ≡ word_at self.now.bytes.now (self.now.at + 1 + 2 * i) }
    {
        word(self.bytes, self.fanin_place(i))
    }

    /// The bytes of the function.
    pub(crate) fn function(&self) -> &'a [u8]
        ensures value { result.now ≡ seg self.now.bytes.now (self.now.at + 1 + 2 * byte_at self.now.bytes.now self.now.at) (width_of (byte_at self.now.bytes.now self.now.at)) }
        ensures len { length result.now ≡ width_of (byte_at self.now.bytes.now self.now.at) }
    {
        let count = self.count();
        let first = self.fanin_place(usize::from(count));
        &self.bytes[first..first + width(count)]
    }
}
