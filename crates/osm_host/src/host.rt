//! What the program asks of the outside: an input, an output and a report.

ghost use Rattle.std.specs.Prelude.{◌≡◌, ◌⊎◌, ◌<◌, ◌≤◌, ◌++◌, [], ◌∷◌, length, take, is_ok, is_some, not, false, IfOk, OnOk, OnErr, IfSome};
ghost use Rattle.osm_host.specs.Outside.{Outside, input, output, appended, preceded, risen, grown, finds_end, Counts, OnlyOpens, OnlyReads, OnlyWritesOut, OnlyWritesReport};

/// A call on the outside failed. It doesn't say why: the counts of faults say of which kind it was.
#[derive(Clone, Copy, Debug, PartialEq, Eq)]
pub struct Failed;

/// How many calls of each kind have failed. A count saturates at 2^64 - 1.
#[derive(Clone, Copy, Debug, PartialEq, Eq)]
pub struct Faults {
    pub opens: u64,
    pub reads: u64,
    pub writes: u64,
}

/// The counts of a new host.
pub const NO_FAULTS: Faults = Faults {
    opens: 0,
    reads: 0,
    writes: 0,
};

/// Counts one more fault.
pub fn note_fault(count: &mut u64) -> Failed
    ensures counted { count.new ≡ risen count.old }
    ensures never_falls { count.old ≤ count.new }
{
    *count = count.saturating_add(1);
    Failed
}

/// The outside: one opened input, one output and one report.
///
/// A host has the content behind each input name, the unread rest of the opened input, the bytes of the output, those of the
/// report, and the list of opens. Each of these is known or unknown to contracts, and no call changes which.
///
/// Always known are the count of bytes taken from the opened input, the counts of faults, and whether the last read found
/// the end of the input. Each failed call counts once, as an open, a read or a write.
///
/// Each call changes only its own stream or the list of opens, and the count of its kind. The content behind a name never
/// changes.
pub trait Host {
    /// The streams, the list of opens, and the counts.
    ghost seen: { Self → Outside };

    /// Opens an input by its name, in place of the one before; `-` is standard input.
    ///
    /// From then on the unread rest is the content behind the name. A failed open is listed or isn't.
    fn open_input(&mut self, name: &str) -> Result<(), Failed>
        ensures listed { OnOk result ((seen self.new).opens
            ≡ appended (seen self.old).opens (input name.now ∷ [])) }
        ensures listed_or_not { OnErr result (((seen self.new).opens
            ≡ appended (seen self.old).opens (input name.now ∷ []))
            ⊎ ((seen self.new).opens ≡ (seen self.old).opens)) }
        ensures begins { OnOk result ((seen self.new).left ≡ (seen self.old).named name.now) }
        ensures none_read { OnOk result ((seen self.new).bytes_read ≡ 0) }
        ensures goes_on { OnOk result ((seen self.new).at_end ≡ false) }
        // The unread rest is known after the call if it was known before.
        ensures told { is_some (seen self.new).left ≡ is_some (seen self.old).left }
        ensures cause { Counts (seen self.old).open_faults (seen self.new).open_faults result }
        ensures rest { OnlyOpens (seen self.old) (seen self.new) };

    /// Takes bytes from the front of the opened input into the front of the buffer, and says how many.
    ///
    /// 0 for a buffer that isn't empty means that nothing was left: that read is the last of this input. A failed read takes
    /// nothing.
    fn read(&mut self, buf: &mut [u8]) -> Result<usize, Failed>
        // No read follows one that found the end.
        requires goes_on { (seen self.old).at_end ≡ false }
        ensures count { IfOk result (λ n. n ≤ length buf.old) }
        ensures taken { IfOk result
            (λ n. (seen self.old).left ≡ preceded (take n buf.new) (seen self.new).left) }
        ensures ended { result ≡ Ok 0 → 0 < length buf.old
            → IfSome (seen self.old).left (λ left. left ≡ []) }
        ensures at_end { (seen self.new).at_end ≡ finds_end result (length buf.old) }
        ensures failed { OnErr result ((seen self.new).left ≡ (seen self.old).left) }
        ensures empty { length buf.old ≡ 0 → result ≡ Ok 0 }
        // Whether it failed is kept until the next read.
        ensures last { (seen self.new).read_failed ≡ not (is_ok result) }
        ensures counted { IfOk result
            (λ n. (seen self.new).bytes_read ≡ grown (seen self.old).bytes_read n) }
        ensures none_counted { OnErr result ((seen self.new).bytes_read
            ≡ (seen self.old).bytes_read) }
        ensures cause { Counts (seen self.old).read_faults (seen self.new).read_faults result }
        ensures rest { OnlyReads (seen self.old) (seen self.new) };

    /// Opens the output by its name, in place of the one before; `-` is standard output.
    ///
    /// Without `overwrite` the output has to be new. A failed open is listed or isn't.
    fn open_output(&mut self, name: &str, overwrite: bool) -> Result<(), Failed>
        ensures listed { OnOk result ((seen self.new).opens
            ≡ appended (seen self.old).opens (output name.now overwrite ∷ [])) }
        ensures listed_or_not { OnErr result (((seen self.new).opens
            ≡ appended (seen self.old).opens (output name.now overwrite ∷ []))
            ⊎ ((seen self.new).opens ≡ (seen self.old).opens)) }
        ensures left { (seen self.new).left ≡ (seen self.old).left }
        ensures bytes_read { (seen self.new).bytes_read ≡ (seen self.old).bytes_read }
        ensures at_end { (seen self.new).at_end ≡ (seen self.old).at_end }
        ensures cause { Counts (seen self.old).open_faults (seen self.new).open_faults result }
        ensures rest { OnlyOpens (seen self.old) (seen self.new) };

    /// Writes a prefix of the piece to the output, and says how long it is.
    ///
    /// It is at least one byte of a piece that isn't empty. A failed write writes nothing.
    fn write_out(&mut self, bytes: &[u8]) -> Result<usize, Failed>
        ensures count { IfOk result (λ n. n ≤ length bytes.now) }
        ensures some { 0 < length bytes.now → IfOk result (λ n. 0 < n) }
        ensures written { IfOk result
            (λ n. (seen self.new).out ≡ appended (seen self.old).out (take n bytes.now)) }
        ensures failed { OnErr result ((seen self.new).out ≡ (seen self.old).out) }
        ensures empty { length bytes.now ≡ 0 → result ≡ Ok 0 }
        ensures cause { Counts (seen self.old).write_faults (seen self.new).write_faults result }
        ensures rest { OnlyWritesOut (seen self.old) (seen self.new) };

    /// Makes the system keep what was written to the output, if the output is a file.
    ///
    /// It writes nothing. A failure counts as a failed write.
    fn keep_output(&mut self) -> Result<(), Failed>
        ensures written { (seen self.new).out ≡ (seen self.old).out }
        ensures cause { Counts (seen self.old).write_faults (seen self.new).write_faults result }
        ensures rest { OnlyWritesOut (seen self.old) (seen self.new) };

    /// Writes a prefix of the piece to the report, and says how long it is.
    ///
    /// It is at least one byte of a piece that isn't empty. A failed write writes nothing.
    fn write_report(&mut self, bytes: &[u8]) -> Result<usize, Failed>
        ensures count { IfOk result (λ n. n ≤ length bytes.now) }
        ensures some { 0 < length bytes.now → IfOk result (λ n. 0 < n) }
        ensures written { IfOk result
            (λ n. (seen self.new).report ≡ appended (seen self.old).report (take n bytes.now)) }
        ensures failed { OnErr result ((seen self.new).report ≡ (seen self.old).report) }
        ensures empty { length bytes.now ≡ 0 → result ≡ Ok 0 }
        ensures cause { Counts (seen self.old).write_faults (seen self.new).write_faults result }
        ensures rest { OnlyWritesReport (seen self.old) (seen self.new) };
}
