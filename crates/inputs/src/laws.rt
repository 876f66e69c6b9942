//! What the words of a trace are, and at which byte of its file a system stream is at fault.

ghost use Rattle.std.specs.Prelude.{◌≡◌, ◌<◌, ◌^◌, ℕ, List, All};
ghost use Rattle.sys_demux.specs.declared.faults.SystemFault.{SystemFault};
ghost use Rattle.inputs.specs.InputLaws.{AreWithinLimits, IsFaultInFile, trace_text};
ghost use Rattle.inputs.specs.Traces.{AreSeparated, IsTraceText, Token, tokens_from};
ghost use Rattle.inputs.specs.Videos.{IsStreamFault};

/// The tokens of a text are the words in it, each with its place: none is empty, none has white
/// space in it, and there is only white space between them, before the first and after the last. No
/// other list satisfies this.
pub fn law_tokens_are_the_words_of_a_text()
    ensures are { (text : List ℕ) → AreSeparated 0 text (tokens_from 0 text) }
    ensures only { (text : List ℕ) (tokens : List Token) → AreSeparated 0 text tokens →
        tokens ≡ tokens_from 0 text }
{}

/// Sizes that are written line by line are read as these sizes, and as a trace exactly where they
/// are at most 1,000,000, each at most 4,294,967,296 and all together at most 1,099,511,627,776.
pub fn law_trace_lines_are_read_back()
    ensures read { (sizes : List ℕ) → AreWithinLimits sizes → IsTraceText (trace_text sizes) sizes }
    ensures within { (sizes read : List ℕ) → All (λ size. size < 2 ^ 64) sizes →
        IsTraceText (trace_text sizes) read → AreWithinLimits sizes }
    ensures same { (sizes read : List ℕ) → All (λ size. size < 2 ^ 64) sizes →
        IsTraceText (trace_text sizes) read → read ≡ sizes }
{}

/// The fault of a file is that of the system stream in it, at the same bytes: its place counts from
/// the file's first byte.
pub fn law_stream_fault_counts_from_the_file()
    ensures { (file : List ℕ) (fault : SystemFault) → IsStreamFault file fault →
        IsFaultInFile file fault }
{}
