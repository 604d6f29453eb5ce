// The line that tells one cut, as text of its own and in a caller's buffer.
#![tactic(auto)]

ghost use Rattle.std.specs.Prelude.{◌≡◌, ◌+◌, ◌*◌, ◌<◌, ◌≤◌, [], ◌∷◌, ◌++◌, length};
ghost use Rattle.arrayvec.specs.ArrayString.{array_string_len};
ghost use Rattle.sets.specs.Masks.{members};
ghost use Rattle.cut_line.specs.Cuts.{spaced, cut_line, cut_written, cut_length};

use arrayvec::ArrayString;
use refusals::study_fault::StudyFault;
use sets::set::{BranchSet, NodeSet, Set};
use sets::width::Width;

/// Every line has room in this: 3 bytes for each of 64 branches and of 32 nodes, and 6 more.
pub type Line = ArrayString<320>;

// Appends a space and a number of at most two digits.
fn push_number(line: &mut Line, n: u32)
    requires room { array_string_len line.old + 3 ≤ 320 }
    requires small { n < 100 }
    ensures { line.new.bytes ≡ line.old.bytes ++ spaced (n ∷ []) }
{
    line.push(' ');
    line.push_str(itoa::Buffer::new().format(n));
}

// Appends the members of a set, rising, each after a space.
fn push_members<W: Width>(line: &mut Line, set: Set<W>)
    requires { array_string_len line.old + 3 * W.BITS ≤ 320 }
    ensures few { array_string_len line.new ≤ array_string_len line.old + 3 * W.BITS }
    ensures bytes { line.new.bytes ≡ line.old.bytes ++ spaced (members W.BITS set) }
{
    for k in set {
        push_number(line, k);
    }
}

/// The CUT line of a branch set and a node vector, with its byte 10.
// Stays a pair of bare words, here and in write_cut: a shown row is handed on as the rules fix it, (u64, u32).
pub fn line_of(branches: u64, nodes: u32) -> Line
    ensures { result.bytes ≡ cut_line branches nodes }
{
    let mut line = Line::new();
    line.push_str("CUT");
    push_members(&mut line, BranchSet::from(branches));
    line.push_str(" /");
    push_members(&mut line, NodeSet::from(nodes));
    line.push('\n');
    line
}

/// Writes the CUT line into a buffer, and answers its length. A buffer of fewer than 320 bytes is refused with 13 and stays
/// as it was; the bytes after the line stay in any case.
pub fn write_cut(out: &mut [u8], branches: u64, nodes: u32) -> Result<usize, StudyFault>
    ensures answer { result ≡ cut_length branches nodes (length out.old) }
    ensures bytes { out.new ≡ cut_written branches nodes out.old }
{
    if out.len() < 320 {
        return Err(StudyFault::Buffer);
    }
    let line = line_of(branches, nodes);
    let bytes = line.as_str().as_bytes();
    out[..bytes.len()].copy_from_slice(bytes);
    Ok(bytes.len())
}
