//! The line that a refused run says on standard error, made without an allocation, since memory may be what is refused.
ghost use Rattle.std.specs.Prelude.{◌≡◌, ◌+◌, ◌≤◌, ◌++◌, length};
ghost use Rattle.arrayvec.specs.ArrayVec.{array_vec_len};
ghost use Rattle.maildir_cli.specs.Program.{refusal_line};

use arrayvec::ArrayVec;
use itoa::Buffer;
use md_runs::RunFault;

/// Room for the longest line of a refusal.
const MOST_BYTES: usize = 64;

/// `line N: TEXT` and a line feed.
pub(crate) fn refusal_line(fault: RunFault) -> ArrayVec<u8, MOST_BYTES>
    ensures { result.items ≡ refusal_line fault }
{
    let mut number = Buffer::new();
    let mut line = ArrayVec::new();
    push(&mut line, b"line ");
    push(&mut line, number.format(fault.line()).as_bytes());
    push(&mut line, b": ");
    push(&mut line, fault.text().as_bytes());
    push(&mut line, b"\n");
    line
}

/// Appends bytes for which there is room.
fn push(line: &mut ArrayVec<u8, MOST_BYTES>, bytes: &[u8])
    requires { array_vec_len line.old + length bytes.now ≤ MOST_BYTES }
    ensures items { line.new.items ≡ line.old.items ++ bytes.now }
    ensures len { array_vec_len line.new ≡ array_vec_len line.old + length bytes.now }
{
    let _fits = line.try_extend_from_slice(bytes);
}
