//! What is laid into a caller's buffer.
ghost use Rattle.std.specs.Prelude.{◌≡◌, ◌≤◌, ◌+◌, ◌++◌, length, take, drop};
ghost use Rattle.md_driven.specs.Laying.{Lays, LaysFront};
ghost use Rattle.md_driven.specs.Numbers.{status_number};

use crate::refusal::Refusal;

/// Copies bytes to the front of a buffer, where it has room for all of them, and sets `whole` to how many they are. Refused `Room`, with
/// the buffer as it was; `whole` is set then too.
pub fn lay(bytes: &[u8], out: &mut [u8], whole: &mut usize) -> Result<(), Refusal>
    ensures { Lays bytes.now out.old out.new whole.new (status_number result) }
{
    *whole = bytes.len();
    if out.len() < bytes.len() {
        return Err(Refusal::Room);
    }
    lay_at(bytes, out, 0);
    Ok(())
}

/// Copies as many bytes to the front of a buffer as it has room for, and gives how many there are.
pub fn lay_front(bytes: &[u8], out: &mut [u8]) -> usize
    ensures { LaysFront bytes.now out.old out.new result }
{
    let count = bytes.len().min(out.len());
    lay_at(&bytes[..count], out, 0);
    bytes.len()
}

/// Copies bytes to a position of a buffer that has room for them there, and gives the position after them.
pub fn lay_at(bytes: &[u8], out: &mut [u8], at: usize) -> usize
    requires { at + length bytes.now ≤ length out.old }
    ensures after { result ≡ at + length bytes.now }
    ensures front { take result out.new ≡ take at out.old ++ bytes.now }
    ensures rest { drop result out.new ≡ drop result out.old }
{
    let after = at + bytes.len();
    out[at..after].copy_from_slice(bytes);
    after
}
