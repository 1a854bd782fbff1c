//! The version of the interface, and the texts of its refusals.
ghost use Rattle.std.specs.Prelude.{◌≡◌, ◌≤◌, ℕ, List};
ghost use Rattle.md_driven.specs.Laying.{LaysFront};
ghost use Rattle.md_driven.specs.Numbers.{IsTextOf};

use md_driven::{lay_front, text_of};

/// The version of the interface.
#[unsafe(no_mangle)]
pub extern "C" fn md_ffi_abi() -> u32
    ensures { result ≡ 1 }
{
    1
}

/// Lays the text of a refusal into `out`, in ASCII, as much as there is room for, and gives its whole length. 0 for a number that is no
/// refusal's.
#[unsafe(no_mangle)]
pub extern "C" fn md_ffi_text(number: u32, out: &mut [u8]) -> usize
    ensures text { (text : List ℕ) × IsTextOf number text × LaysFront text out.old out.new result }
    ensures short { result ≤ 32 }
{
    lay_front(text_of(number).as_bytes(), out)
}
