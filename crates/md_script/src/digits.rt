//! Numbers in decimal, printed without an allocation of their own.
ghost use Rattle.std.specs.Prelude.{◌≡◌, ◌++◌, ◌≤◌, drop, OnOk};
ghost use mathlib.Core.List.{IsPrefix};
ghost use Rattle.std.specs.Fmt.{decimal, signed_decimal};

use itoa::{Buffer, write_digits};
use std::alloc::AllocError;

/// The most digits of a number of 64 bits.
pub(crate) const MOST_DIGITS: usize = 20;

/// Appends a number in decimal and, at once, a text that stands behind room for its digits.
#[inline(always)]
#[tactic(auto, using(crate::proofs::Decimals::short_decimal, md_text::proofs::Growing::grown, md_text::proofs::Growing::grown_if, md_text::proofs::Growing::grown_on))]
pub(crate) fn push_line<const N: usize>(
    out: &mut Vec<u8>,
    number: u64,
    line: [u8; N],
) -> Result<(), AllocError>
    requires { 20 ≤ N }
    ensures text { OnOk result (out.new.items ≡ out.old.items ++ decimal number ++ drop 20 line.entry) }
    ensures kept { IsPrefix out.old.items out.new.items }
{
    let mut line = line;
    let whole = &mut line[..];
    let start = write_digits(number, whole, MOST_DIGITS);
    out.extend_from_slice(&whole[start..])
}

/// Appends a number in decimal, with a minus sign where it is negative.
#[tactic(auto, using(md_text::proofs::Growing::grown, md_text::proofs::Growing::grown_if, md_text::proofs::Growing::grown_on))]
pub(crate) fn push_signed(out: &mut Vec<u8>, number: i64) -> Result<(), AllocError>
    ensures text { OnOk result (out.new.items ≡ out.old.items ++ signed_decimal number) }
    ensures kept { IsPrefix out.old.items out.new.items }
{
    let mut buffer = Buffer::new();
    out.extend_from_slice(buffer.format(number).as_bytes())
}
