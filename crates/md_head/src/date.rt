//! The instant of a date.
ghost use Rattle.std.specs.Prelude.{◌≡◌};
ghost use Rattle.md_head.specs.Dates.{seconds_of_date};

use jiff::fmt::rfc2822::DateTimeParser;

/// The instant of an RFC 2822 date, in whole seconds since 1970-01-01 00:00:00 UTC. None where the bytes are no UTF-8, or no such date.
pub(crate) fn seconds_of(date: &[u8]) -> Option<i64>
    ensures { result ≡ seconds_of_date date.now }
{
    let Ok(text) = str::from_utf8(date) else {
        return None;
    };
    let instant = DateTimeParser::new().parse_timestamp(text.as_bytes()).ok()?;
    Some(instant.floor_second())
}
