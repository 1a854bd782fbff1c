//! What a summary shows.
use md_name::Bytes;

/// The values of the first Subject, From, Message-ID and Date field in a message's header section (RFC 5322, 3.6), and the instant of the
/// date. Each value is unfolded (2.2.3), without the white space at both ends; none where there is no such field, and of no bytes where
/// its body is empty.
#[derive(Debug, Drop)]
pub struct Summary {
    pub subject: Option<Bytes>,
    pub from: Option<Bytes>,
    pub message_id: Option<Bytes>,
    pub date: Option<Bytes>,
    /// The instant of `date`, in whole seconds since 1970-01-01 00:00:00 UTC, where it is UTF-8 and a date of RFC 2822 by jiff's strict
    /// reader, which refuses a weekday that doesn't match.
    pub seconds: Option<i64>,
}
