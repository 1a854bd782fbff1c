//! A summary of a mail message's header: the values of its Subject, From, Message-ID and Date fields, and the instant of the date.
//!
//! The header is read by the rules of RFC 5322, with white space before a field's colon as in its obsolete syntax (4.5), and no message is
//! refused: what is no field is passed over.
//! Values are bytes, as they are in the message: encoded words and charsets are left as they are.
#![tactic(auto)]

mod body;
mod date;
mod error;
mod field;
mod header;
pub mod laws;
mod line;
mod read;
mod shown;

pub use body::FieldBody;
pub use error::HeadError;
pub use header::{HeaderFields, header_fields};
pub use line::cut_line;
pub use read::summary;
pub use shown::Summary;
