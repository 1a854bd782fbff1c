//! A directory call that was made, as a `Log` takes it.
ghost use Rattle.std.specs.Prelude.{◌≡◌};
ghost use Rattle.md_jobs.specs.Requests.{request_view};
ghost use Rattle.md_system.specs.Exchanges.{exchange};

use md_dirs::Row;
use md_jobs::{DirReply, Request};
use std::marker::Model;

/// A call, when it was made, what was replied, and of a reading its rows. Contracts see an exchange.
#[derive(Drop)]
pub(crate) struct Entry<'a> {
    request: &'a Request<'a>,
    second: u64,
    reply: DirReply,
    rows: &'a [Row],
}

impl<'a> Model for Entry<'a> {
    ghost use Rattle.md_jobs.specs.Requests.{request_view};
    ghost use Rattle.md_system.specs.Exchanges.{Exchange, exchange};

    ghost Value = { Exchange };

    ghost view = { λ e. exchange (request_view e.request.now) e.second e.reply e.rows.now };
}

impl<'a> Entry<'a> {
    /// A call at a second since 1970, with what was replied.
    pub(crate) fn new(
        request: &'a Request<'a>,
        second: u64,
        reply: DirReply,
        rows: &'a [Row],
    ) -> Self
        ensures { result ≡ exchange (request_view request.now) second reply rows.now }
    {
        Entry {
            request,
            second,
            reply,
            rows,
        }
    }
}
