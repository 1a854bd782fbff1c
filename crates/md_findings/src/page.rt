//! Findings that are gathered before they are printed.

use crate::fault::Fault;
use crate::json::push_json;
use crate::shown::Shown;
use crate::summary::Tally;
use crate::text::{push_long, push_short};
use crate::words::Form;
use md_command::{Host, Session, print};
use std::alloc::{AllocError, Global};

// As many bytes are gathered before they are written.
const FULL: usize = 65_536;

/// Findings in the form that was asked for.
#[derive(Drop)]
pub(crate) struct Page {
    alloc: Global,
    form: Form,
    text: Vec<u8>,
    tally: Tally,
}

impl Page {
    /// A page with no finding; the tally has the clauses that there may be findings of.
    pub(crate) fn new(alloc: Global, form: Form, tally: Tally) -> Page {
        Page {
            alloc,
            form,
            text: Vec::new(alloc),
            tally,
        }
    }

    /// Adds a finding, and prints what was gathered if that is much.
    pub(crate) fn put<R: Host>(
        &mut self,
        session: &Session<'_, R>,
        shown: &Shown<'_>,
    ) -> Result<(), Fault> {
        self.push(shown)?;
        if self.text.len() < FULL {
            return Ok(());
        }
        self.print(session)
    }

    /// Prints what is left. There is no finding more.
    pub(crate) fn end<R: Host>(&mut self, session: &Session<'_, R>) -> Result<(), Fault> {
        if let Form::Summary = self.form {
            self.tally.push_lines(&mut self.text)?;
        }
        self.print(session)
    }

    // Prints what was gathered.
    fn print<R: Host>(&mut self, session: &Session<'_, R>) -> Result<(), Fault> {
        let printed = print(session, &self.text);
        self.text.clear();
        match printed {
            Ok(()) => Ok(()),
            Err(_) => Err(Fault::Write),
        }
    }

    fn push(&mut self, shown: &Shown<'_>) -> Result<(), AllocError> {
        match self.form {
            Form::People => push_long(&mut self.text, shown),
            Form::Lines => push_short(&mut self.text, shown),
            Form::Json => push_json(self.alloc, &mut self.text, shown),
            Form::Summary => {
                self.tally.add(shown.clause, shown.line);
                Ok(())
            }
        }
    }
}
