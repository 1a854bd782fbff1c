//! Laws of the header summary. Each function does nothing: its contract is the law.
ghost use Rattle.md_head.specs.Laws.{OneSummary, BodyIsNotRead, OtherLinesArePassedOver, FirstFieldWins, NameCaseDoesNotMatter, LineEndsAgree};

/// Each text has exactly one summary by the rules, and `summary_of` is it.
pub fn one_summary()
    ensures { OneSummary }
{}

/// Bytes after the first empty line don't matter (RFC 5322, 2.1).
pub fn body_is_not_read()
    ensures { BodyIsNotRead }
{}

/// Lines that are neither empty nor fields don't matter in front of a text, with their continuations.
pub fn other_lines_are_passed_over()
    ensures { OtherLinesArePassedOver }
{}

/// Later fields of a name don't matter where there is an earlier one.
pub fn first_field_wins()
    ensures { FirstFieldWins }
{}

/// The case of a field's name doesn't matter (RFC 5322, 1.2.2).
pub fn name_case_does_not_matter()
    ensures { NameCaseDoesNotMatter }
{}

/// Line ends by LF and by CRLF give the same summary where there is no other CR.
pub fn line_ends_agree()
    ensures { LineEndsAgree }
{}
