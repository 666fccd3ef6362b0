//! The cases of one section: rows, or one case over many lines.

use crate::case::{Case, CaseError, wrong};
use crate::escapes::without_escapes;
use crate::options::Options;
use std::alloc::{AllocError, Global};

/// A line of a file, with its number.
#[derive(Clone, Copy)]
pub(crate) struct Line<'a> {
    pub(crate) number: usize,
    pub(crate) text: &'a str,
}

// The line between a source and its answer.
const BETWEEN: &str = "---";

/// The cases that are on the lines after a title.
pub(crate) fn cases_of(
    alloc: Global,
    title: usize,
    options: &Options,
    lines: &[Line<'_>],
) -> Result<Vec<Case>, CaseError> {
    let mut cases = if is_long(lines) {
        one_case(alloc, title, lines)?
    } else {
        row_cases(alloc, lines)?
    };
    for case in cases.iter_mut() {
        prepare(alloc, options, case)?;
    }
    if cases.is_empty() {
        return wrong(title, "a title without a case");
    }
    Ok(cases)
}

// Whether the source and the answer are parted by a line.
fn is_long(lines: &[Line<'_>]) -> bool {
    for line in lines {
        if line.text == BETWEEN {
            return true;
        }
    }
    false
}

fn push_line(text: &mut String, line: &str) -> Result<(), AllocError> {
    text.push_str(line)?;
    text.push_str("\n")
}

// The one case of these lines. The first line `---` is between its source and its answer.
fn one_case(alloc: Global, title: usize, lines: &[Line<'_>]) -> Result<Vec<Case>, CaseError> {
    let mut source = String::new(alloc);
    let mut expected = String::new(alloc);
    let mut is_after = false;
    for line in lines {
        if is_after {
            push_line(&mut expected, line.text)?;
        } else if line.text == BETWEEN {
            is_after = true;
        } else {
            push_line(&mut source, line.text)?;
        }
    }
    let line = match lines.first() {
        Some(first) => first.number,
        None => title,
    };
    let case = Case {
        line,
        source: without_last(alloc, source.as_str())?,
        expected: String::from_str(alloc, expected.as_str().trim_end_matches('\n'))?,
    };
    let mut cases = Vec::new(alloc);
    cases.push(case)?;
    Ok(cases)
}

// The text without the line feed at its end.
fn without_last(alloc: Global, text: &str) -> Result<String, AllocError> {
    String::from_str(alloc, text.strip_suffix("\n").unwrap_or(text))
}

// What is read of rows.
#[derive(Drop)]
struct Rows {
    done: Vec<Case>,
    // A source whose answer is to come, and its line.
    source: Option<(usize, String)>,
    // Whether a line of an answer may follow.
    is_answered: bool,
}

fn row_cases(alloc: Global, lines: &[Line<'_>]) -> Result<Vec<Case>, CaseError> {
    let mut read = Rows {
        done: Vec::new(alloc),
        source: None,
        is_answered: false,
    };
    for line in lines {
        read.take(alloc, line.number, line.text)?;
    }
    match read.source {
        Some((number, _)) => wrong(number, "a case without an end"),
        None => Ok(read.done),
    }
}

impl Rows {
    fn take(&mut self, alloc: Global, number: usize, text: &str) -> Result<(), CaseError> {
        if let Some(answer) = continued(text) {
            return self.answer(alloc, number, answer);
        }
        if let Some((open, _)) = &self.source {
            return wrong(*open, "a case without an end");
        }
        self.is_answered = false;
        if text.is_empty() {
            return Ok(());
        }
        self.begin(alloc, number, text)
    }

    // A line of the answer to the source before.
    fn answer(&mut self, alloc: Global, number: usize, answer: &str) -> Result<(), CaseError> {
        if let Some((line, source)) = self.source.take() {
            return self.push(alloc, line, source, answer);
        }
        if !self.is_answered {
            return wrong(number, "an answer without a source");
        }
        if let Some(last) = self.done.last_mut() {
            last.expected.push_str("\n")?;
            last.expected.push_str(answer)?;
        }
        Ok(())
    }

    // A source, with its answer or before it.
    fn begin(&mut self, alloc: Global, number: usize, text: &str) -> Result<(), CaseError> {
        match parts(text) {
            Some((source, answer)) => {
                let source = String::from_str(alloc, source)?;
                self.push(alloc, number, source, answer)
            }
            None => {
                self.source = Some((number, String::from_str(alloc, text)?));
                Ok(())
            }
        }
    }

    fn push(
        &mut self,
        alloc: Global,
        line: usize,
        source: String,
        answer: &str,
    ) -> Result<(), CaseError> {
        let expected = String::from_str(alloc, answer)?;
        self.done.push(Case {
            line,
            source,
            expected,
        })?;
        self.is_answered = true;
        Ok(())
    }
}

// The answer on a line of its own.
fn continued(text: &str) -> Option<&str> {
    if text == "=>" {
        return Some("");
    }
    text.strip_prefix("=> ")
}

// The source and the answer on one line.
fn parts(text: &str) -> Option<(&str, &str)> {
    match text.split_once(" => ") {
        Some(both) => Some(both),
        None => {
            let source = text.strip_suffix(" =>")?;
            Some((source, ""))
        }
    }
}

// The text without its escapes.
fn plain(alloc: Global, line: usize, text: &str) -> Result<String, CaseError> {
    match without_escapes(alloc, text)? {
        Some(plain) => Ok(plain),
        None => wrong(line, "an escape that is unknown"),
    }
}

// Takes the escapes out of the source, and of a text that is shown of it, and puts in what is repeated.
fn prepare(alloc: Global, options: &Options, case: &mut Case) -> Result<(), CaseError> {
    if options.escapes {
        case.source = plain(alloc, case.line, case.source.as_str())?;
        if options.shown.is_text() {
            case.expected = plain(alloc, case.line, case.expected.as_str())?;
        }
    }
    for repeat in &options.repeats {
        let name = repeat.name.as_str();
        case.source = case
            .source
            .as_str()
            .replace(alloc, name, repeat.text.as_str())?;
        case.expected = case
            .expected
            .as_str()
            .replace(alloc, name, repeat.text.as_str())?;
    }
    Ok(())
}
