//! The lines of a transcript, told by how they begin.

/// What a line says.
#[derive(Clone, Copy)]
pub(crate) enum Line<'a> {
    /// `#`, or nothing at all: it is for readers.
    Comment,
    /// `< NAME`: this file is given to the commands from here on.
    Given(&'a str),
    /// `$ WORDS`: a command is run.
    Command(&'a str),
    /// `| TEXT`: the command prints this line.
    Output(&'a str),
    /// `! TEXT`: the command prints this line on standard error.
    Refusal(&'a str),
    /// `= NUMBER`: the command's exit status, where it isn't 0.
    Status(&'a str),
    /// `> NAME` or `> NAME = OTHER`: the command creates this file, in the second form with the
    /// bytes of a given one.
    Created(&'a str),
    /// Two blanks: bytes in hex of the file that is named before.
    Bytes(&'a str),
}

/// Reads a line: its mark, and its text behind a blank. A line without text is its mark alone.
pub(crate) fn read_line(line: &str) -> Option<Line<'_>> {
    let mut letters = line.chars();
    let mark = match letters.next() {
        None | Some('#') => return Some(Line::Comment),
        Some(mark) => mark,
    };
    let text = match letters.next() {
        None | Some(' ') => letters.as_str(),
        Some(_) => return None,
    };
    match mark {
        '<' => Some(Line::Given(text)),
        '$' => Some(Line::Command(text)),
        '|' => Some(Line::Output(text)),
        '!' => Some(Line::Refusal(text)),
        '=' => Some(Line::Status(text)),
        '>' => Some(Line::Created(text)),
        ' ' => Some(Line::Bytes(text)),
        _ => None,
    }
}
