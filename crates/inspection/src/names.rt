//! Files' names in sentences, and why the system didn't do what it was asked for.
ghost use Rattle.std.specs.Prelude.{◌≡◌, ◌≢◌, codes};

use std::fmt;
use std::io::ErrorKind;

/// A file's name as it can be shown: control characters can't move the cursor, nor end the line.
#[derive(Clone, Copy)]
pub struct Name<'a> {
    pub text: &'a str,
}

impl fmt::Display for Name<'_> {
    fn fmt<W: fmt::Write>(&self, f: &mut fmt::Formatter<W>) -> fmt::Result {
        for letter in self.text.chars() {
            if letter.is_control() {
                write!(f, "?")?;
            } else {
                write!(f, "{letter}")?;
            }
        }
        Ok(())
    }
}

/// The name of an input that is standard input, and of an output that is standard output.
pub const STANDARD_STREAM: &str = "-";

/// An input's name as it is told.
pub fn input_name(name: &str) -> Name<'_>
    ensures stream { name.now ≡ codes "-" → result.text.now ≡ codes "standard input" }
    ensures file { name.now ≢ codes "-" → result.text.now ≡ name.now }
{
    if name == STANDARD_STREAM {
        Name {
            text: "standard input",
        }
    } else {
        Name { text: name }
    }
}

/// An output's name as it is told.
pub fn output_name(name: &str) -> Name<'_>
    ensures stream { name.now ≡ codes "-" → result.text.now ≡ codes "standard output" }
    ensures file { name.now ≢ codes "-" → result.text.now ≡ name.now }
{
    if name == STANDARD_STREAM {
        Name {
            text: "standard output",
        }
    } else {
        Name { text: name }
    }
}

/// A call of the system on a file that has failed.
#[derive(Drop)]
pub struct Failure {
    /// The file's name, as it is told.
    pub name: String,
    pub kind: ErrorKind,
    /// The system's own words.
    pub reason: String,
}

impl fmt::Display for Failure {
    fn fmt<W: fmt::Write>(&self, f: &mut fmt::Formatter<W>) -> fmt::Result {
        let name = Name {
            text: self.name.as_str(),
        };
        let reason = self.reason.as_str();
        write!(f, "{name}: {reason}")
    }
}
