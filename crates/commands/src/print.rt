//! Printed lines.
ghost use Rattle.std.specs.Prelude.{◌≡◌, ◌++◌, [], true, OnErr, OnOk};
ghost use Rattle.std.specs.Io.KnownBytes.{Appends};
ghost use Rattle.host.specs.World.{KeepsFiles};
ghost use Rattle.commands.specs.Lines.{line_of, named, short_text};

use host::Host;
use itoa::{Buffer, Integer};
use session::Failed;
use std::alloc::{AllocError, Global};
use std::marker::Model;

/// The text of a line, or of several, that is being made.
#[derive(Drop)]
pub struct Text {
    bytes: Vec<u8>,
}

impl Model for Text {
    ghost use Rattle.std.specs.Prelude.{List, ℕ};

    ghost Value = { List ℕ };

    ghost view = { λ l. l.bytes.items };
}

impl Text {
    /// No text.
    pub fn new(alloc: Global) -> Text
        ensures { result ≡ [] }
    {
        Text {
            bytes: Vec::new(alloc),
        }
    }

    /// Puts a text last.
    pub fn text(&mut self, text: &str) -> Result<(), AllocError>
        ensures ok { OnOk result (self.new ≡ self.old ++ text.now) }
        ensures err { OnErr result (self.new ≡ self.old) }
    {
        self.bytes.extend_from_slice(text.as_bytes())
    }

    /// Puts a number's decimal digits last.
    pub fn number<I: Integer>(&mut self, number: I) -> Result<(), AllocError>
        ensures ok { OnOk result (self.new ≡ self.old ++ I.text number) }
        ensures err { OnErr result (self.new ≡ self.old) }
    {
        let mut buffer = Buffer::new();
        self.bytes
            .extend_from_slice(buffer.format(number).as_bytes())
    }

    /// Puts a text, a space and a number last. Where memory lacks, nothing is promised of the text.
    pub fn named<I: Integer>(&mut self, name: &str, number: I) -> Result<(), AllocError>
        ensures { OnOk result (self.new ≡ self.old ++ named name.now (I.text number)) }
    {
        self.text(name)?;
        self.text(" ")?;
        self.number(number)
    }

    /// Puts a block last, how many symbols of it there are and how many it needs. Where memory
    /// lacks, nothing is promised of the text.
    pub fn short_block(
        &mut self,
        name: &str,
        block: u32,
        have: usize,
        need: usize,
    ) -> Result<(), AllocError>
        ensures { OnOk result (self.new ≡ self.old ++ short_text name.now block have need) }
    {
        self.named(name, block)?;
        self.named(" have", have)?;
        self.named(" need", need)
    }

    /// Puts a line last, with its line feed. Where memory lacks, nothing is promised of the text.
    pub fn put_line(&mut self, line: &Text) -> Result<(), AllocError>
        ensures { OnOk result (self.new ≡ self.old ++ line_of line.now) }
    {
        self.bytes.extend_from_slice(line.bytes.as_slice())?;
        self.end_line()
    }

    /// Puts a line feed last.
    pub fn end_line(&mut self) -> Result<(), AllocError>
        ensures ok { OnOk result (self.new ≡ line_of self.old) }
        ensures err { OnErr result (self.new ≡ self.old) }
    {
        self.bytes.push(b'\n')?;
        Ok(())
    }

    /// Prints it. Takes no memory.
    pub fn print<H: Host>(&self, host: &mut H) -> Result<(), Failed>
        ensures printed { OnOk result (Appends (H.world host.old).printed
            (H.world host.new).printed self.now) }
        ensures fails { OnErr result ((H.world host.new).failed ≡ true) }
        ensures files { KeepsFiles (H.world host.old) (H.world host.new) }
    {
        host.print(self.bytes.as_slice())
    }
}

/// Prints a line that counts something: a name, the number behind a space, and of what. Takes no
/// memory.
pub fn print_count<I: Integer, H: Host>(
    host: &mut H,
    name: &str,
    count: I,
    of: &str,
) -> Result<(), Failed>
    ensures printed { OnOk result (Appends (H.world host.old).printed (H.world host.new).printed
        (line_of (named name.now (I.text count) ++ of.now))) }
    ensures fails { OnErr result ((H.world host.new).failed ≡ true) }
    ensures files { KeepsFiles (H.world host.old) (H.world host.new) }
{
    let mut buffer = Buffer::new();
    let digits = buffer.format(count);
    host.print(name.as_bytes())?;
    host.print(b" ")?;
    host.print(digits.as_bytes())?;
    host.print(of.as_bytes())?;
    host.print(b"\n")
}
