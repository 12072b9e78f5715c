//! The text of a sheet.
ghost use Rattle.std.specs.Prelude.{◌≡◌, ◌++◌, [], IfOk, true, is_ok, string_bytes, codes};
ghost use Rattle.std.specs.Prelude.{◌-◌, ◌||◌, nat_le, encode_utf8};
ghost use Rattle.std.specs.Str.{chars};
ghost use Rattle.chart.specs.Counts.{comma_before, thousands_text, count_text};
ghost use Rattle.chart.specs.Texts.{Puts, attribute_text, words_tag, width_of, width, escaped};
ghost use Rattle.chart.specs.Texts.{name_text};

use itoa::{Buffer, Integer};
use std::alloc::{AllocError, Global};

/// The look of small print.
pub const SMALL: &str = "font-size=\"22\" fill=\"#444\"";

/// The look of a panel's title.
pub const TITLE: &str = "font-size=\"26\" font-weight=\"bold\" fill=\"#111\"";

/// The look of what is said of a mark.
pub const MARKED: &str = "font-size=\"22\" font-weight=\"bold\" fill=\"#a0001c\"";

/// The look of small print that ends at its place.
pub const SMALL_END: &str = "font-size=\"22\" fill=\"#444\" text-anchor=\"end\"";

/// How many letters of a name are shown. A wide letter counts as two.
const NAME_LETTERS: usize = 70;

/// A text that is being made. Once there is no memory, nothing more is put, and `finish` tells it.
#[derive(Drop)]
pub struct Canvas {
    text: String,
    outcome: Result<(), AllocError>,
}

impl Canvas {
    /// No text.
    pub fn new(alloc: Global) -> Canvas
        ensures empty { string_bytes result.text ≡ [] }
        ensures memory { is_ok result.outcome ≡ true }
    {
        Canvas {
            text: String::new(alloc),
            outcome: Ok(()),
        }
    }

    /// The whole text.
    pub fn finish(self) -> Result<String, AllocError>
        ensures { IfOk result (λ text. (is_ok self.outcome ≡ true)
            × (text ≡ self.text)) }
    {
        match self.outcome {
            Ok(()) => Ok(self.text),
            Err(fault) => Err(fault),
        }
    }

    /// Puts a text that needs no escapes last.
    pub fn put(&mut self, text: &str)
        ensures { Puts self.old self.new text.now }
    {
        if self.outcome.is_ok() {
            self.outcome = self.text.push_str(text);
        }
    }

    fn put_letter(&mut self, letter: char)
        ensures { Puts self.old self.new (encode_utf8 letter) }
    {
        if self.outcome.is_ok() {
            self.outcome = self.text.push(letter);
        }
    }

    /// Puts a number's decimal digits last.
    pub fn number<I: Integer>(&mut self, number: I)
        ensures { Puts self.old self.new (I.text number) }
    {
        let mut buffer = Buffer::new();
        self.put(buffer.format(number));
    }

    /// Puts a number last, with a comma between thousands.
    pub fn thousands<I: Integer>(&mut self, number: I)
        ensures { Puts self.old self.new (thousands_text (I.text number)) }
    {
        let mut buffer = Buffer::new();
        let digits = buffer.format(number);
        let mut left = digits.len();
        for digit in digits.as_bytes() {
            self.put_letter(char::from(*digit));
            left -= 1;
            self.put_comma(left);
        }
    }

    // Puts a comma before so many digits that are left of a number, where one stands there.
    fn put_comma(&mut self, left: usize)
        ensures { Puts self.old self.new (comma_before left) }
    {
        if left > 0 && left % 3 == 0 {
            self.put(",");
        }
    }

    /// Puts a number of things last, as `1 block` or `1,200 blocks`, by the name of one and of
    /// several.
    pub fn count(&mut self, number: usize, one: &str, several: &str)
        ensures { Puts self.old self.new (count_text number one.now several.now) }
    {
        self.thousands(number);
        self.put(" ");
        self.put(if number == 1 { one } else { several });
    }

    /// Puts an attribute with a number last, behind its name.
    pub fn attribute(&mut self, name: &str, number: usize)
        ensures { Puts self.old self.new (attribute_text name.now number) }
    {
        self.put(" ");
        self.put(name);
        self.put("=\"");
        self.number(number);
        self.put("\"");
    }

    /// Begins a line of words at a place: its words follow, and then `end_words`.
    pub fn begin_words(&mut self, x: usize, y: usize, look: &str)
        ensures { Puts self.old self.new (words_tag x y look.now) }
    {
        self.put("<text");
        self.attribute("x", x);
        self.attribute("y", y);
        self.put(" ");
        self.put(look);
        self.put(">");
    }

    /// Ends a line of words.
    pub fn end_words(&mut self)
        ensures { Puts self.old self.new (codes "</text>\n") }
    {
        self.put("</text>\n");
    }

    /// Puts a line of fixed words.
    pub fn words(&mut self, x: usize, y: usize, look: &str, words: &str)
        ensures { Puts self.old self.new
            (words_tag x y look.now ++ words.now ++ codes "</text>\n") }
    {
        self.begin_words(x, y, look);
        self.put(words);
        self.end_words();
    }

    /// Puts a ring round a place.
    pub fn ring(&mut self, x: usize, y: usize)
        ensures { Puts self.old self.new (codes "<circle"
            ++ attribute_text (codes "cx") x ++ attribute_text (codes "cy") y
            ++ codes " r=\"9\" fill=\"none\" stroke=\"#a0001c\" stroke-width=\"4\"/>\n") }
    {
        self.put("<circle");
        self.attribute("cx", x);
        self.attribute("cy", y);
        self.put(" r=\"9\" fill=\"none\" stroke=\"#a0001c\" stroke-width=\"4\"/>\n");
    }

    /// Puts a name last, escaped. Of a long one it is the beginning and the end.
    pub fn name(&mut self, name: &str)
        ensures { Puts self.old self.new (name_text (chars name.now)) }
    {
        let whole = letters_of(name);
        let mut before = 0usize;
        let mut is_cut = false;
        for letter in name.chars() {
            let end = before.saturating_add(width_of(letter));
            if is_shown(before, end, whole) {
                self.escaped(letter);
            } else if !is_cut {
                self.put_letter('\u{2026}');
                is_cut = true;
            }
            before = end;
        }
    }

    // Puts a letter of a name. What can't be shown, or must not stand in XML, is the replacement
    // character.
    fn escaped(&mut self, letter: char)
        ensures { Puts self.old self.new (escaped letter) }
    {
        match letter {
            '&' => self.put("&amp;"),
            '<' => self.put("&lt;"),
            '>' => self.put("&gt;"),
            '"' => self.put("&quot;"),
            '\'' => self.put("&apos;"),
            '\u{0}'..='\u{1f}' | '\u{7f}'..='\u{9f}' | '\u{fffe}' | '\u{ffff}' => {
                self.put_letter('\u{fffd}')
            }
            _ => self.put_letter(letter),
        }
    }
}

// How wide a letter may be.
fn width_of(letter: char) -> usize
    ensures { result ≡ width_of letter }
{
    if letter.is_ascii() { 1 } else { 2 }
}

// How wide a name may be.
fn letters_of(name: &str) -> usize
    ensures { result ≡ width (chars name.now) }
{
    let mut letters = 0usize;
    for letter in name.chars() {
        letters = letters.saturating_add(width_of(letter));
    }
    letters
}

// Whether a letter from `before` to `end` of a name is shown: it is in a short name, or in the
// first or the last half of what is shown of a long one.
fn is_shown(before: usize, end: usize, whole: usize) -> bool
    ensures { result ≡ (nat_le whole 70 || nat_le end 35 || nat_le (whole - 33) before) }
{
    whole <= NAME_LETTERS
        || end <= NAME_LETTERS / 2
        || before >= whole.saturating_sub(NAME_LETTERS / 2 - 2)
}
