// A line of text as a command for a desk. The lines, with one or more spaces between words:
//
//     i PLACE SIGN     insert a sign          t                show the text
//     s PLACE          strike a sign          k KEY            show a key
//     w KEY WORD       write under a key      send DESK FILE   a letter for a desk, to a file
//     a KEY AMOUNT     add to a key's tally   read DESK FILE   a letter from a desk, from a file
//
// SIGN is one character, or # and its number; FILE is the rest of the line; all else is decimal. A line is read from left to right, and the first
// thing that is wrong with it is its fault. `specs/Lines.antt` says for every line what is read, and `specs/Printed.antt` how a command is printed as a
// line, which is read again as the command.
#![tactic(auto)]

ghost use Rattle.std.specs.Prelude.{◌≡◌, ℕ, Option, ◌+◌, ◌-◌, ◌*◌, ◌^◌, ◌<◌, true, Some};
ghost use Rattle.std.specs.Option.{SomeIff};
ghost use Rattle.std.specs.Fn.{FnOnceReturnsAt};
ghost use Rattle.std.specs.Char.{is_ascii_digit};
ghost use Rattle.std.specs.Str.{chars as decodes};
ghost use Rattle.commands.specs.Words.{past_spaces, up_to_spaces, first_of, rest_of};
ghost use Rattle.commands.specs.Numbers.{number_of, only, sign_of};
ghost use Rattle.commands.specs.Lines.{said, if_said, with_ok, Takes, ended, one_number, two_numbers, number_and_sign, number_and_file, command_of, line_says};
ghost use Rattle.commands.specs.Texts.{fault_text};
ghost use Rattle.commands.specs.Printed.{text_of, ParsesBack};

use std::error::Error;
use std::fmt;

#[derive(Clone, Copy, Debug, PartialEq, Eq)]
pub enum Command<'a> {
    Insert { place: u64, sign: u64 },
    Strike { place: u64 },
    Write { key: u64, word: u64 },
    Add { key: u64, amount: u64 },
    ShowText,
    ShowKey { key: u64 },
    Send { desk: u64, file: &'a str },
    Read { desk: u64, file: &'a str },
}

#[derive(Clone, Copy, Debug, PartialEq, Eq)]
pub enum Fault {
    NotACommand,
    NotANumber,
    NotASign,
    NoFile,
    TooManyWords,
}

impl Fault {
    fn words(self) -> &'static str
        ensures { result.now ≡ fault_text self }
    {
        match self {
            Fault::NotACommand => "not a command",
            Fault::NotANumber => "not a number",
            Fault::NotASign => "not a sign",
            Fault::NoFile => "no file is named",
            Fault::TooManyWords => "too many words",
        }
    }
}

impl fmt::Display for Fault {
    ghost output = { λ fault. Some (fault_text fault) };

    fn fmt<W: fmt::Write>(&self, f: &mut fmt::Formatter<W>) -> fmt::Result {
        f.write_str(self.words())
    }
}

impl Error for Fault {}

// A command as the line that says it. A sign is printed as its number, since a space, as a character, could not be read again.
impl fmt::Display for Command<'_> {
    ghost output = { λ command. Some (text_of (said command)) };

    fn fmt<W: fmt::Write>(&self, f: &mut fmt::Formatter<W>) -> fmt::Result {
        match *self {
            Command::Insert { place, sign } => write!(f, "i {place} #{sign}"),
            Command::Strike { place } => write!(f, "s {place}"),
            Command::Write { key, word } => write!(f, "w {key} {word}"),
            Command::Add { key, amount } => write!(f, "a {key} {amount}"),
            Command::ShowText => f.write_str("t"),
            Command::ShowKey { key } => write!(f, "k {key}"),
            Command::Send { desk, file } => write!(f, "send {desk} {file}"),
            Command::Read { desk, file } => write!(f, "read {desk} {file}"),
        }
    }
}

// A text without the spaces at its start.
pub fn past_spaces(text: &str) -> &str
    ensures { result.now ≡ past_spaces text.now }
{
    text.trim_start_matches(' ')
}

// A text without the spaces at its end.
pub fn up_to_spaces(text: &str) -> &str
    ensures { result.now ≡ up_to_spaces text.now }
{
    text.trim_end_matches(' ')
}

// The first word, and what begins with the next.
pub fn split_word(text: &str) -> (&str, &str)
    ensures { (result.0.now ≡ first_of text.now) × (result.1.now ≡ rest_of text.now) }
{
    match text.split_once(' ') {
        Some((word, rest)) => (word, past_spaces(rest)),
        None => (text, ""),
    }
}

// A number with one more digit, where it is a digit and the number has room.
fn with_digit(n: u64, digit: u8) -> Option<u64>
    ensures { SomeIff result ((is_ascii_digit digit ≡ true) × (n * 10 + (digit - 48) < 2 ^ 64)) (n * 10 + (digit - 48)) }
{
    if !digit.is_ascii_digit() {
        return None;
    }
    n.checked_mul(10)?.checked_add(u64::from(digit - b'0'))
}

// The number that decimal digits write.
pub fn number(digits: &[u8]) -> Option<u64>
    ensures { result ≡ number_of digits.now }
{
    if digits.is_empty() {
        return None;
    }
    let mut n = 0;
    for digit in digits {
        n = with_digit(n, *digit)?;
    }
    Some(n)
}

// The character of a text that has only one.
fn only_char(text: &str) -> Option<char>
    ensures { result ≡ only (decodes text.now) }
{
    let mut chars = text.chars();
    let first = chars.next()?;
    chars.next().is_none().then_some(first)
}

// The sign that a word is: one character, or # and the sign's number.
fn sign(word: &str) -> Option<u64>
    ensures { result ≡ sign_of word.now }
{
    if let Some(c) = only_char(word) {
        return Some(u64::from(c));
    }
    let code = word.strip_prefix('#')?;
    number(code.as_bytes())
}

// The first word as it is read, and what begins with the next; a fault where it cannot be read.
fn take<F: FnOnce(&str) -> Option<u64>>(
    text: &str,
    read: F,
    fault: Fault,
) -> Result<(u64, &str), Fault>
    requires { F.IsAlwaysCallable read }
    ensures { (n : Option ℕ) × FnOnceReturnsAt F.FnOnce read (first_of text.now) n × Takes fault n (rest_of text.now) result }
{
    let (word, rest) = split_word(text);
    let n = read(word).ok_or(fault)?;
    Ok((n, rest))
}

// The first word as a number, and what begins with the next.
pub fn take_number(text: &str) -> Result<(u64, &str), Fault>
    ensures { Takes Fault.NotANumber (number_of (first_of text.now)) (rest_of text.now) result }
{
    take(text, |word| number(word.as_bytes()), Fault::NotANumber)
}

// The first word as a sign, and what begins with the next.
fn take_sign(text: &str) -> Result<(u64, &str), Fault>
    ensures { Takes Fault.NotASign (sign_of (first_of text.now)) (rest_of text.now) result }
{
    take(text, sign, Fault::NotASign)
}

// No words are left.
fn end(text: &str) -> Result<(), Fault>
    ensures { result ≡ ended tt text.now }
{
    if text.is_empty() {
        Ok(())
    } else {
        Err(Fault::TooManyWords)
    }
}

pub fn one_number(text: &str) -> Result<u64, Fault>
    ensures { result ≡ one_number text.now }
{
    let (n, rest) = take_number(text)?;
    end(rest)?;
    Ok(n)
}

pub fn two_numbers(text: &str) -> Result<(u64, u64), Fault>
    ensures { result ≡ two_numbers text.now }
{
    let (m, rest) = take_number(text)?;
    let n = one_number(rest)?;
    Ok((m, n))
}

fn number_and_sign(text: &str) -> Result<(u64, u64), Fault>
    ensures { result ≡ number_and_sign text.now }
{
    let (n, rest) = take_number(text)?;
    let (code, rest) = take_sign(rest)?;
    end(rest)?;
    Ok((n, code))
}

// A number, and all that is left as the name of a file.
fn number_and_file(text: &str) -> Result<(u64, &str), Fault>
    ensures { with_ok (λ x. (x.0, x.1.now)) result ≡ number_and_file text.now }
{
    let (n, file) = take_number(text)?;
    if file.is_empty() {
        return Err(Fault::NoFile);
    }
    Ok((n, file))
}

// The command that a first word and what follows it say.
fn command_from<'a>(word: &str, text: &'a str) -> Result<Command<'a>, Fault>
    ensures { with_ok said result ≡ command_of word.now text.now }
{
    match word {
        "i" => {
            let (place, sign) = number_and_sign(text)?;
            Ok(Command::Insert { place, sign })
        }
        "s" => {
            let place = one_number(text)?;
            Ok(Command::Strike { place })
        }
        "w" => {
            let (key, word) = two_numbers(text)?;
            Ok(Command::Write { key, word })
        }
        "a" => {
            let (key, amount) = two_numbers(text)?;
            Ok(Command::Add { key, amount })
        }
        "t" => {
            end(text)?;
            Ok(Command::ShowText)
        }
        "k" => {
            let key = one_number(text)?;
            Ok(Command::ShowKey { key })
        }
        "send" => {
            let (desk, file) = number_and_file(text)?;
            Ok(Command::Send { desk, file })
        }
        "read" => {
            let (desk, file) = number_and_file(text)?;
            Ok(Command::Read { desk, file })
        }
        _ => Err(Fault::NotACommand),
    }
}

// What a line says, if it says anything.
pub fn parse(line: &str) -> Result<Option<Command<'_>>, Fault>
    ensures { with_ok if_said result ≡ line_says line.now }
{
    let text = past_spaces(up_to_spaces(line));
    if text.is_empty() {
        return Ok(None);
    }
    let (word, rest) = split_word(text);
    command_from(word, rest).map(Some)
}

// Whether each command that is printed is one line, which is parsed again as the command. It is so if a file's name can be the rest of a line: it is not
// empty, has no space at its start or its end, and no line feed.
pub fn parses_back() -> bool
    ensures { (result ≡ true) × ParsesBack }
{
    true
}
