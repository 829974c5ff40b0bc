// A line of a session file: what happens at desks, one after another, and what each is expected to show. The lines, with one or more spaces between
// words:
//
//     session NUMBER     the version of the format
//     DESK COMMAND       a command at a desk, as `commands` reads it: 0 w 1 7
//     meet DESK DESK     two desks meet
//     expect DESK TEXT   what a desk showed last; TEXT is the rest of the line, and may be empty
//     # ..               nothing, as a blank line
//
// `specs/Session.antt` says for every line what is read, and `specs/Shown.antt` how a line is printed, so that it is read again.
#![tactic(auto)]

ghost use Rattle.std.specs.Prelude.{◌≡◌, true, Some};
ghost use Rattle.commands.specs.Lines.{with_ok};
ghost use Rattle.sessions.specs.Session.{noted, at_desk, words_note, session_says};
ghost use Rattle.sessions.specs.Shown.{line_of, ReadsBack};

use commands::{Command, Fault};
use std::fmt;

#[derive(Clone, Copy, Debug, PartialEq, Eq)]
pub enum Line<'a> {
    Nothing,
    Version(u64),
    At { desk: u64, command: Command<'a> },
    Meet { one: u64, other: u64 },
    Expect { desk: u64, text: &'a str },
}

impl fmt::Display for Line<'_> {
    ghost output = { λ line. Some (line_of (noted line)) };

    fn fmt<W: fmt::Write>(&self, f: &mut fmt::Formatter<W>) -> fmt::Result {
        match *self {
            Line::Nothing => Ok(()),
            Line::Version(number) => write!(f, "session {number}"),
            Line::At { desk, command } => write!(f, "{desk} {command}"),
            Line::Meet { one, other } => write!(f, "meet {one} {other}"),
            Line::Expect { desk, text } if text.is_empty() => write!(f, "expect {desk}"),
            Line::Expect { desk, text } => write!(f, "expect {desk} {text}"),
        }
    }
}

// The command at a desk that a first word and what follows it say.
fn at_desk<'a>(word: &str, text: &'a str) -> Result<Line<'a>, Fault>
    ensures { with_ok noted result ≡ at_desk word.now text.now }
{
    let desk = commands::number(word.as_bytes()).ok_or(Fault::NotACommand)?;
    let command = commands::parse(text)?.ok_or(Fault::NotACommand)?;
    Ok(Line::At { desk, command })
}

// The line that a first word and what follows it say.
fn line_from<'a>(word: &str, text: &'a str) -> Result<Line<'a>, Fault>
    ensures { with_ok noted result ≡ words_note word.now text.now }
{
    match word {
        "session" => {
            let number = commands::one_number(text)?;
            Ok(Line::Version(number))
        }
        "meet" => {
            let (one, other) = commands::two_numbers(text)?;
            Ok(Line::Meet { one, other })
        }
        "expect" => {
            let (desk, text) = commands::take_number(text)?;
            Ok(Line::Expect { desk, text })
        }
        _ => at_desk(word, text),
    }
}

// What a line of a session says.
pub fn parse(line: &str) -> Result<Line<'_>, Fault>
    ensures { with_ok noted result ≡ session_says line.now }
{
    let text = commands::past_spaces(commands::up_to_spaces(line));
    if text.is_empty() || text.starts_with('#') {
        return Ok(Line::Nothing);
    }
    let (word, rest) = commands::split_word(text);
    line_from(word, rest)
}

// Whether each line that is printed is one line, which is parsed again as what it was. It is so if a file's name or a text that is expected can be the
// rest of a line.
pub fn reads_back() -> bool
    ensures { (result ≡ true) × ReadsBack }
{
    true
}
