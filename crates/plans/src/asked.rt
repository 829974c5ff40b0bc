// What the words after the program's name ask for.
ghost use Rattle.std.specs.Prelude.{◌≡◌, [], ◌∷◌, string_bytes};
ghost use Rattle.std.specs.Option.{IfSome};
ghost use Rattle.plans.specs.Settings.{InRange};
ghost use Rattle.plans.specs.Words.{setting_of, alone, Playable};

use crate::options::{Options, Setting};

#[derive(Clone, Copy, Debug, PartialEq, Eq)]
pub enum Asked {
    Help,
    Version,
    Bench,
    Days(Options),
}

// The option of a name.
fn setting(name: &str) -> Option<Setting>
    ensures { result ≡ setting_of name.now }
{
    match name {
        "--days" => Some(Setting::Days),
        "--desks" => Some(Setting::Desks),
        "--deeds" => Some(Setting::Deeds),
        "--seed" => Some(Setting::Seed),
        "--lose" => Some(Setting::Lose),
        "--twice" => Some(Setting::Twice),
        "--late" => Some(Setting::Late),
        _ => None,
    }
}

// One word that stands alone.
fn single(word: &str) -> Option<Asked>
    ensures { result ≡ alone word.now }
{
    match word {
        "--help" => Some(Asked::Help),
        "--version" => Some(Asked::Version),
        "--bench" => Some(Asked::Bench),
        _ => None,
    }
}

// A name and its value.
fn with(options: Options, name: &str, value: &str) -> Option<Options>
    ensures { InRange options → IfSome result InRange }
{
    options.with(setting(name)?, value.parse().ok()?)
}

// What all the words ask for; nothing where one cannot be read.
pub fn asked_for(words: &[String]) -> Option<Asked>
    ensures one_word { (word : _) → words.now ≡ word ∷ [] → result ≡ alone (string_bytes word) }
    ensures in_range { IfSome result Playable }
{
    if let [word] = words {
        return single(word.as_str());
    }
    let mut options = Options::standard();
    for pair in words.chunks(2) {
        let [name, value] = pair else {
            return None;
        };
        options = with(options, name.as_str(), value.as_str())?;
    }
    Some(Asked::Days(options))
}
