// What days are asked for.
ghost use Rattle.std.specs.Prelude.{◌≡◌, ◌≤◌};
ghost use Rattle.std.specs.Option.{SomeIff, IfSome};
ghost use Rattle.plans.specs.Settings.{standard, set_to, InRange};

use crate::draw::HUNDRED;

#[derive(Clone, Copy, Debug, PartialEq, Eq)]
pub struct Options {
    pub days: u64,
    // From 2 to 32.
    pub desks: u64,
    // Commands in a day.
    pub deeds: u64,
    pub seed: u64,
    // Of a hundred letters so many are lost, come twice, or come late.
    pub lose: u64,
    pub twice: u64,
    pub late: u64,
}

// Which of the options is meant.
#[derive(Clone, Copy, Debug, PartialEq, Eq)]
pub enum Setting {
    Days,
    Desks,
    Deeds,
    Seed,
    Lose,
    Twice,
    Late,
}

const FEWEST_DESKS: u64 = 2;

const MOST_DESKS: u64 = 32;

// So many desks, if there can be so many.
fn desks(value: u64) -> Option<u64>
    ensures { SomeIff result ((2 ≤ value) × (value ≤ 32)) value }
{
    (FEWEST_DESKS..=MOST_DESKS)
        .contains(&value)
        .then_some(value)
}

fn percentage(value: u64) -> Option<u64>
    ensures { SomeIff result (value ≤ 100) value }
{
    (value <= HUNDRED).then_some(value)
}

impl Options {
    // What is asked for where nothing is said.
    pub fn standard() -> Options
        ensures { result ≡ standard }
    {
        Options {
            days: 100,
            desks: 4,
            deeds: 40,
            seed: 1,
            lose: 20,
            twice: 10,
            late: 30,
        }
    }

    // The options with another value of one; none where the value is out of its range.
    pub fn with(self, setting: Setting, value: u64) -> Option<Options>
        ensures value { result ≡ set_to self setting value }
        ensures in_range { InRange self → IfSome result InRange }
    {
        Some(match setting {
            Setting::Days => Options {
                days: value,
                ..self
            },
            Setting::Desks => Options {
                desks: desks(value)?,
                ..self
            },
            Setting::Deeds => Options {
                deeds: value,
                ..self
            },
            Setting::Seed => Options {
                seed: value,
                ..self
            },
            Setting::Lose => Options {
                lose: percentage(value)?,
                ..self
            },
            Setting::Twice => Options {
                twice: percentage(value)?,
                ..self
            },
            Setting::Late => Options {
                late: percentage(value)?,
                ..self
            },
        })
    }

    // How many desks there are, in every case at least two.
    pub fn company(&self) -> u64
        ensures bound { (2 ≤ result) × (result ≤ 32) }
        ensures same { 2 ≤ self.now.desks → self.now.desks ≤ 32 → result ≡ self.now.desks }
    {
        self.desks.clamp(FEWEST_DESKS, MOST_DESKS)
    }
}
