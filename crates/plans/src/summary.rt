// What happened in some days, in numbers.
ghost use Rattle.std.specs.Prelude.{◌≡◌};
ghost use Rattle.plans.specs.Sums.{nothing, both, sum};

#[derive(Clone, Copy, Debug, Default, PartialEq, Eq)]
pub struct Summary {
    pub days: u64,
    pub events: u64,
    // Deeds that were done, and commands that were refused.
    pub deeds: u64,
    pub refused: u64,
    pub letters_made: u64,
    pub letters_come: u64,
    pub letters_lost: u64,
    pub letters_doubled: u64,
    pub letter_bytes: u64,
    pub meetings: u64,
    pub meeting_bytes: u64,
    pub compared: u64,
    pub differences: u64,
}

impl Summary {
    // Of no day.
    pub fn nothing() -> Summary
        ensures { result ≡ nothing }
    {
        Summary::default()
    }

    // Of these days and of others.
    pub fn and(self, other: Summary) -> Summary
        ensures { result ≡ both self other }
    {
        Summary {
            days: self.days.saturating_add(other.days),
            events: self.events.saturating_add(other.events),
            deeds: self.deeds.saturating_add(other.deeds),
            refused: self.refused.saturating_add(other.refused),
            letters_made: self.letters_made.saturating_add(other.letters_made),
            letters_come: self.letters_come.saturating_add(other.letters_come),
            letters_lost: self.letters_lost.saturating_add(other.letters_lost),
            letters_doubled: self.letters_doubled.saturating_add(other.letters_doubled),
            letter_bytes: self.letter_bytes.saturating_add(other.letter_bytes),
            meetings: self.meetings.saturating_add(other.meetings),
            meeting_bytes: self.meeting_bytes.saturating_add(other.meeting_bytes),
            compared: self.compared.saturating_add(other.compared),
            differences: self.differences.saturating_add(other.differences),
        }
    }
}

// One more.
pub fn count(number: &mut u64)
    ensures { number.new ≡ sum number.old 1 }
{
    *number = number.saturating_add(1);
}
