// What a machine is called to do, by the number that it is called with.
ghost use Rattle.desks.specs.Calls.{ReadsCall};

use crate::refusal::Refusal;

#[derive(Clone, Copy)]
pub enum Call {
    Open,
    Insert,
    Strike,
    Write,
    Add,
    ShowText,
    ShowKey,
    Send,
    Read,
    GoOn,
}

impl TryFrom<u64> for Call {
    type Error = Refusal;

    ghost try_from_gives = { ReadsCall };

    fn try_from(number: u64) -> Result<Call, Refusal> {
        match number {
            0 => Ok(Call::Open),
            1 => Ok(Call::Insert),
            2 => Ok(Call::Strike),
            3 => Ok(Call::Write),
            4 => Ok(Call::Add),
            5 => Ok(Call::ShowText),
            6 => Ok(Call::ShowKey),
            7 => Ok(Call::Send),
            8 => Ok(Call::Read),
            9 => Ok(Call::GoOn),
            _ => Err(Refusal::Unfit),
        }
    }
}
