// Machines and papers have a command each in their own words.
ghost use Rattle.std.specs.Prelude.{◌≡◌};
ghost use Rattle.replicas.specs.Replica.{command_of};
ghost use Rattle.witnesses.specs.Told.{asked};

use papers::Command;
use replicas::Deed;

// What a machine is told where a paper is told this.
pub fn told(command: Command) -> Deed
    ensures { command_of result ≡ asked command }
{
    match command {
        Command::Insert { place, sign } => Deed::Insert { place, sign },
        Command::Strike { place } => Deed::Strike { place },
        Command::Write { key, word } => Deed::Write { key, word },
        Command::Add { key, amount } => Deed::Add { key, amount },
    }
}
