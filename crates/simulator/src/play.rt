// Items are played one at a time.
ghost use Rattle.std.specs.Prelude.{◌≡◌, IfOk};
ghost use Rattle.desks.specs.Run.{said, at_desk, makes, comes, meet as meets};
ghost use Rattle.network.specs.Room.{first_room};
ghost use Rattle.replicas.specs.Replica.{memory_of, run};
ghost use Rattle.simulator.specs.Play.{view, said_by, item_of, Plain, Answers, Plays, Played, Rightly};

use crate::letter::Letter;
use crate::meetings;
use crate::room::{Answer, Command, Item, Room};
use crate::two::Two;
use desks::{DESKS, MOST_BYTES, Refusal};
use replicas::Replica;
use std::alloc::{AllocError, Global};

// An answer with nothing shown.
fn plain(outcome: Result<(), Refusal>) -> Result<Answer, Refusal>
    ensures { Plain outcome result }
{
    outcome.map(|()| Answer::Done)
}

// What a replica answers a command.
fn told(replica: &mut Replica, command: Command) -> Result<Answer, Refusal>
    ensures { Answers (run replica.old (said (said_by command))) result (memory_of replica.new) }
{
    match command {
        Command::Do(deed) => plain(replica.does(deed)),
        Command::ShowText => plain(replica.text()),
        Command::ShowKey(key) => replica.key(key).map(Answer::Key),
    }
}

impl Room {
    // A room of 32 desks that know nothing yet.
    pub fn new(heap: Global) -> Result<Room, AllocError>
        ensures { IfOk result (λ x. view x ≡ first_room) }
    {
        let mut desks = Vec::new(heap);
        for desk in 0..DESKS {
            let Ok(replica) = Replica::opened(heap, desk) else {
                return Err(AllocError);
            };
            desks.push(replica)?;
        }
        let letters = Vec::new(heap);
        Ok(Room { desks, letters })
    }

    // A command at a desk.
    fn tell(&mut self, desk: u64, command: Command) -> Result<Answer, Refusal>
        ensures { Plays (view self.old) (at_desk desk (said_by command)) result (view self.new) }
    {
        if desk >= DESKS {
            return Err(Refusal::Malformed);
        }
        told(&mut self.desks[desk as usize], command)
    }

    // A desk makes a letter for another, which is kept. Room for it is found first, so that nothing is changed where there is none.
    fn send(&mut self, heap: Global, two: Two) -> Result<Result<Answer, Refusal>, AllocError>
        ensures { Played (view self.old) (makes two.one two.other) result (view self.new) }
    {
        let from = two.one as u64;
        let to = two.other as u64;
        let mut bytes = vec![in heap; 0; MOST_BYTES]?;
        self.letters.reserve(1)?;
        let size = match self.desks[two.one].letter(to, bytes.as_mut_slice()) {
            Ok(size) => size,
            Err(refusal) => return Ok(Err(refusal)),
        };
        bytes.truncate(size);
        self.letters.push_reserved(Letter { from, to, bytes });
        Ok(Ok(Answer::Done))
    }

    // The same of two numbers, if they are two desks'.
    fn make(
        &mut self,
        heap: Global,
        from: u64,
        to: u64,
    ) -> Result<Result<Answer, Refusal>, AllocError>
        ensures { Played (view self.old) (makes from to) result (view self.new) }
    {
        match Two::new(from, to) {
            Ok(two) => self.send(heap, two),
            Err(refusal) => Ok(Err(refusal)),
        }
    }

    // A letter comes to the desk that it is for. It stays, and may come again.
    fn deliver(&mut self, letter: u64) -> Result<Answer, Refusal>
        ensures { Plays (view self.old) (comes letter) result (view self.new) }
    {
        if letter >= self.letters.len() as u64 {
            return Err(Refusal::Malformed);
        }
        let letter = &self.letters[letter as usize];
        plain(self.desks[letter.to as usize].hear(letter.from, letter.bytes.as_slice()))
    }

    // Two desks meet.
    fn meet(&mut self, one: u64, other: u64) -> Result<Answer, Refusal>
        ensures { Plays (view self.old) (meets one other) result (view self.new) }
    {
        let two = Two::new(one, other)?;
        let meeting = meetings::meet(&mut self.desks, two);
        if meeting.fair {
            Ok(Answer::Met {
                pairs: meeting.pairs,
                bytes: meeting.bytes,
            })
        } else {
            Err(Refusal::Malformed)
        }
    }

    // Plays one item. What cannot be is refused as malformed, or as the machine does; and where memory is wanting, nothing is changed.
    pub fn play(&mut self, heap: Global, item: Item) -> Result<Result<Answer, Refusal>, AllocError>
        ensures does { Played (view self.old) (item_of item) result (view self.new) }
        ensures right { Rightly (view self.new) }
    {
        match item {
            Item::At { desk, command } => Ok(self.tell(desk, command)),
            Item::Makes { from, to } => self.make(heap, from, to),
            Item::Comes { letter } => Ok(self.deliver(letter)),
            Item::Meets { one, other } => Ok(self.meet(one, other)),
        }
    }
}
