// Two desks that meet: one makes a letter, the other reads it and makes one, which the first reads; and so on until both know the same.
ghost use Rattle.std.specs.Prelude.{◌≡◌, vec_len};
ghost use Rattle.simulator.specs.Rooms.{memories};
ghost use Rattle.simulator.specs.Meetings.{Passed, Paired, Met};

use crate::two::Two;
use desks::MOST_BYTES;
use replicas::Replica;

// How many pairs of letters are allowed besides one for each operation that is known.
const PAIRS_MORE: usize = 8;

// How many pairs of letters it took, how many bytes they had, and whether all were made and read.
#[derive(Clone, Copy)]
pub struct Meeting {
    pub pairs: u64,
    pub bytes: u64,
    pub fair: bool,
}

// How many bytes went, and whether they were made and read.
#[derive(Clone, Copy)]
struct Mail {
    bytes: u64,
    fair: bool,
}

// A letter from one desk to the other.
fn pass(desks: &mut Vec<Replica>, mail: &mut [u8; MOST_BYTES], two: Two) -> Mail
    requires { vec_len desks.old ≡ 32 }
    ensures passed { Passed (memories desks.old) two.one two.other result.fair result.bytes (memories desks.new) }
    ensures count { vec_len desks.new ≡ 32 }
{
    let Ok(size) = desks[two.one].letter(two.other as u64, mail) else {
        let _ = desks[two.other].hear(two.one as u64, &[]);
        return Mail {
            bytes: 0,
            fair: false,
        };
    };
    let fair = desks[two.other].hear(two.one as u64, &mail[..size]).is_ok();
    Mail {
        bytes: size as u64,
        fair,
    }
}

// A letter and its answer.
fn pair(desks: &mut Vec<Replica>, two: Two) -> Mail
    requires { vec_len desks.old ≡ 32 }
    ensures paired { Paired (memories desks.old) two.one two.other result.fair result.bytes (memories desks.new) }
    ensures count { vec_len desks.new ≡ 32 }
{
    let mut mail = [0; MOST_BYTES];
    let there = pass(desks, &mut mail, two);
    let back = pass(desks, &mut mail, two.turned());
    Mail {
        bytes: there.bytes + back.bytes,
        fair: there.fair & back.fair,
    }
}

// The whole meeting.
pub fn meet(desks: &mut Vec<Replica>, two: Two) -> Meeting
    requires { vec_len desks.old ≡ 32 }
    ensures met { Met (memories desks.old) two.one two.other result.pairs result.fair result.bytes (memories desks.new) }
    ensures count { vec_len desks.new ≡ 32 }
{
    let mut fair = true;
    let mut bytes = 0;
    let most = PAIRS_MORE + desks[two.one].known() + desks[two.other].known();
    for pairs in 0..most {
        if desks[two.one].is_level_with(&desks[two.other]) {
            return Meeting {
                pairs: pairs as u64,
                bytes,
                fair,
            };
        }
        let mail = pair(desks, two);
        bytes += mail.bytes;
        fair &= mail.fair;
    }
    Meeting {
        pairs: most as u64,
        bytes,
        fair,
    }
}
