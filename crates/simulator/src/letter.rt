// A letter that was made.
ghost use Rattle.std.specs.Prelude.{◌<◌, ◌≤◌, vec_len};

#[derive(Drop)]
pub struct Letter {
    pub from: u64,
    pub to: u64,
    pub bytes: Vec<u8>,
    ghost near: { to < 32 },
    ghost short: { vec_len bytes ≤ 4096 },
}
