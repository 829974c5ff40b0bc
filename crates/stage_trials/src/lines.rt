use stages::{Said, Stage, Trouble};
use std::test::Fail;

// What comes of a line: - nothing, = something shown, ! an expectation that fails, and a letter for each reason why it cannot be played.
fn sign(said: Result<Said, Trouble>) -> char {
    match said {
        Ok(Said::Nothing) => '-',
        Ok(Said::Shows { .. }) => '=',
        Ok(Said::Differs { .. }) => '!',
        Err(Trouble::Wrong(_)) => 'w',
        Err(Trouble::NoSession) => 's',
        Err(Trouble::OtherVersion(_)) => 'v',
        Err(Trouble::NoDesk) => 'd',
        Err(Trouble::NotTwoDesks) => 't',
        Err(Trouble::NoLetter) => 'l',
        Err(_) => '?',
    }
}

// Whether each line gives its sign; the first that does not is named.
fn play(rt: &HostRuntime, lines: &[(&str, char)]) -> Result<(), Fail> {
    let mut stage = Stage::new(rt.alloc())?;
    for (line, expected) in lines {
        if sign(stage.line(line)) != *expected {
            return Err(Fail::new(*line));
        }
    }
    Ok(())
}

#[test]
fn what_cannot_be_played_is_said(rt: HostRuntime) -> Result<(), Fail> {
    play(
        &rt,
        &[
            ("# nothing", '-'),
            ("0 w 1 7", 's'),
            ("session 2", 'v'),
            ("session one", 'w'),
            ("session 1", '-'),
            ("sessoin 1", 'w'),
            ("0", 'w'),
            ("0 x 1", 'w'),
            ("0 w 1", 'w'),
            ("0 w 1 7 9", 'w'),
            ("0 w 1 18446744073709551616", 'w'),
            ("32 w 1 7", 'd'),
            ("expect 32 7", 'd'),
            ("meet 1 1", 't'),
            ("meet 1 32", 't'),
            ("0 read 1 never", 'l'),
            ("0 send 1", 'w'),
            ("0 k 1", '='),
            ("expect 0 ; 0", '-'),
        ],
    )
}

#[test]
fn expectations_fail_where_they_should(rt: HostRuntime) -> Result<(), Fail> {
    play(
        &rt,
        &[
            ("session 1", '-'),
            ("expect 0", '-'),
            ("expect 0 9; 7", '!'),
            ("0 w 1 7", '-'),
            ("0 a 1 3", '-'),
            ("0 k 1", '='),
            ("expect 0 7; 3", '-'),
            ("expect 0 7; 4", '!'),
            ("expect 1 7; 3", '!'),
            ("0 send 1 note", '-'),
            ("1 read 0 note", '-'),
            ("1 read 0 note", '-'),
            ("1 k 1", '='),
            ("expect 1 7; 3", '-'),
            ("2 read 0 note", '='),
            ("expect 2 refused 1", '-'),
            ("1 read 2 note", '='),
            ("meet 1 2", '-'),
            ("2 k 1", '='),
            ("expect 2 7; 3", '-'),
        ],
    )
}
