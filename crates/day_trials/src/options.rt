// Which words can be read, and what they ask for.
use days::{Asked, Options, asked_for};
use std::alloc::{AllocError, Global};
use std::test::Fail;

// What a line of words asks for.
fn asked(heap: Global, line: &str) -> Result<Option<Asked>, AllocError> {
    let words: Vec<String> = line
        .split(' ')
        .map(|word| String::from_str(heap, word))
        .try_collect(heap)?;
    Ok(asked_for(words.as_slice()))
}

fn options(heap: Global, line: &str) -> Result<Option<Options>, AllocError> {
    match asked(heap, line)? {
        Some(Asked::Days(options)) => Ok(Some(options)),
        _ => Ok(None),
    }
}

#[test]
fn what_is_given_is_taken(rt: HostRuntime) -> Result<(), Fail> {
    let given = options(rt.alloc(), "--desks 32 --lose 100 --desks 2")?.ok_or("unread")?;
    assert_eq!(rt; given.desks, 2);
    assert_eq!(rt; given.lose, 100);
    assert_eq!(rt; given.days, 100);
    Ok(())
}

#[test]
fn what_cannot_be_read(rt: HostRuntime) -> Result<(), Fail> {
    let lines = [
        "--desks 1",
        "--desks 33",
        "--lose 101",
        "--days",
        "--days x",
        "--days -1",
        "--days 1 --help",
        "days 1",
        "--bench 1",
    ];
    for line in lines {
        assert_eq!(rt; asked(rt.alloc(), line)?, None, "{line}");
    }
    Ok(())
}
