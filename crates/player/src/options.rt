// What the program was asked to do.
#[derive(Clone, Copy, Debug, PartialEq, Eq)]
pub enum Options<'a> {
    Help,
    Version,
    Play(&'a [String]),
    Draw { session: &'a str, picture: &'a str },
}

fn is_option(word: &String) -> bool {
    word.as_str().starts_with("--")
}

pub fn parse(words: &[String]) -> Option<Options<'_>> {
    match words {
        [] => None,
        [only] if only.as_str() == "--help" => Some(Options::Help),
        [only] if only.as_str() == "--version" => Some(Options::Version),
        [session, option, picture] if option.as_str() == "--svg" => Some(Options::Draw {
            session: session.as_str(),
            picture: picture.as_str(),
        }),
        _ if words.iter().any(is_option) => None,
        _ => Some(Options::Play(words)),
    }
}
