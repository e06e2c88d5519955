// The kinds of manager that an island may have.
use std::fmt;

pub(crate) enum Kind {
    SuzukiKasami,
    RicartAgrawala,
}

// A letter that is no kind's.
#[derive(Debug, Drop, thiserror::Error)]
#[error("the kind is S or R")]
pub(crate) struct NoKind;

impl TryFrom<char> for Kind {
    type Error = NoKind;

    fn try_from(letter: char) -> Result<Kind, NoKind> {
        match letter {
            'S' => Ok(Kind::SuzukiKasami),
            'R' => Ok(Kind::RicartAgrawala),
            _ => Err(NoKind),
        }
    }
}
