//! How operators come to a console, as words name it.

/// Where a console is that has no port, and what it asks for first.
#[derive(Clone, Copy, Debug, PartialEq, Eq)]
pub struct OperatorsAt<'a> {
    /// The path of its socket, if it's at one.
    pub socket: Option<&'a str>,
    /// The file whose first line an operator tells first, if one is asked for.
    pub key: Option<&'a str>,
}

impl OperatorsAt<'_> {
    /// By a port, if by any, and no key is asked for.
    pub fn by_port() -> OperatorsAt<'static> {
        OperatorsAt {
            socket: None,
            key: None,
        }
    }
}
