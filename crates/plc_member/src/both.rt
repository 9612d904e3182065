//! A value beside one that may not be to be had.

/// The first with the second. Where the second isn't to be had, the first is let go of.
pub(crate) fn both<T: Drop, U, E>(first: T, second: Result<U, E>) -> Result<(T, U), E> {
    match second {
        Ok(second) => Ok((first, second)),
        Err(error) => Err(error),
    }
}
