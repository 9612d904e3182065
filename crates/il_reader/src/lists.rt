//! Lists of the grammar: as many things as there are before they stop.

ghost use Rattle.std.specs.Prelude.{◌≡◌, Bool, List, map};
ghost use Rattle.il_model.specs.declared.dialect.Dialect.{Dialect};
ghost use Rattle.il_reader.specs.Tokens.{Token, tokens_of};
ghost use Rattle.il_reader.specs.Reading.{Takes, LeavesFewer, Reading, many};

use crate::fault::Failure;
use il_model::Dialect;
use std::alloc::Global;

/// How one thing of a list is read, and where the list stops.
pub trait Listed<'a> {
    type Item: Drop;

    ghost Said: { Type 0 };

    ghost said: { Self.Item → Said };

    ghost ends: { Dialect → List Token → Bool };

    ghost item_at: { Dialect → Reading Said };

    /// Whether the list stops here.
    fn stops(dialect: Dialect, bytes: &[u8]) -> bool
        ensures { result ≡ ends dialect (tokens_of dialect bytes.now) };

    /// The next thing of the list, which takes a token at least.
    fn item(
        dialect: Dialect,
        alloc: Global,
        bytes: &'a [u8],
    ) -> Result<(Self::Item, &'a [u8]), Failure>
        ensures read { Takes dialect said (item_at dialect) bytes.entry.now result }
        ensures moves { LeavesFewer dialect bytes.entry.now result };
}

/// As many things as there are before the list stops.
pub fn many<'a, L: Listed<'a>>(
    dialect: Dialect,
    alloc: Global,
    bytes: &'a [u8],
) -> Result<(Vec<L::Item>, &'a [u8]), Failure>
    ensures { Takes dialect (λ xs. map L.said xs.items) (many (L.ends dialect) (L.item_at dialect))
        bytes.entry.now result }
{
    let mut found = Vec::new(alloc);
    let mut rest = bytes;
    while !L::stops(dialect, rest) {
        let (one, after) = L::item(dialect, alloc, rest)?;
        found.push(one)?;
        rest = after;
    }
    Ok((found, rest))
}
