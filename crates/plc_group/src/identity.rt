//! A group gets an identity of its own.

ghost use Rattle.std.specs.Prelude.{◌≡◌, ◌++◌, IfOk};
ghost use Rattle.plc_group.specs.Identity.{identity_line, lacks_identity};

use crate::fault::{GroupFault, Why};
use crate::key::Key;
use std::alloc::{AllocError, Global};

/// The bytes of a group's file with the line of this identity in front of them.
pub fn with_identity(
    alloc: Global,
    bytes: &[u8],
    identity: &[u8; 16],
) -> Result<Vec<u8>, AllocError>
    ensures { IfOk result (λ v. v.items ≡ identity_line identity.now ++ bytes.now) }
{
    let digits = hex::encode(alloc, identity.as_slice())?;
    let mut file = Vec::from_slice(alloc, b"identity = \"")?;
    file.extend_from_slice(digits.as_str().as_bytes())?;
    file.extend_from_slice(b"\"\n")?;
    file.extend_from_slice(bytes)?;
    Ok(file)
}

/// Whether a fault is that a file has no identity. It's the last of a file's faults, so nothing else is wrong there.
pub fn lacks_identity(fault: &GroupFault) -> bool
    ensures { result ≡ lacks_identity fault.now }
{
    matches!(
        fault,
        GroupFault::At {
            key: Key::Identity,
            why: Why::Missing,
            ..
        }
    )
}
