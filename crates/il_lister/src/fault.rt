//! Why a listing didn't go out whole.

ghost use Rattle.std.specs.Prelude.{◌≡◌};

use io_model::DeviceFault;
use thiserror::Error;

/// Why a listing didn't go out whole.
#[derive(Clone, Copy, Debug, PartialEq, Eq, Error)]
pub enum ListFault {
    /// The writer failed.
    #[error("device failed")]
    Device,
}

impl ListFault {
    ghost use Rattle.il_lister.specs.Writing.{fault_number};

    /// The number of a fault: 1.
    pub fn number(self) -> u8
        ensures { result ≡ fault_number self }
    {
        match self {
            ListFault::Device => 1,
        }
    }
}

impl From<DeviceFault> for ListFault {
    fn from(_fault: DeviceFault) -> ListFault {
        ListFault::Device
    }
}
