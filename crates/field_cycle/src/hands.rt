//! What is to be handed over to the controller of a device.

ghost use Rattle.std.specs.Prelude.{◌≡◌, None};

use field_map::Device;
use il_model::Cells;
use modbus_wire::Request;

/// Requests to the controller, in this order.
#[derive(Drop)]
pub struct Hands {
    pub first: Option<Request>,
    pub second: Option<Request>,
}

impl Hands {
    ghost use Rattle.field_cycle.specs.Stations.{nothing, is_nothing, answered, losing, ending, left, next_of};

    /// Nothing.
    pub fn none() -> Hands
        ensures { result ≡ nothing }
    {
        Hands {
            first: None,
            second: None,
        }
    }

    /// Puts the inputs of a device that were gathered in place of those that wait, and behind them that it answers, if
    /// that is to be told; else what waits there stays.
    pub fn answer(&mut self, device: &Device, gathered: &Cells, tells: bool)
        ensures { self.new ≡ answered self.old device.now gathered.now tells }
    {
        self.first = device.hand_inputs(Some(gathered));
        if tells {
            self.second = device.hand_alive(true);
        }
    }

    /// That a device is lost, and then its inputs by their fallback.
    pub fn losing(device: &Device) -> Hands
        ensures { result ≡ losing device.now }
    {
        Hands {
            first: device.hand_alive(false),
            second: device.hand_inputs(None),
        }
    }

    /// That nobody asks a device any more, and then that its inputs are FALSE and 0.
    pub fn ending(device: &Device) -> Hands
        ensures { result ≡ ending device.now }
    {
        Hands {
            first: device.hand_alive(false),
            second: device.hand_inputs(Some(&Cells::clear())),
        }
    }

    /// The next of them, which they have no more.
    pub fn take(&mut self) -> Option<Request>
        ensures next { result ≡ next_of self.old }
        ensures left { self.new ≡ left self.old }
    {
        match self.first.take() {
            Some(request) => Some(request),
            None => self.second.take(),
        }
    }

    /// Whether there is nothing.
    pub fn is_empty(&self) -> bool
        ensures { result ≡ is_nothing self.now }
    {
        self.first.is_none() && self.second.is_none()
    }
}
