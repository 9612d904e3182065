//! What a field says of itself to the controller: that it goes on, and that inputs are real.

ghost use Rattle.std.specs.Prelude.{◌≡◌};

use field_map::Places;
use modbus_wire::Request;

/// The word that counts cycles, and the bit that says that inputs are real, with what is to be handed over of them.
#[derive(Clone, Copy)]
pub struct Signs {
    /// A word of `%I`.
    beat: Option<Places>,
    /// A bit of `%I`.
    ready: Option<Places>,
    /// So many cycles began, counted as an INT.
    count: i16,
    /// Whether the count is to be handed over.
    is_beating: bool,
    /// Whether inputs are real, as far as the controller is told it.
    is_ready: Option<bool>,
    /// What it's to be told of that.
    tells: Option<bool>,
}

impl Signs {
    ghost use Rattle.field_cycle.specs.Signs.{beaten, marked, after_sign, next_sign, new_signs, told_anew};
    ghost use Rattle.field_cycle.specs.Signs.{bit_of, word_of};

    /// Nothing is to be handed over.
    pub fn new(beat: Option<Places>, ready: Option<Places>) -> Signs
        ensures { result ≡ new_signs beat ready }
    {
        Signs {
            beat,
            ready,
            count: 0,
            is_beating: false,
            is_ready: None,
            tells: None,
        }
    }

    /// A cycle begins: the word is to be counted up, behind 32767 from -32768 on.
    pub fn beat(&mut self)
        ensures { self.new ≡ beaten self.old }
    {
        self.count = self.count.wrapping_add(1);
        self.is_beating = true;
    }

    /// Inputs are real, or aren't: that is to be told, unless it was.
    pub fn mark(&mut self, is_ready: bool)
        ensures { self.new ≡ marked self.old is_ready }
    {
        if self.is_ready != Some(is_ready) {
            self.tells = Some(is_ready);
            self.is_ready = Some(is_ready);
        }
    }

    /// The controller knows nothing.
    pub fn tell_anew(&mut self)
        ensures { self.new ≡ told_anew self.old }
    {
        self.is_ready = None;
        self.tells = None;
    }

    /// What hands the count over.
    fn counted(&self) -> Option<Request>
        ensures { result ≡ word_of self.now.beat self.now.count }
    {
        let places = self.beat?;
        Some(places.write_word(self.count))
    }

    /// What tells this of whether inputs are real.
    fn told(&self, tells: Option<bool>) -> Option<Request>
        ensures { result ≡ bit_of self.now.ready tells }
    {
        let places = self.ready?;
        let value = tells?;
        Some(places.write_bit(value))
    }

    /// What is handed over next.
    pub fn take(&mut self) -> Option<Request>
        ensures next { result ≡ next_sign self.old }
        ensures left { self.new ≡ after_sign self.old }
    {
        let is_beating = self.is_beating && self.beat.is_some();
        self.is_beating = false;
        if is_beating {
            return self.counted();
        }
        let tells = self.tells;
        self.tells = None;
        self.told(tells)
    }

    /// Whether nothing is to be handed over.
    pub fn is_empty(&self) -> bool {
        !(self.is_beating && self.beat.is_some()) && !(self.tells.is_some() && self.ready.is_some())
    }
}
