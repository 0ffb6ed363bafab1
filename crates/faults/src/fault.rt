// A refusal as every call answers it.
ghost use Rattle.std.specs.Prelude.{◌≡◌, Some};
ghost use Rattle.faults.specs.Faults.{met, of_object, refused, fault_words};

use crate::layer::Layer;
use crate::reason::Reason;
use std::fmt;

// What was refused, the layer that met it, the place, counted in the file or in the bytes given, and the object number checked or named,
// 0 if none: the definitions and the printed fault have 0 there.
#[derive(Clone, Copy, PartialEq, Eq, Debug)]
pub struct Fault {
    pub reason: Reason,
    pub layer: Layer,
    pub place: usize,
    pub object: usize,
}

impl Fault {
    // A fault that a reader met at a place, before the object is known.
    pub fn met(reason: Reason, layer: Layer, place: usize) -> Fault
        ensures { result ≡ met reason layer place }
    {
        Fault {
            reason,
            layer,
            place,
            object: 0,
        }
    }

    // The same fault with the object that was checked or named.
    pub fn of_object(self, object: usize) -> Fault
        ensures { result ≡ of_object object self }
    {
        Fault { object, ..self }
    }

    // What the state of the book or of its store refuses, for the object that the call named, 0 if none.
    pub fn refused(reason: Reason, object: usize) -> Fault
        ensures { result ≡ refused reason object }
    {
        Fault::met(reason, reason.layer(), 0).of_object(object)
    }
}

impl fmt::Display for Fault {
    ghost output = { λ x. Some (fault_words x) };

    fn fmt<W: fmt::Write>(&self, f: &mut fmt::Formatter<W>) -> fmt::Result {
        let number = self.reason.number();
        let reason = self.reason;
        let depth = self.layer.number();
        let layer = self.layer;
        let place = self.place;
        let object = self.object;
        write!(
            f,
            "fault {number}: {reason}; layer {depth} {layer}, place {place}, object {object}"
        )
    }
}
