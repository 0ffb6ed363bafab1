// Places counted from another place.
ghost use Rattle.std.specs.Prelude.{◌≡◌, ◌+◌, ◌^◌, ◌<◌};
ghost use Rattle.objects.specs.Shifts.{later_fault};

use faults::fault::Fault;

// The same fault at a place that is later by `base`: a function, since the type belongs to `faults`. Its clause speaks of a place counted in a file,
// which `faults` does not know.
pub fn later_fault(base: usize, fault: Fault) -> Fault
    requires { base + fault.place < 2 ^ 64 }
    ensures { result ≡ later_fault base fault }
{
    Fault {
        place: base + fault.place,
        ..fault
    }
}
