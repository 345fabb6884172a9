ghost use Rattle.std.specs.Prelude.{◌≡◌};
ghost use Rattle.frames.specs.declared.fault.FrameFault.TheVariants.{Text};

use lines::fault::TextFault;
use stops::Fault;

// A fault of the text layer, passed on whole, or what the frame layer finds: a first byte that names no kind, or a
// length that the kind does not have.
#[derive(Clone, Copy, PartialEq, Eq, Debug)]
pub enum FrameFault {
    Text(TextFault),
    Found(Fault),
}

// Written out: a derived `From` has no contract.
impl From<TextFault> for FrameFault {
    ghost from_gives = { λ e r. r ≡ Text e };

    fn from(fault: TextFault) -> FrameFault {
        FrameFault::Text(fault)
    }
}
