// The static library for the port card's firmware: what C calls, under its C name.
#![tactic(auto)]

ghost use Rattle.std.specs.Prelude.{◌≡◌};
ghost use Rattle.frame.specs.Frames.{firmware_class};

use frame::firmware;

// The class of a frame, or 255 for a wrong length.
#[unsafe(no_mangle)]
pub extern "C" fn frame_class(bytes: &[u8]) -> u8
    ensures { result ≡ firmware_class bytes.now }
{
    firmware::frame_class(bytes)
}
