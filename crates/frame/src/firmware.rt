// What the port card's firmware calls: crate frame_c exports it to C.
ghost use Rattle.std.specs.Prelude.{◌≡◌};
ghost use Rattle.frame.specs.Frames.{firmware_class};

use crate::readings::read;

// What the firmware is told of bytes that are no frame: C is answered one byte.
pub const NO_CLASS: u8 = 255;

// The class of a frame, or NO_CLASS for a wrong length.
pub fn frame_class(bytes: &[u8]) -> u8
    ensures { result ≡ firmware_class bytes.now }
{
    match read(bytes) {
        Ok(frame) => frame.reading.class().number(),
        Err(_) => NO_CLASS,
    }
}
