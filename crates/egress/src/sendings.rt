// Finding the copy that a ticket is for, which Look and Return share.
ghost use Rattle.std.specs.Prelude.{◌≡◌, ℕ};
ghost use Rattle.buffers.specs.Holdings.{egress};
ghost use Rattle.frame.specs.Refusals.{told};
ghost use Rattle.egress.specs.Sendings.{sending, sending_at};

use buffers::buffers::Buffers;
use frame::numbers::{FrameNumber, Port};
use frame::refusals::Refusal;

// A copy that is out: its port, and its length in bytes.
#[derive(Clone, Copy)]
pub struct Sending {
    pub port: Port,
    pub length: usize,
}

pub fn find_sending(buffers: &Buffers, port: u8, number: FrameNumber) -> Result<Sending, Refusal>
    ensures { (d : ℕ) → told sending result ≡ sending_at (egress d buffers.now) port number.0 }
{
    let place = Port::try_from(port).map_err(|_| Refusal::NotOut(port))?;
    let sent = buffers
        .out(place)
        .filter(|sent| sent.number == number)
        .ok_or(Refusal::NotOut(port))?;
    Ok(Sending {
        port: place,
        length: sent.length,
    })
}
