// Gauge and Standing: what a switch is asked about its ports.
ghost use Rattle.std.specs.Prelude.{◌≡◌};
ghost use Rattle.frame.specs.Refusals.{told};
ghost use Rattle.rules.specs.Switch.{gauge_answer};
ghost use Rattle.switch.specs.Answers.{gauged, standing_rows};
ghost use Rattle.switch.specs.Switches.{state};

use crate::answers::Gauged;
use crate::switches::Switch;
use cells::stores::Store;
use frame::numbers::Port;
use frame::refusals::Refusal;

impl<S: Store, P, R, F> Switch<S, P, R, F> {
    // The tokens of a port, and the frame that is out there.
    pub fn gauge(&self, port: u8) -> Result<Gauged, Refusal>
        ensures { told gauged result ≡ gauge_answer (state self.now) port }
    {
        let port = Port::try_from(port)?;
        Ok(Gauged {
            tokens: self.pool.buffers.tokens(port),
            out: self.pool.buffers.out(port).map(|sent| sent.number),
        })
    }

    // How many copies wait in each queue of each port.
    pub fn standing(&self) -> [[u32; 4]; 4]
        ensures { result ≡ standing_rows (state self.now) }
    {
        self.pool.buffers.lengths()
    }
}
