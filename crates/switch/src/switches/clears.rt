// Clear: every copy of a port ends.
ghost use Rattle.std.specs.Prelude.{◌≡◌};
ghost use Rattle.frame.specs.Refusals.{Kept, told};
ghost use Rattle.rules.specs.Cells.{OnlyFreed};
ghost use Rattle.rules.specs.Switch.{clear_answer, clear_state};
ghost use Rattle.switch.specs.Switches.{contents, kinds, state};

use crate::switches::Switch;
use cells::stores::Store;
use frame::numbers::Port;
use frame::refusals::Refusal;

impl<S: Store, P, R, F> Switch<S, P, R, F> {
    // Queued or out, it ends; the answer is how many copies there were. The tokens stay.
    pub fn clear(&mut self, port: u8) -> Result<u32, Refusal>
        ensures answer { told (λ n. n) result ≡ clear_answer (state self.old) port }
        ensures state { state self.new ≡ clear_state (state self.old) port }
        ensures kinds { kinds self.new ≡ kinds self.old }
        ensures contents { OnlyFreed (contents self.old) (contents self.new) }
        ensures kept { Kept result self.old self.new }
    {
        let port = Port::try_from(port)?;
        let queued = self.pool.end_queues(port);
        let out = self.pool.end_out(port);
        Ok(queued + u32::from(out))
    }
}
