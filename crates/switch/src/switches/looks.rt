// Look: the bytes of the copy that is out.
ghost use Rattle.std.specs.Prelude.{◌≡◌};
ghost use Rattle.frame.specs.Refusals.{told};
ghost use Rattle.rules.specs.Switch.{look_answer, look_buffer};
ghost use Rattle.switch.specs.Answers.{ticket_of};
ghost use Rattle.switch.specs.Switches.{state};

use crate::switches::Switch;
use crate::tickets::Ticket;
use cells::stores::Store;
use egress::sendings::find_sending;
use frame::refusals::Refusal;

impl<S: Store, P, R, F> Switch<S, P, R, F> {
    // Writes the frame to the front of the buffer, and answers its length.
    pub fn look(&self, ticket: &Ticket, buffer: &mut [u8]) -> Result<usize, Refusal>
        ensures answer { told (λ n. n) result ≡ look_answer (state self.now) (ticket_of ticket.now).port (ticket_of ticket.now).number buffer.old }
        ensures buffer { buffer.new ≡ look_buffer (state self.now) (ticket_of ticket.now).port (ticket_of ticket.now).number buffer.old }
    {
        let sending = find_sending(&self.pool.buffers, ticket.port(), ticket.number())?;
        if buffer.len() < sending.length {
            return Err(Refusal::ShortBuffer(sending.length));
        }
        self.pool.buffers.look(sending.port, buffer);
        Ok(sending.length)
    }
}
