// Return: the copy that is out was sent.
ghost use Rattle.std.specs.Prelude.{◌≡◌};
ghost use Rattle.frame.specs.Refusals.{Kept, told};
ghost use Rattle.rules.specs.Cells.{OnlyFreed};
ghost use Rattle.rules.specs.Switch.{return_answer, return_state};
ghost use Rattle.switch.specs.Answers.{returned, ticket_of};
ghost use Rattle.switch.specs.Switches.{contents, kinds, state};

use crate::answers::Returned;
use crate::switches::Switch;
use crate::tickets::Ticket;
use cells::stores::Store;
use egress::sendings::find_sending;
use frame::refusals::Refusal;

impl<S: Store, P, R, F> Switch<S, P, R, F> {
    // The ticket is spent, also where it is refused.
    pub fn return_ticket(&mut self, ticket: Ticket) -> Result<Returned, Refusal>
        ensures answer { told returned result ≡ return_answer (state self.old) (ticket_of ticket).port (ticket_of ticket).number }
        ensures state { state self.new ≡ return_state (state self.old) (ticket_of ticket).port (ticket_of ticket).number }
        ensures kinds { kinds self.new ≡ kinds self.old }
        ensures contents { OnlyFreed (contents self.old) (contents self.new) }
        ensures kept { Kept result self.old self.new }
    {
        let numbers = ticket.spend();
        let sending = find_sending(&self.pool.buffers, numbers.port, numbers.number)?;
        self.pool.end_out(sending.port);
        Ok(Returned {
            port: sending.port,
            number: numbers.number,
        })
    }
}
