// One call of a list of calls.
ghost use Rattle.std.specs.Prelude.{◌≡◌, true};
ghost use Rattle.frame.specs.Refusals.{Kept, told};
ghost use Rattle.rules.specs.Cells.{ContentsAfter, OnlyFreed};
ghost use Rattle.rules.specs.Laws.{refuses};
ghost use Rattle.rules.specs.Runs.{answer_of, arrived_in, state_after};
ghost use Rattle.rules.specs.Switch.{look_answer, look_buffer, take_answer, take_state};
ghost use Rattle.rules.specs.Twins.{Addressed};
ghost use Rattle.switch.specs.Answers.{numbered};
ghost use Rattle.switch.specs.Calls.{answer_with, buffer_after, call_with, taken};
ghost use Rattle.switch.specs.Switches.{behind, contents, kinds, state};

use crate::calls::{Answer, Call, TicketNumbers};
use crate::switches::Switch;
use crate::tickets::Ticket;
use cells::rules::Rule;
use cells::stores::Store;
use egress::takings::Taking;
use forwarding::routes::Forwarding;
use frame::refusals::Refusal;
use gates::plans::Plan;

impl<S: Store, P: Plan, R: Rule, F: Forwarding> Switch<S, P, R, F> {
    // Take, whose ticket goes into the answer as numbers: who made the list returns it.
    fn take_numbers(&mut self, port: u8) -> Result<Taking<TicketNumbers>, Refusal>
        ensures answer { told taken result ≡ take_answer (behind P.fills P.opens R.floors F.forwards self.old) (state self.old) port }
        ensures state { state self.new ≡ take_state (behind P.fills P.opens R.floors F.forwards self.old) (state self.old) port }
        ensures kinds { kinds self.new ≡ kinds self.old }
        ensures contents { OnlyFreed (contents self.old) (contents self.new) }
        ensures kept { Kept result self.old self.new }
    {
        let Taking { taken, overdrawn } = self.take(port)?;
        Ok(Taking {
            taken: taken.map(|ticket| ticket.spend()),
            overdrawn,
        })
    }

    // Look with a ticket of these numbers.
    fn look_with(&self, numbers: TicketNumbers, buffer: &mut [u8]) -> Result<usize, Refusal>
        ensures answer { told (λ n. n) result ≡ look_answer (state self.now) (numbered numbers).port (numbered numbers).number buffer.old }
        ensures buffer { buffer.new ≡ look_buffer (state self.now) (numbered numbers).port (numbered numbers).number buffer.old }
    {
        let ticket = Ticket::from(numbers);
        let looked = self.look(&ticket, buffer);
        ticket.spend();
        looked
    }

    // Makes the call. Only Look writes to the buffer.
    pub fn make(&mut self, call: Call<'_>, buffer: &mut [u8]) -> Answer
        ensures answer { answer_with result buffer.new ≡ answer_of (behind P.fills P.opens R.floors F.forwards self.old) (state self.old) (call_with call.entry buffer.old) }
        ensures buffer { buffer.new ≡ buffer_after (answer_with result buffer.new) buffer.old }
        ensures state { state self.new ≡ state_after (behind P.fills P.opens R.floors F.forwards self.old) (state self.old) (call_with call.entry buffer.old) }
        ensures kinds { kinds self.new ≡ kinds self.old }
        ensures contents { ContentsAfter (arrived_in (answer_with result buffer.new)) (contents self.old) (contents self.new) }
        ensures kept { refuses (answer_with result buffer.new) ≡ true → self.new ≡ self.old }
        ensures addressed { Addressed (call_with call.entry buffer.old) }
    {
        match call {
            Call::Arrive { port, frame } => Answer::Arrived(self.arrive(port, frame)),
            Call::Tick => Answer::Ticked(self.tick()),
            Call::Take { port } => Answer::Took(self.take_numbers(port)),
            Call::Look(numbers) => Answer::Looked(self.look_with(numbers, buffer)),
            Call::Return(numbers) => Answer::Returned(self.return_ticket(Ticket::from(numbers))),
            Call::Clear { port } => Answer::Cleared(self.clear(port)),
        }
    }
}
