// Take: a copy goes out.
ghost use Rattle.std.specs.Prelude.{◌≡◌};
ghost use Rattle.frame.specs.Refusals.{Kept, told};
ghost use Rattle.rules.specs.Cells.{OnlyFreed};
ghost use Rattle.rules.specs.Switch.{take_answer, take_state};
ghost use Rattle.switch.specs.Answers.{took};
ghost use Rattle.switch.specs.Switches.{behind, contents, kinds, state};

use crate::switches::Switch;
use crate::tickets::Ticket;
use cells::rules::Rule;
use cells::stores::Store;
use egress::takings::{Gates, Taking};
use forwarding::routes::Forwarding;
use frame::numbers::Port;
use frame::refusals::Refusal;
use gates::plans::Plan;

impl<S: Store, P: Plan, R: Rule, F: Forwarding> Switch<S, P, R, F> {
    // What is sent in this slot comes first, then what is paid for, then best effort. The ticket has to be returned.
    pub fn take(&mut self, port: u8) -> Result<Taking<Ticket>, Refusal>
        ensures answer { told took result ≡ take_answer (behind P.fills P.opens R.floors F.forwards self.old) (state self.old) port }
        ensures state { state self.new ≡ take_state (behind P.fills P.opens R.floors F.forwards self.old) (state self.old) port }
        ensures kinds { kinds self.new ≡ kinds self.old }
        ensures contents { OnlyFreed (contents self.old) (contents self.new) }
        ensures kept { Kept result self.old self.new }
    {
        let place = Port::try_from(port)?;
        if let Some(sent) = self.pool.buffers.out(place) {
            return Err(Refusal::PortBusy(sent.number));
        }
        let gates = Gates::of(&self.kinds.plan, self.slot);
        // Put together here, and where a list of calls takes: a `map` would have to ask of its closure what these lines know.
        let taking = self.pool.take_at(place, gates);
        Ok(Taking {
            taken: taking
                .taken
                .map(|sent| Ticket::new(port, sent.number, sent.length)),
            overdrawn: taking.overdrawn,
        })
    }
}
