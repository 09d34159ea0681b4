// Tick: a slot begins.
ghost use Rattle.std.specs.Prelude.{◌≡◌};
ghost use Rattle.frame.specs.Refusals.{Kept, told};
ghost use Rattle.rules.specs.Cells.{OnlyFreed};
ghost use Rattle.rules.specs.Switch.{tick_answer, tick_state};
ghost use Rattle.switch.specs.Answers.{ticked};
ghost use Rattle.switch.specs.Switches.{behind, contents, kinds, state};

use crate::answers::Ticked;
use crate::switches::Switch;
use cells::rules::Rule;
use cells::stores::Store;
use forwarding::routes::Forwarding;
use frame::refusals::Refusal;
use gates::plans::Plan;

impl<S: Store, P: Plan, R: Rule, F: Forwarding> Switch<S, P, R, F> {
    // What still waits in the queue that is to fill ends late, and every port gets new tokens.
    pub fn tick(&mut self) -> Result<Ticked, Refusal>
        ensures answer { told ticked result ≡ tick_answer (behind P.fills P.opens R.floors F.forwards self.old) (state self.old) }
        ensures state { state self.new ≡ tick_state (behind P.fills P.opens R.floors F.forwards self.old) (state self.old) }
        ensures kinds { kinds self.new ≡ kinds self.old }
        ensures contents { OnlyFreed (contents self.old) (contents self.new) }
        ensures kept { Kept result self.old self.new }
    {
        let slot = self.slot.next()?;
        let queue = self.kinds.plan.fill(slot);
        let late = self.pool.turn_ports(queue, self.bucket);
        self.slot = slot;
        Ok(Ticked { slot, late })
    }
}
