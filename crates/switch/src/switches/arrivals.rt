// Arrive: a frame comes in.
ghost use Rattle.std.specs.Prelude.{◌≡◌, ◌^◌, ◌<◌};
ghost use Rattle.frame.specs.Frames.{class, destination};
ghost use Rattle.frame.specs.Refusals.{Kept, told};
ghost use Rattle.rules.specs.Cells.{ContentsAfter};
ghost use Rattle.rules.specs.Runs.{granted};
ghost use Rattle.rules.specs.Switch.{arrive_answer, arrive_checks, arrive_state, judged, set_of, way_of};
ghost use Rattle.switch.specs.Answers.{arrived};
ghost use Rattle.switch.specs.Admissions.{CellsAfter, admission};
ghost use Rattle.switch.specs.Switches.{behind, cells, contents, kinds, state};

use crate::answers::Arrived;
use crate::headings::{find_ports, read_heading};
use crate::switches::Switch;
use crate::switches::starts::NUMBERS;
use cells::rules::{Rule, admits};
use cells::stores::Store;
use egress::queues::queue_of;
use forwarding::routes::Forwarding;
use frame::classes::Class;
use frame::numbers::PortSet;
use frame::refusals::Refusal;
use gates::plans::Plan;

// A frame that may come in: its class, and the ports that it goes to.
#[derive(Clone, Copy)]
pub(crate) struct Admission {
    pub(crate) class: Class,
    pub(crate) ports: PortSet,
}

impl<S: Store, P: Plan, R: Rule, F: Forwarding> Switch<S, P, R, F> {
    // Judges a frame, and changes nothing.
    fn admit(&self, port: u8, bytes: &[u8]) -> Result<Admission, Refusal>
        ensures { told admission result ≡ judged (arrive_checks (behind P.fills P.opens R.floors F.forwards self.now) (state self.now) port bytes.now) (class bytes.now, set_of (way_of (behind P.fills P.opens R.floors F.forwards self.now) (state self.now) port bytes.now)) }
    {
        let heading = read_heading(port, bytes)?;
        if self.pool.buffers.next() >= NUMBERS {
            return Err(Refusal::NumbersUsedUp);
        }
        let ports = find_ports(&self.kinds.forwarding, heading)?;
        if !admits(&self.kinds.rule, heading.class, self.pool.store.free()) {
            return Err(Refusal::TooFewCells(heading.class));
        }
        Ok(Admission {
            class: heading.class,
            ports,
        })
    }

    // A frame that no check refuses gets a number, a cell, and a copy at each port that it goes to.
    pub fn arrive(&mut self, port: u8, bytes: &[u8]) -> Result<Arrived, Refusal>
        ensures answer { told arrived result ≡ arrive_answer (behind P.fills P.opens R.floors F.forwards self.old) (state self.old) port bytes.now }
        ensures state { state self.new ≡ arrive_state (behind P.fills P.opens R.floors F.forwards self.old) (state self.old) port bytes.now }
        ensures kinds { kinds self.new ≡ kinds self.old }
        ensures cells { CellsAfter (cells self.old) (told arrived result) (cells self.new) }
        ensures contents { ContentsAfter (granted (told arrived result)) (contents self.old) (contents self.new) }
        ensures kept { Kept result self.old self.new }
        ensures addressed { destination bytes.now < 2 ^ 48 }
    {
        let Admission { class, ports } = self.admit(port, bytes)?;
        let queue = queue_of(class, self.kinds.plan.fill(self.slot));
        let number = self.pool.accept(class, ports, queue, bytes);
        Ok(Arrived {
            number,
            class,
            ports,
        })
    }
}
