// What a record asks for is performed.
ghost use Rattle.std.specs.Prelude.{◌≡◌, [], ◌∷◌, map, Some};
ghost use Rattle.std.specs.Option.{option_to_list};
ghost use Rattle.frame.specs.Refusals.{told};
ghost use Rattle.lines.specs.Lines.{sent};
ghost use Rattle.lines.specs.Outcomes.{outcome};
ghost use Rattle.records.specs.Format.{asks, send};
ghost use Rattle.rules.specs.Runs.{arrive, clear, tick};
ghost use Rattle.switch.specs.Answers.{ticket_of};
ghost use Rattle.planning.specs.Records.{calls_of, with_ticket};
ghost use Rattle.planning.specs.Schedules.{by_answer};
ghost use Rattle.planning.specs.Sessions.{Performed, behind_in, buffer_in, state_in};

use crate::sessions::Session;
use egress::takings::Taking;
use forwarding::routes::Forwarding;
use frame::refusals::Refusal;
use lines::outcomes::Outcome;
use records::kinds::Record;
use switch::answers::{Arrived, Ticked};
use switch::tickets::Ticket;

impl<F: Forwarding> Session<F> {
    fn arrive(&mut self, port: u8, frame: &[u8]) -> Result<Outcome, Refusal>
        ensures { Performed (behind_in F.forwards self.old) self.old (arrive port frame.now ∷ []) (by_answer (λ o. o) (told outcome result) ∷ []) self.new }
    {
        let Arrived {
            number,
            class,
            ports,
        } = self.switch.arrive(port, frame)?;
        Ok(Outcome::Laid {
            number,
            class,
            ports,
        })
    }

    fn tick(&mut self) -> Result<Outcome, Refusal>
        ensures { Performed (behind_in F.forwards self.old) self.old (tick ∷ []) (by_answer (λ o. o) (told outcome result) ∷ []) self.new }
    {
        let Ticked { slot, late } = self.switch.tick()?;
        Ok(Outcome::Slot { slot, late })
    }

    fn clear(&mut self, port: u8) -> Result<Outcome, Refusal>
        ensures { Performed (behind_in F.forwards self.old) self.old (clear port ∷ []) (by_answer (λ o. o) (told outcome result) ∷ []) self.new }
    {
        let count = self.switch.clear(port)?;
        Ok(Outcome::Cleared { port, count })
    }

    // The bytes of the frame are looked at, as a port card would send them, and the ticket is returned.
    fn transmit(&mut self, ticket: Ticket, overdrawn: u32) -> Outcome
        ensures answer { outcome result ≡ sent (ticket_of ticket).port (ticket_of ticket).number overdrawn }
        ensures performed { Performed (behind_in F.forwards self.old) self.old (with_ticket (Some (ticket_of ticket)) (buffer_in self.old)) [] self.new }
    {
        let port = ticket.port();
        let number = ticket.number();
        let _ = self.switch.look(&ticket, &mut self.buffer);
        let _ = self.switch.return_ticket(ticket);
        Outcome::Sent {
            port,
            number,
            overdrawn,
        }
    }

    fn send(&mut self, port: u8) -> Result<Outcome, Refusal>
        ensures { Performed (behind_in F.forwards self.old) self.old (calls_of (behind_in F.forwards self.old) (state_in self.old) (buffer_in self.old) (send port)) (by_answer (λ o. o) (told outcome result) ∷ []) self.new }
    {
        let Taking { taken, overdrawn } = self.switch.take(port)?;
        match taken {
            Some(ticket) => Ok(self.transmit(ticket, overdrawn)),
            None => Ok(Outcome::Idle { port, overdrawn }),
        }
    }

    // What the record came to. An opening asks for no call: it is none but the first record.
    pub fn perform(&mut self, asked: Record<'_>) -> Option<Outcome>
        ensures { Performed (behind_in F.forwards self.old) self.old (calls_of (behind_in F.forwards self.old) (state_in self.old) (buffer_in self.old) (asks asked.entry)) (map outcome (option_to_list result)) self.new }
    {
        let performed = match asked {
            Record::New(_) => return None,
            Record::Arrive { port, frame } => self.arrive(port, frame),
            Record::Tick => self.tick(),
            Record::Send { port } => self.send(port),
            Record::Clear { port } => self.clear(port),
        };
        Some(performed.unwrap_or_else(Outcome::Refused))
    }
}
