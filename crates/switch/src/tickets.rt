// The ticket of a copy that was taken. It has to be returned: letting one go is refused.
ghost use Rattle.std.specs.Prelude.{◌≡◌, true};
ghost use Rattle.switch.specs.Answers.{is_spent, numbered, ticket_of};

use crate::calls::TicketNumbers;
use frame::numbers::FrameNumber;

// A Return spends its ticket, and so does a list of calls, which keeps a ticket by its numbers.
// The flag is for the drop alone: that a ticket which is let go is refused is to be a fact that fails in the prover, and a
// type with no drop is refused before that.
pub struct Ticket {
    numbers: TicketNumbers,
    spent: bool,
}

impl Drop for Ticket {
    fn drop(self)
        requires { is_spent self ≡ true }
    {
        let Ticket {
            numbers: _,
            spent: _,
        } = self;
    }
}

// Any numbers make a ticket; the switch tells whether its copy is out.
impl From<TicketNumbers> for Ticket {
    ghost from_gives = { λ numbers ticket. ticket_of ticket ≡ numbered numbers };

    fn from(numbers: TicketNumbers) -> Ticket
        ensures { ticket_of result ≡ numbered numbers }
    {
        Ticket {
            numbers,
            spent: false,
        }
    }
}

impl Ticket {
    pub fn new(port: u8, number: FrameNumber, length: usize) -> Ticket
        ensures { ticket_of result ≡ record { port = port; number = number.0; length = length } }
    {
        Ticket::from(TicketNumbers {
            port,
            number,
            length,
        })
    }

    pub fn port(&self) -> u8
        ensures { result ≡ (ticket_of self.now).port }
    {
        self.numbers.port
    }

    pub fn number(&self) -> FrameNumber
        ensures { result.0 ≡ (ticket_of self.now).number }
    {
        self.numbers.number
    }

    // The length of the frame, in bytes.
    pub fn length(&self) -> usize
        ensures { result ≡ (ticket_of self.now).length }
    {
        self.numbers.length
    }

    // Gives a ticket up for its numbers.
    pub(crate) fn spend(mut self) -> TicketNumbers
        ensures { numbered result ≡ ticket_of self }
    {
        self.spent = true;
        self.numbers
    }
}
