// Queues.
ghost use Rattle.std.specs.Prelude.{◌≡◌};
ghost use Rattle.std.specs.Option.{option_map};
ghost use Rattle.frame.specs.Numbers.{queue_number, below};

use crate::numbers::Queue;

impl Queue {
    // All four, in their order.
    pub const ALL: [Queue; 4] = [
        Queue::Cyclic0,
        Queue::Cyclic1,
        Queue::Paid,
        Queue::BestEffort,
    ];

    pub fn new(number: u8) -> Option<Queue>
        ensures { option_map queue_number result ≡ below 4 number }
    {
        match number {
            0 => Some(Queue::Cyclic0),
            1 => Some(Queue::Cyclic1),
            2 => Some(Queue::Paid),
            3 => Some(Queue::BestEffort),
            _ => None,
        }
    }

    pub fn number(self) -> u8
        ensures { result ≡ queue_number self }
    {
        self as u8
    }
}
