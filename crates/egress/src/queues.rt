// Which queue is for what.
ghost use Rattle.std.specs.Prelude.{◌≡◌};
ghost use Rattle.frame.specs.Classes.{class_number};
ghost use Rattle.frame.specs.Numbers.{queue_number};
ghost use Rattle.rules.specs.Copies.{queue_for};

use frame::classes::Class;
use frame::numbers::Queue;

// The queue for a class, in a slot in which this one fills.
pub fn queue_of(class: Class, fill: Queue) -> Queue
    ensures { queue_number result ≡ queue_for (queue_number fill) (class_number class) }
{
    match class {
        Class::TimeSensitive => fill,
        Class::BestEffort => Queue::BestEffort,
        Class::Clock | Class::Reserved => Queue::Paid,
    }
}
