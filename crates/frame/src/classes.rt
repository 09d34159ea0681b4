// The four classes of traffic.
ghost use Rattle.std.specs.Prelude.{◌≡◌, Bool};
ghost use Rattle.frame.specs.Classes.{class_number, class_of};

#[derive(Clone, Copy, PartialEq, Eq)]
pub enum Class {
    BestEffort = 0,
    Reserved = 1,
    Clock = 2,
    TimeSensitive = 3,
}

// The type of the clock's messages (PTP).
pub const CLOCK_TYPE: u16 = 0x88F7;

impl Class {
    // The class of a frame, from its tag's priority where it is tagged, and else from its type: by the project's rule one
    // match with ranges of the priority, guarded by tag and type.
    pub fn of(tagged: bool, priority: u8, kind: u16) -> Class
        ensures { class_number result ≡ class_of tagged priority kind }
    {
        match priority {
            6..=7 if tagged => Class::TimeSensitive,
            3..=5 if tagged => Class::Reserved,
            _ if !tagged && kind == CLOCK_TYPE => Class::Clock,
            _ => Class::BestEffort,
        }
    }

    pub fn number(self) -> u8
        ensures { result ≡ class_number self }
    {
        self as u8
    }
}
