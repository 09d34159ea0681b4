// Numbers that cannot be taken for one another. A ghost field is the range of its type. Each has its range in words of its
// own: one generic type for them would need a tag, a bound and an integer as parameters, to say less.
// As of std's NonZero, `new` answers an Option, and a method gives the number back: no error would say more than none.
ghost use Rattle.std.specs.Prelude.{◌^◌, ◌<◌};

pub mod addresses;
pub mod cells;
pub mod ports;
pub mod queues;
pub mod sets;
pub mod slots;

// One of the switch's ports, 0 to 3.
#[derive(Clone, Copy, PartialEq, Eq)]
pub struct Port {
    number: u8,
    ghost within: { number < 4 },
}

// A set of ports, as a number 0 to 15 in which port p counts 2^p.
#[derive(Clone, Copy, PartialEq, Eq)]
pub struct PortSet {
    bits: u8,
    ghost within: { bits < 16 },
}

// One of the four queues of a port. Of queues 0 and 1 one fills while the other is sent, and they change over with every
// slot; what is in queue 2 is paid for in tokens; queue 3 is for best effort.
#[derive(Clone, Copy, PartialEq, Eq)]
pub enum Queue {
    Cyclic0 = 0,
    Cyclic1 = 1,
    Paid = 2,
    BestEffort = 3,
}

// A time slot, 0 to 2^48 - 1.
#[derive(Clone, Copy, PartialEq, Eq)]
pub struct Slot {
    number: u64,
    ghost within: { number < 2 ^ 48 },
}

// A hardware address (EUI-48) as a 48-bit number: the byte that comes first on the line is the highest.
#[derive(Clone, Copy, PartialEq, Eq)]
pub struct Address {
    bits: u64,
    ghost within: { bits < 2 ^ 48 },
}

// The number that a frame gets when it is accepted. Order and tickets go by it.
#[derive(Clone, Copy, PartialEq, Eq)]
pub struct FrameNumber(pub u64);

// The number of a memory cell, which may be any: a store refuses one that there is not. Only the store and the frame
// memory read it.
#[derive(Clone, Copy, Default, PartialEq, Eq)]
pub struct CellId(pub u8);

// A memory cell that there is, 0 to 31.
#[derive(Clone, Copy, PartialEq, Eq)]
pub struct Cell {
    number: u8,
    ghost within: { number < 32 },
}
