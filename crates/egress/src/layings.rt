// Letting a frame in, and laying its copies.
ghost use Rattle.std.specs.Prelude.{◌≡◌, ℕ, ◌+◌, ◌^◌, ◌<◌, true, false};
ghost use Rattle.buffers.specs.Holdings.{contents, copies_in, egress, filled, frame_at, free, next_number};
ghost use Rattle.cells.specs.Stores.{free_count};
ghost use Rattle.frame.specs.Classes.{class_number};
ghost use Rattle.frame.specs.Frames.{fits};
ghost use Rattle.frame.specs.Numbers.{cell_number, in_set, queue_number, set_bits};
ghost use Rattle.rules.specs.Cells.{LetIn};
ghost use Rattle.rules.specs.Copies.{put};
ghost use Rattle.egress.specs.Agreements.{Grants};
ghost use Rattle.egress.specs.Ports.{each_port, laid_in};

use crate::pools::Pool;
use buffers::buffers::Buffers;
use cells::stores::Store;
use frame::classes::Class;
use frame::numbers::{Cell, FrameNumber, Port, PortSet, Queue};

// Lays a copy of the frame in a cell at each of these ports.
pub fn lay_copies(buffers: &mut Buffers, ports: PortSet, queue: Queue, cell: Cell)
    requires filled { filled buffers.old (cell_number cell) ≡ true }
    requires copies { (p : ℕ) → p < 4 → copies_in buffers.old p (cell_number cell) ≡ 0 }
    ensures state { (d : ℕ) → egress d buffers.new ≡ each_port (laid_in (set_bits ports) (queue_number queue) (frame_at buffers.old (cell_number cell))) 4 (egress d buffers.old) }
    ensures cells { (p : ℕ) → p < 4 → in_set (set_bits ports) p ≡ true → free buffers.new ≡ put (free buffers.old) (cell_number cell) false }
    ensures number { next_number buffers.new ≡ next_number buffers.old }
    ensures frames { frame_at buffers.new ≡ frame_at buffers.old }
{
    for port in Port::ALL {
        if ports.has(port) {
            buffers.lay(port, queue, cell);
        }
    }
}

impl<S: Store> Pool<S> {
    // Gives a frame a cell and a number, and lays its copies.
    pub fn accept(
        &mut self,
        class: Class,
        ports: PortSet,
        queue: Queue,
        frame: &[u8],
    ) -> FrameNumber
        requires room { 0 < free_count (S.marks self.old.store) }
        requires ports { 0 < set_bits ports }
        requires fits { fits frame.now ≡ true }
        requires numbers { next_number self.old.buffers < 2 ^ 48 }
        ensures answer { result.0 ≡ next_number self.old.buffers }
        ensures state { (d : ℕ) → egress d self.new.buffers ≡ each_port (laid_in (set_bits ports) (queue_number queue) (record { number = next_number self.old.buffers; class = class_number class; bytes = frame.now })) 4 (egress d self.old.buffers) }
        ensures number { next_number self.new.buffers ≡ next_number self.old.buffers + 1 }
        ensures cells { Grants (S.marks self.old.store) (S.marks self.new.store) }
        ensures contents { LetIn (next_number self.old.buffers) (contents self.old.buffers) (contents self.new.buffers) }
    {
        let cell = self.store.grant().unwrap();
        let number = self.buffers.place(cell, class, frame);
        lay_copies(&mut self.buffers, ports, queue, cell);
        number
    }
}
