// Calls and their answers as data, for lists of calls.
use crate::answers::{Arrived, Returned, Ticked};
use egress::takings::Taking;
use frame::numbers::FrameNumber;
use frame::refusals::Refusal;

// The numbers of a ticket, which may be any.
#[derive(Clone, Copy)]
pub struct TicketNumbers {
    pub port: u8,
    pub number: FrameNumber,
    pub length: usize,
}

#[derive(Clone, Copy)]
pub enum Call<'a> {
    Arrive { port: u8, frame: &'a [u8] },
    Tick,
    Take { port: u8 },
    Look(TicketNumbers),
    Return(TicketNumbers),
    Clear { port: u8 },
}

#[derive(Clone, Copy)]
pub enum Answer {
    Arrived(Result<Arrived, Refusal>),
    Ticked(Result<Ticked, Refusal>),
    Took(Result<Taking<TicketNumbers>, Refusal>),
    Looked(Result<usize, Refusal>),
    Returned(Result<Returned, Refusal>),
    Cleared(Result<u32, Refusal>),
}
