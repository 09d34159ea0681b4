// The line of a record, and what it is put together from.
use crate::directions::Directions;
use forwarding::routes::NoRoute;
use frame::classes::Class;
use frame::numbers::{Address, Port, PortSet};
use frame::readings::{Reading, SHORTEST, read};
use records::kinds::Record;
use records::openings::Opening;
use std::fmt;

// A record with its number, counted from 1, its place in the input, and the directions of the opening record: none
// before that record, or where its rows are refused.
#[derive(Drop)]
pub struct Line<'a, 'd> {
    pub number: usize,
    pub place: usize,
    pub record: Record<'a>,
    pub directions: Option<&'d Directions>,
}

impl fmt::Display for Line<'_, '_> {
    fn fmt<W: fmt::Write>(&self, f: &mut fmt::Formatter<W>) -> fmt::Result {
        write!(f, "{} at {}: ", self.number, self.place)?;
        match self.record {
            Record::New(opening) => write!(f, "{}", Settings(opening)),
            Record::Arrive { port, frame } => {
                let arrival = Arrival {
                    port,
                    frame,
                    directions: self.directions,
                };
                write!(f, "{arrival}")
            }
            Record::Tick => f.write_str("tick"),
            Record::Send { port } => write!(f, "send port {port}"),
            Record::Clear { port } => write!(f, "clear port {port}"),
        }
    }
}

#[derive(Drop)]
struct Settings<'a>(Opening<'a>);

impl fmt::Display for Settings<'_> {
    fn fmt<W: fmt::Write>(&self, f: &mut fmt::Formatter<W>) -> fmt::Result {
        let Opening {
            slot,
            number,
            rate,
            depth,
            reserved,
            best_effort,
            tap,
            rows,
        } = self.0;
        let (tap, count) = (u8::from(tap), rows.len());
        write!(
            f,
            "new slot {slot} number {number} rate {rate} depth {depth}"
        )?;
        write!(f, " reserved {reserved} best-effort {best_effort}")?;
        write!(f, " tap {tap} rows {count}")?;
        for row in rows {
            write!(f, ", {} to {}", Colons(row.address), Ports(row.ports))?;
        }
        Ok(())
    }
}

// An address as six pairs of hexadecimal digits with colons between them.
#[derive(Drop)]
struct Colons(Address);

impl fmt::Display for Colons {
    fn fmt<W: fmt::Write>(&self, f: &mut fmt::Formatter<W>) -> fmt::Result {
        let [_, _, a, b, c, d, e, g] = self.0.bits().to_be_bytes();
        write!(f, "{a:02x}:{b:02x}:{c:02x}:{d:02x}:{e:02x}:{g:02x}")
    }
}

// The ports of a set, by its number, which may be too large for one.
#[derive(Drop)]
struct Ports(u8);

impl fmt::Display for Ports {
    fn fmt<W: fmt::Write>(&self, f: &mut fmt::Formatter<W>) -> fmt::Result {
        let Some(set) = PortSet::new(self.0) else {
            return write!(f, "set {} above 15", self.0);
        };
        if set.is_empty() {
            return f.write_str("no port");
        }
        f.write_str("port")?;
        for port in Port::ALL {
            if set.has(port) {
                write!(f, " {}", port.number())?;
            }
        }
        Ok(())
    }
}

// A frame that came in at this port, and where it goes.
#[derive(Drop)]
struct Arrival<'a, 'd> {
    port: u8,
    frame: &'a [u8],
    directions: Option<&'d Directions>,
}

impl fmt::Display for Arrival<'_, '_> {
    fn fmt<W: fmt::Write>(&self, f: &mut fmt::Formatter<W>) -> fmt::Result {
        let length = self.frame.len();
        write!(f, "arrive port {} length {length}", self.port)?;
        match read(self.frame) {
            Ok(frame) => {
                let way = Way {
                    directions: self.directions,
                    destination: frame.destination,
                    port: self.port,
                };
                write!(f, " {}, {way}", Contents(frame.reading))
            }
            Err(_) if length < SHORTEST => f.write_str(" refused 2, too short"),
            Err(_) => f.write_str(" refused 2, too long"),
        }
    }
}

// What a frame carries.
#[derive(Drop)]
struct Contents<'a>(Reading<'a>);

impl fmt::Display for Contents<'_> {
    fn fmt<W: fmt::Write>(&self, f: &mut fmt::Formatter<W>) -> fmt::Result {
        write!(f, "class {} ", ClassName(self.0.class()))?;
        match self.0 {
            Reading::Tagged { priority, .. } => write!(f, "priority {priority} ")?,
            Reading::Clock { .. } | Reading::Plain { .. } => f.write_str("no priority ")?,
        }
        match self.0 {
            Reading::Tagged { kind, place, .. }
            | Reading::Clock { kind, place, .. }
            | Reading::Plain { kind, place, .. } => {
                write!(f, "type 0x{kind:04x} payload at {place}")
            }
        }
    }
}

#[derive(Drop)]
struct ClassName(Class);

impl fmt::Display for ClassName {
    fn fmt<W: fmt::Write>(&self, f: &mut fmt::Formatter<W>) -> fmt::Result {
        f.write_str(match self.0 {
            Class::BestEffort => "best-effort",
            Class::Reserved => "reserved",
            Class::Clock => "clock",
            Class::TimeSensitive => "time-sensitive",
        })
    }
}

// Where a frame to this destination goes that came in at this port, which may be none.
#[derive(Drop)]
struct Way<'d> {
    directions: Option<&'d Directions>,
    destination: Address,
    port: u8,
}

impl fmt::Display for Way<'_> {
    fn fmt<W: fmt::Write>(&self, f: &mut fmt::Formatter<W>) -> fmt::Result {
        let Ok(input) = Port::try_from(self.port) else {
            return f.write_str("no such port");
        };
        let Some(directions) = self.directions else {
            return f.write_str("no table");
        };
        match directions.route(self.destination, input) {
            Ok(set) => write!(f, "to {}", Ports(set.bits())),
            Err(NoRoute::Unknown) => f.write_str("no way out"),
            Err(NoRoute::Tap) => f.write_str("from the tap port"),
        }
    }
}
