// Whole inputs, good and damaged.
use crate::cursors::Cursor;
use crate::kinds::Record;
use frame::refusals::Refusal;

// An opening with one row, an arrival and a send, at the places 0, 33 and 40.
const INPUT: &[u8; 45] =
    b"\0\x1f\x01\0\0\0\0\0\0\x09\0\0\0\0\x01\0\0\x04\0\x08\0\x03\0\x06\x01\x01\x02\0\0\0\0\x05\x03\
    \0\x05\x01\x01\x02\xaa\xbb\
    \0\x03\x01\x03\x01";

// The place of the first fault among the first four records, if there is one.
fn fault(input: &[u8]) -> Option<u64> {
    let mut cursor = Cursor::new(input);
    let refusal = (0..4).find_map(|_| cursor.next().err())?;
    Some(refusal.value())
}

#[test]
fn faults_have_their_places(rt: HostRuntime) {
    let whole = *INPUT;
    assert_eq!(rt; fault(&whole), None);
    assert_eq!(rt; fault(&whole[0..0]), None);
    assert_eq!(rt; fault(&whole[0..44]), Some(40));
    assert_eq!(rt; fault(&whole[0..41]), Some(40));
    assert_eq!(rt; fault(&[0; 65537]), Some(65536));
    // A byte of the input, what it is changed to, and where the fault then is.
    for (at, byte, place) in [
        (1, 30, 0),
        (2, 2, 0),
        (3, 1, 0),
        (24, 2, 0),
        (25, 2, 0),
        (34, 1, 33),
        (34, 11, 33),
        (34, 6, 41),
        (36, 0, 33),
        (36, 2, 33),
        (36, 5, 33),
        (41, 2, 40),
    ] {
        let mut input = whole;
        if at < input.len() {
            input[at] = byte;
        }
        assert_eq!(rt; fault(&input), Some(place));
    }
}

// The first answer and the second are what stands in the input.
fn opens(answer: Result<Option<Record>, Refusal>) -> bool {
    let Ok(Some(Record::New(o))) = answer else {
        return false;
    };
    (o.slot, o.number, o.rate, o.depth) == (9, 256, 4, 8)
        && (o.reserved, o.best_effort, o.tap, o.rows.len()) == (3, 6, true, 1)
        && o.rows
            .map(|row| (row.address.bits(), row.ports))
            .eq([(0x0200_0000_0005, 3)])
}

fn arrives(answer: Result<Option<Record>, Refusal>) -> bool {
    matches!(
        answer,
        Ok(Some(Record::Arrive {
            port: 2,
            frame: [0xAA, 0xBB],
        }))
    )
}

#[test]
fn values_are_read(rt: HostRuntime) {
    let mut cursor = Cursor::new(INPUT);
    assert!(rt; opens(cursor.next()));
    assert!(rt; arrives(cursor.next()));
    assert_eq!(rt; cursor.place(), 40);
}
