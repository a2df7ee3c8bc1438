// Figures of the trace format: each line that is printed is a question and its answer.
#![tactic(auto)]

use std::{fmt, io};
use terms::range::LARGEST_SIZE;
use terms::{Fault, Refusal};
use trace::header::{read_header, write_header};
use trace::number::read_number;
use trace::record::{read_record, rest, write_record};

// Bytes and a place among them: first such as a number stands at, and then others.
const NUMBERS: [(&[u8], usize); 27] = [
    (b"\x00", 0),
    (b"\x7f", 0),
    (b"\x80\x01", 0),
    (b"\xac\x02", 0),
    (b"\xff\x7f", 0),
    (b"\x80\x80\x01", 0),
    (b"\xff\xff\x03", 0),
    (b"\x80\x80\x04", 0),
    (b"\xff\xff\x7f", 0),
    (b"\x80\x80\x80\x01", 0),
    (b"\xff\xff\xff\x7f", 0),
    (b"\x80\x80\x80\x80\x01", 0),
    (b"\xff\xff\xff\xff\x0f", 0),
    (b"\x05\xff\xff", 0),
    (b"\x05\xac\x02", 1),
    (b"", 0),
    (b"\x80", 0),
    (b"\xff\xff\xff\xff", 0),
    (b"\x80\x00", 0),
    (b"\xff\x00", 0),
    (b"\x80\x80\x00", 0),
    (b"\x80\x80\x80\x80\x00", 0),
    (b"\xff\xff\xff\xff\x10", 0),
    (b"\x80\x80\x80\x80\x80", 0),
    (b"\x80\x80\x80\x80\x8f\x00", 0),
    (b"\x05\xac\x02", 3),
    (b"\x05\xac\x02", usize::MAX),
];

// Bytes that begin with a header, and others.
const HEADERS: [&[u8]; 16] = [
    b"\x01\x01",
    b"\x01\x05",
    b"\x01\x7f\x01\x0a\x01",
    b"",
    b"\x01",
    b"\x80",
    b"\x81\x00\x05",
    b"\x00\x05",
    b"\x02\x05",
    b"\x02",
    b"\x02\x80\x00",
    b"\x01\x00",
    b"\x01\x80\x01",
    b"\x01\x80",
    b"\x01\x85\x00",
    b"\x01\xff\xff\xff\xff\x10",
];

// Bytes that begin with a record, and others.
const RECORDS: [&[u8]; 24] = [
    b"\x00\x00\x00",
    b"\x00\x00\x01",
    b"\x01\x0a\x00",
    b"\x01\x0a\x00\x01\x0a\x01",
    b"\x01\x80\x01\x00\x05",
    b"\xff\xff\x03\xff\xff\xff\xff\x0f\x00",
    b"\x01\x0a\x01\x01\x0b\x02",
    b"\x01\x0a\xff\x7f",
    b"\xff\xff\x03\xff\xff\xff\xff\x0f\xff\x7f",
    b"\xff\xff\x03\xff\xff\xff\xff\x0f\xff\x7f\xff\xff",
    b"",
    b"\x01",
    b"\x01\x0a",
    b"\x80",
    b"\x01\x80",
    b"\x01\x0a\x80",
    b"\x80\x00\x0a\x01",
    b"\x01\xff\xff\xff\xff\x10\x01",
    b"\x01\x0a\x81\x00",
    b"\x80\x80\x04",
    b"\x80\x80\x04\x80\x00",
    b"\x01\x0a\x80\x00",
    b"\x01\x0a\x80\x80\x01",
    b"\x01\x80\x01\x80\x80\x01\x05",
];

// Headers to be written: the room, the offset, the edition and the size.
const WRITTEN_HEADERS: [(usize, usize, u64, u64); 14] = [
    (2, 0, 1, 1),
    (12, 0, 1, 127),
    (12, 5, 1, 3),
    (12, 10, 1, 3),
    (12, 11, 1, 3),
    (12, 12, 1, 3),
    (4, 5, 1, 3),
    (4, usize::MAX, 1, 3),
    (0, 0, 1, 3),
    (12, 0, 0, 3),
    (12, 0, 2, 0),
    (12, 0, 1, 0),
    (12, 0, 1, 128),
    (1, 0, 1, 128),
];

// Records to be written: the room, the offset, the volume, the block and the priority.
const WRITTEN_RECORDS: [(usize, usize, u64, u32, u64); 26] = [
    (12, 0, 1, 10, 1),
    (12, 4, 65535, 127, 16383),
    (12, 2, 65535, u32::MAX, 16383),
    (12, 3, 65535, u32::MAX, 16383),
    (9, 0, 65535, u32::MAX, 16383),
    (10, 0, 16383, 16384, 128),
    (12, 9, 0, 0, 1),
    (12, 10, 0, 0, 1),
    (12, 13, 0, 0, 1),
    (0, 0, 0, 0, 1),
    (12, 0, 1, 10, 0),
    (12, 4, 65535, 127, 0),
    (12, 3, 65535, u32::MAX, 0),
    (12, 4, 65535, u32::MAX, 0),
    (12, 9, 0, 0, 0),
    (12, 10, 0, 0, 0),
    (12, 12, 0, 0, 0),
    (12, 13, 0, 0, 0),
    (12, usize::MAX, 0, 0, 0),
    (3, 0, 0, 0, 0),
    (2, 0, 0, 0, 0),
    (0, 0, 0, 0, 0),
    (12, 0, 65536, 0, 0),
    (12, 0, 65536, 0, 16384),
    (12, 0, 1, 0, 16384),
    (1, 0, 1, 0, 16384),
];

// Each byte after a space.
#[derive(Clone, Copy)]
struct Bytes<'a>(&'a [u8]);

impl fmt::Display for Bytes<'_> {
    fn fmt<W: fmt::Write>(&self, f: &mut fmt::Formatter<W>) -> fmt::Result {
        for byte in self.0 {
            write!(f, " {byte:02x}")?;
        }
        Ok(())
    }
}

// A refusal by its number.
#[derive(Clone, Copy)]
struct Refused(Refusal);

impl fmt::Display for Refused {
    fn fmt<W: fmt::Write>(&self, f: &mut fmt::Formatter<W>) -> fmt::Result {
        write!(f, "refused {}", u32::from(self.0))
    }
}

// The same, and its place.
#[derive(Clone, Copy)]
struct RefusedAt(Fault);

impl fmt::Display for RefusedAt {
    fn fmt<W: fmt::Write>(&self, f: &mut fmt::Formatter<W>) -> fmt::Result {
        write!(f, "{} at {}", Refused(self.0.refusal), self.0.place)
    }
}

// The length written, or the refusal.
#[derive(Clone, Copy)]
struct Written(Result<usize, Refusal>);

impl fmt::Display for Written {
    fn fmt<W: fmt::Write>(&self, f: &mut fmt::Formatter<W>) -> fmt::Result {
        match self.0 {
            Ok(length) => write!(f, "length {length}"),
            Err(refusal) => write!(f, "{}", Refused(refusal)),
        }
    }
}

fn number(rt: &impl Print, bytes: &[u8], at: usize) -> io::Result<()> {
    print!(rt; "number{} at {at}: ", Bytes(bytes))?;
    match read_number(bytes, at) {
        Ok(number) => println!(rt; "value {} length {}", number.value, number.length),
        Err(refusal) => println!(rt; "{}", Refused(refusal)),
    }
}

fn header(rt: &impl Print, bytes: &[u8]) -> io::Result<()> {
    print!(rt; "header{}: ", Bytes(bytes))?;
    match read_header(bytes, LARGEST_SIZE as u64) {
        Ok(header) => println!(rt;
            "edition {} size {} length {}",
            header.edition, header.size, header.length
        ),
        Err(fault) => println!(rt; "{}", RefusedAt(fault)),
    }
}

fn record(rt: &impl Print, bytes: &[u8]) -> io::Result<()> {
    print!(rt; "record{}: ", Bytes(bytes))?;
    match read_record(bytes) {
        Ok(record) => print!(rt;
            "volume {} block {} priority {} length {}",
            record.volume, record.block, record.priority, record.length
        )?,
        Err(fault) => print!(rt; "{}", RefusedAt(fault))?,
    }
    println!(rt; " rest{}", Bytes(rest(bytes)))
}

// A header written into the first bytes of a buffer.
fn header_into(rt: &impl Print, room: usize, at: usize, edition: u64, size: u64) -> io::Result<()> {
    let mut buffer = [0xee; 12];
    let Some(front) = buffer.get_mut(..room) else {
        return Ok(());
    };
    let answer = Written(write_header(front, at, edition, size));
    println!(rt;
        "write header room {room} at {at} edition {edition} size {size}: {answer} buffer{}",
        Bytes(&buffer)
    )
}

// A record, likewise.
fn record_into(
    rt: &impl Print,
    room: usize,
    at: usize,
    volume: u64,
    block: u32,
    priority: u64,
) -> io::Result<()> {
    let mut buffer = [0xee; 12];
    let Some(front) = buffer.get_mut(..room) else {
        return Ok(());
    };
    let answer = Written(write_record(front, at, volume, block, priority));
    println!(rt;
        "write record room {room} at {at} volume {volume} block {block} priority {priority}: {answer} buffer{}",
        Bytes(&buffer)
    )
}

fn numbers(rt: &impl Print) -> io::Result<()> {
    for (bytes, at) in NUMBERS {
        number(rt, bytes, at)?;
    }
    Ok(())
}

fn headers(rt: &impl Print) -> io::Result<()> {
    for bytes in HEADERS {
        header(rt, bytes)?;
    }
    Ok(())
}

fn records(rt: &impl Print) -> io::Result<()> {
    for bytes in RECORDS {
        record(rt, bytes)?;
    }
    Ok(())
}

fn written_headers(rt: &impl Print) -> io::Result<()> {
    for (room, at, edition, size) in WRITTEN_HEADERS {
        header_into(rt, room, at, edition, size)?;
    }
    Ok(())
}

fn written_records(rt: &impl Print) -> io::Result<()> {
    for (room, at, volume, block, priority) in WRITTEN_RECORDS {
        record_into(rt, room, at, volume, block, priority)?;
    }
    Ok(())
}

fn main(rt: HostRuntime) -> io::Result<()> {
    numbers(&rt)?;
    headers(&rt)?;
    records(&rt)?;
    written_headers(&rt)?;
    written_records(&rt)
}
