// Salvages of traces from standard input, each into an output and a list of its own lengths, and what they leave.
//
// A case is a head of seven bytes and a trace: the trace's length, the output's length, and how many entries the list has
// room for, each as two bytes, lower first, and the byte that fills the output before the salvage.
#![tactic(auto)]

ghost use Rattle.std.specs.Prelude.{◌<◌, length, IfSome};

use salvage::good::keep_bytes;
use salvage::listing::next_entry;
use salvage::{Entry, Salvaged, Unsalvaged, salvage};
use std::io;
use std::io::Read;
use terms::Refusal;

// No more of the input is read.
const LARGEST_INPUT: u64 = 65536;

// The length of the output of which a case is lent a part.
const OUTPUT: usize = 320;

// The length of the list of which a case is lent a part.
const LIST: usize = 128;

// The bytes of the shortest record: no trace has more entries than records of that length.
const SHORTEST_RECORD: usize = 3;

// An entry that no trace has fills the list before the salvage.
const NO_ENTRY: Entry = Entry {
    offset: u64::MAX,
    length: u64::MAX,
    number: u64::MAX,
};

#[derive(Clone, Copy)]
struct Case<'a> {
    trace: &'a [u8],
    space: usize,
    room: usize,
    filled: u8,
}

// The case at the front of the bytes and the bytes after it; none where the bytes do not hold all of it. `sizes_test` cuts its cases likewise: a crate between the
// two would be longer than what it saves.
fn first_case(bytes: &[u8]) -> Option<(Case<'_>, &[u8])>
    ensures { IfSome result (λ case. length case.1.now < length bytes.now) }
{
    let (head, rest) = bytes.split_first_chunk::<7>()?;
    let number = |at: usize| usize::from(u16::from_le_bytes([head[at], head[at + 1]]));
    let (trace, rest) = rest.split_at_checked(number(0))?;
    let case = Case {
        trace,
        space: number(2),
        room: number(4),
        filled: head[6],
    };
    Some((case, rest))
}

fn print_answer(rt: &impl Print, answer: Result<Salvaged, Unsalvaged>) -> io::Result<()> {
    match answer {
        Ok(salvaged) => print!(rt; "done {} {}", salvaged.bytes, salvaged.entries),
        Err(Unsalvaged::Header(fault)) => {
            print!(rt; "refused {} at {}", u32::from(fault.refusal), fault.place)
        }
        Err(Unsalvaged::Short) => print!(rt; "refused {}", u32::from(Refusal::Space)),
    }
}

// The bytes up to the last one that is not the one that filled the output: they tell all of it.
fn print_output(rt: &impl Print, out: &[u8], filled: u8) -> io::Result<()> {
    print!(rt; " good")?;
    if let Some(last) = out.iter().rposition(|byte| *byte != filled) {
        for byte in &out[..=last] {
            print!(rt; " {byte:02x}")?;
        }
    }
    Ok(())
}

fn print_entry(rt: &impl Print, entry: Entry) -> io::Result<()> {
    print!(rt; " {} {} {}", entry.offset, entry.length, entry.number)
}

// The entries up to the last one that did not fill the list.
fn print_list(rt: &impl Print, list: &[Entry]) -> io::Result<()> {
    print!(rt; " list")?;
    if let Some(last) = list.iter().rposition(|entry| *entry != NO_ENTRY) {
        for entry in &list[..=last] {
            print_entry(rt, *entry)?;
        }
    }
    Ok(())
}

// So many entries from a place of a trace on, each as it is found.
fn print_entries(rt: &impl Print, trace: &[u8], start: usize, entries: usize) -> io::Result<()> {
    print!(rt; " list")?;
    let mut at = start;
    for _ in 0..entries {
        let next = next_entry(trace, at);
        print_entry(rt, next.entry)?;
        at = next.at;
    }
    Ok(())
}

// A list of more entries than any trace has is as good as one of that many. Where that is still more than there is a list for, the two calls that a salvage is
// made of stand for it.
fn run(rt: &impl Print, case: Case<'_>) -> io::Result<()> {
    let mut out = [case.filled; OUTPUT];
    let space = case.space.min(OUTPUT);
    let room = case.room.min(case.trace.len() / SHORTEST_RECORD);
    if room <= LIST {
        let mut list = [NO_ENTRY; LIST];
        let answer = salvage(case.trace, &mut out[..space], &mut list[..room]);
        print_answer(rt, answer)?;
        print_output(rt, &out, case.filled)?;
        print_list(rt, &list)?;
    } else {
        let kept = keep_bytes(case.trace, &mut out[..space], room);
        print_answer(rt, kept.answer)?;
        print_output(rt, &out, case.filled)?;
        print_entries(rt, case.trace, kept.start, kept.entries)?;
    }
    println!(rt)
}

fn run_all(rt: &impl Print, bytes: &[u8]) -> io::Result<()> {
    let mut left = bytes;
    while let Some((case, rest)) = first_case(left) {
        run(rt, case)?;
        left = rest;
    }
    Ok(())
}

fn main(rt: HostRuntime) -> io::Result<()> {
    let mut bytes = Vec::new(rt.alloc());
    rt.reader().take(LARGEST_INPUT).read_to_end(&mut bytes)?;
    run_all(&rt, bytes.as_slice())
}
