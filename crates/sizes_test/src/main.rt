// Runs over traces from standard input, each with lent areas of its own lengths, and what they leave.
//
// A case is a head of nine bytes and a trace: the trace's length, the lengths of the block, stretch and count areas,
// each as two bytes, lower first, and the byte that fills the areas before the run.
#![tactic(auto)]

ghost use Rattle.std.specs.Prelude.{◌<◌, length, IfSome};

use pass::answers::Report;
use sizes::run::run;
use std::io;
use std::io::Read;
use terms::Fault;

// No more of the input is read.
const LARGEST_INPUT: u64 = 65536;

// The lengths of the areas of which a case is lent a part.
const BLOCKS: usize = 130;

const STRETCHES: usize = 16300;

const COUNTS: usize = 770;

#[derive(Clone, Copy)]
struct Case<'a> {
    trace: &'a [u8],
    blocks: usize,
    stretches: usize,
    counts: usize,
    filled: u8,
}

// The case at the front of the bytes and the bytes after it; none where the bytes do not hold all of it. `salvage_test` cuts its cases likewise: a crate between the
// two would be longer than what it saves.
fn first_case(bytes: &[u8]) -> Option<(Case<'_>, &[u8])>
    ensures { IfSome result (λ case. length case.1.now < length bytes.now) }
{
    let (head, rest) = bytes.split_first_chunk::<9>()?;
    let number = |at: usize| usize::from(u16::from_le_bytes([head[at], head[at + 1]]));
    let (trace, rest) = rest.split_at_checked(number(0))?;
    let case = Case {
        trace,
        blocks: number(2),
        stretches: number(4),
        counts: number(6),
        filled: head[8],
    };
    Some((case, rest))
}

fn print_answer(rt: &impl Print, answer: Result<Report, Fault>) -> io::Result<()> {
    match answer {
        Ok(report) => print!(rt; "done {} {} {}", report.reads, report.total, report.one),
        Err(fault) => print!(rt; "refused {} {}", u32::from(fault.refusal), fault.place),
    }
}

// The numbers up to the last one that is another than a value.
fn changed<T: PartialEq + Copy>(area: &[T], value: T) -> &[T] {
    let end = area
        .iter()
        .rposition(|number| *number != value)
        .map_or(0, |last| last + 1);
    &area[..end]
}

// How far an area was changed, and how far what was changed is not zero.
fn print_changed<T: PartialEq + Copy + From<u8>>(
    rt: &impl Print,
    area: &[T],
    filled: u8,
) -> io::Result<()> {
    let written = changed(area, T::from(filled));
    print!(rt; " {} {}", written.len(), changed(written, T::from(0)).len())
}

// The part of an area that is lent, no longer than the area.
fn front<T>(area: &mut [T], length: usize) -> &mut [T] {
    let length = length.min(area.len());
    &mut area[..length]
}

fn run_case(rt: &impl Print, case: Case<'_>) -> io::Result<()> {
    let mut blocks = [u64::from(case.filled); BLOCKS];
    let mut stretches = [u16::from(case.filled); STRETCHES];
    let mut counts = [u64::from(case.filled); COUNTS];
    let answer = run(
        case.trace,
        front(&mut blocks, case.blocks),
        front(&mut stretches, case.stretches),
        front(&mut counts, case.counts),
    );
    print_answer(rt, answer)?;
    print_changed(rt, &blocks, case.filled)?;
    print_changed(rt, &stretches, case.filled)?;
    print!(rt; " counts")?;
    for count in changed(&counts, u64::from(case.filled)) {
        print!(rt; " {count}")?;
    }
    println!(rt)
}

fn run_all(rt: &impl Print, bytes: &[u8]) -> io::Result<()> {
    let mut left = bytes;
    while let Some((case, rest)) = first_case(left) {
        run_case(rt, case)?;
        left = rest;
    }
    Ok(())
}

fn main(rt: HostRuntime) -> io::Result<()> {
    let mut bytes = Vec::new(rt.alloc());
    rt.reader().take(LARGEST_INPUT).read_to_end(&mut bytes)?;
    run_all(&rt, bytes.as_slice())
}
