// Figures of the card rule: each line that is printed is a read and its answer.
#![tactic(auto)]

use card::outcome::Outcome;
use card::places::{key_of, place_of};
use card::ratio::miss_ratio;
use card::step::{Card, step};
use std::{fmt, io};
use terms::Refusal;
use terms::range::LARGEST_SIZE;

const BLOCKS: u64 = 4294967296;

const LARGEST_KEY: u64 = 281474976710656;

// The trace of Figures 5 and 6 of the paper, as blocks and priorities; its blocks A to D are 1 to 4.
const PAPER: [(u32, u64); 9] = [
    (1, 2),
    (2, 2),
    (3, 5),
    (4, 1),
    (2, 6),
    (4, 6),
    (1, 4),
    (3, 1),
    (1, 4),
];

// A place: a full one is shown as its volume and its block, an empty one as a dash.
#[derive(Clone, Copy)]
struct Place(u64);

impl fmt::Display for Place {
    fn fmt<W: fmt::Write>(&self, f: &mut fmt::Formatter<W>) -> fmt::Result {
        match self.0.checked_sub(1) {
            Some(block) => write!(f, "{}.{}", block / BLOCKS, block % BLOCKS),
            None => write!(f, "-"),
        }
    }
}

// What a step answers, by its number.
#[derive(Clone, Copy)]
struct Answer(Result<Outcome, Refusal>);

impl fmt::Display for Answer {
    fn fmt<W: fmt::Write>(&self, f: &mut fmt::Formatter<W>) -> fmt::Result {
        match self.0 {
            Ok(outcome) => write!(f, "outcome {}", u32::from(outcome)),
            Err(refusal) => write!(f, "refused {}", u32::from(refusal)),
        }
    }
}

// A card of a size with one key at some indices, and else empty.
fn holding(size: usize, indices: &[usize], key: u64) -> Card {
    let mut places = [0; LARGEST_SIZE];
    for &index in indices {
        if let Some(place) = places.get_mut(index) {
            *place = key;
        }
    }
    Card { size, places }
}

fn empty(size: usize) -> Card {
    holding(size, &[], 0)
}

// One read, with the places after it and one more, which no read changes.
fn read(rt: &impl Print, card: Card, volume: u64, block: u32, priority: u64) -> io::Result<Card> {
    print!(rt;
        "size {} volume {volume} block {block} priority {priority}: ",
        card.size
    )?;
    let stepped = step(card, volume, block, priority);
    print!(rt; "{}", Answer(stepped.answer))?;
    let after = stepped.card;
    for place in after.places.iter().take(after.size.saturating_add(1)) {
        print!(rt; " {}", Place(*place))?;
    }
    println!(rt)?;
    Ok(after)
}

// Reads in turn, each with its volume, its block and its priority.
fn read_all(rt: &impl Print, mut card: Card, reads: &[(u64, u32, u64)]) -> io::Result<()> {
    for &(volume, block, priority) in reads {
        card = read(rt, card, volume, block, priority)?;
    }
    Ok(())
}

// Reads 10 and 11 at the last place of a card: the places above stay empty.
fn last_place(rt: &impl Print) -> io::Result<()> {
    read_all(rt, empty(3), &[(0, 10, 3), (0, 11, 3)])
}

// One block number on two volumes: two misses.
fn two_volumes(rt: &impl Print) -> io::Result<()> {
    read_all(rt, empty(2), &[(1, 7, 1), (2, 7, 1)])
}

// Reads without a hint, and one with priority 1 between them: plain LRU.
fn no_hints(rt: &impl Print) -> io::Result<()> {
    let reads = [
        (1, 10, 0),
        (1, 11, 0),
        (1, 10, 0),
        (1, 10, 1),
        (1, 10, 0),
        (1, 12, 0),
        (1, 11, 0),
    ];
    read_all(rt, empty(2), &reads)
}

fn paper(rt: &impl Print, size: usize) -> io::Result<()> {
    let mut card = empty(size);
    for (block, priority) in PAPER {
        card = read(rt, card, 0, block, priority)?;
    }
    Ok(())
}

// The card after the first reads of the paper's trace.
fn paper_until(size: usize, time: usize) -> Card {
    let mut card = empty(size);
    for &(block, priority) in PAPER.iter().take(time) {
        card = step(card, 0, block, priority).card;
    }
    card
}

// The places of a block over sizes 1 to 7 after a time: the paper's spans.
fn spans(rt: &impl Print) -> io::Result<()> {
    for (time, block) in [
        (1, 1),
        (2, 1),
        (2, 2),
        (4, 1),
        (4, 2),
        (5, 1),
        (5, 2),
        (7, 1),
        (8, 1),
    ] {
        print!(rt; "time {time} block {block} places")?;
        for size in 1..=7 {
            let card = paper_until(size, time);
            print!(rt; " {}", place_of(&card.places, key_of(0, block)))?;
        }
        println!(rt)?;
    }
    Ok(())
}

// What is a state and what is none: the size, full places after it, too large a key, and a block in two places.
fn states(rt: &impl Print) -> io::Result<()> {
    for card in [
        empty(0),
        empty(1),
        empty(128),
        empty(usize::MAX),
        holding(3, &[2], 9),
        holding(3, &[3], 9),
        holding(3, &[126], 9),
        holding(3, &[1], LARGEST_KEY),
        holding(3, &[1], LARGEST_KEY + 1),
        holding(3, &[0, 2], 9),
        holding(3, &[1, 2], 9),
        holding(3, &[0, 1], 0),
    ] {
        read(rt, card, 0, 1, 1)?;
    }
    Ok(())
}

fn ranges(rt: &impl Print) -> io::Result<()> {
    for (size, volume, block, priority) in [
        (2, 65535, u32::MAX, 1),
        (2, 65536, 0, 1),
        (2, 1, 0, 0),
        (2, 1, 0, 16383),
        (2, 1, 0, 16384),
        (2, 65536, 0, 0),
        (2, 65536, 0, 16384),
        (0, 65536, 0, 16384),
    ] {
        read(rt, empty(size), volume, block, priority)?;
    }
    Ok(())
}

fn full_size(rt: &impl Print) -> io::Result<()> {
    read_all(rt, holding(127, &[126], 9), &[(0, 8, 127), (0, 8, 128)])
}

fn ratios(rt: &impl Print) -> io::Result<()> {
    for (misses, reads, expected) in [
        (0, 0, 0.0),
        (1, 0, 0.0),
        (0, 1, 0.0),
        (1, 1, 1.0),
        (2, 1, 2.0),
        (1, 3, 1.0 / 3.0),
        (2, 3, 2.0 / 3.0),
        (7, 8, 0.875),
        (
            9007199254740991,
            9007199254740992,
            0.99999999999999988897769753748,
        ),
        (9007199254740992, 9007199254740992, 1.0),
        (0, 9007199254740993, 0.0),
        (9007199254740993, 9007199254740993, 1.0),
    ] {
        let found = match miss_ratio(misses, reads) {
            Some(ratio) if ratio == expected => "as expected",
            Some(_) => "another",
            None => "none",
        };
        println!(rt; "ratio {misses} of {reads}: {found}")?;
    }
    Ok(())
}

fn main(rt: HostRuntime) -> io::Result<()> {
    last_place(&rt)?;
    two_volumes(&rt)?;
    no_hints(&rt)?;
    for size in [5, 6, 4] {
        paper(&rt, size)?;
    }
    spans(&rt)?;
    states(&rt)?;
    ranges(&rt)?;
    full_size(&rt)?;
    ratios(&rt)
}
