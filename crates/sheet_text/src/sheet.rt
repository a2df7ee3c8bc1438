// The sheet of a trace: the reads and the peaks, then a line for each size, or one line that says why there is none.
ghost use Rattle.std.specs.Prelude.{◌≡◌, ℕ, ◌+◌, ◌*◌, ◌^◌, ◌<◌, ◌≤◌, length, slice_index};
ghost use Rattle.terms.specs.Ranges.{size};
ghost use Rattle.trace.specs.Reading.{header_at};
ghost use Rattle.counts.specs.Columns.{columns, counts_length};
ghost use Rattle.sizes.specs.Answers.{areas_of, AreasAre, run_in};
ghost use Rattle.sheet_text.specs.Sheet.{cell, heading, line_of, lines_of, size_in, sheet_of, longest_sheet, Shows};
ghost use Rattle.sheet_text.specs.Writing.{CanCount, Takes};

use crate::text::Text;
use counts::tallies::COLUMNS;
use pass::answers::Report;
use sizes::run::run;
use terms::range::LARGEST_SIZE;
use trace::header::read_header;

// The first line.
fn put_heading(text: &mut Text, report: Report)
    requires { CanCount text.old 128 }
    ensures takes { Takes text.old text.new (heading report) }
    ensures short { text.new.length ≤ text.old.length + 128 }
{
    text.put_words(b"accesses");
    text.put_spaced(report.reads);
    text.put_words(b" stretches");
    text.put_spaced(report.total);
    text.put_words(b" block");
    text.put_spaced(report.one);
    text.put_words(b"\n");
}

// The line of the size after m sizes, from its counts.
fn put_line(text: &mut Text, m: usize, counts: &[u64])
    requires room { CanCount text.old 256 }
    requires size { m + 1 < 2 ^ 64 }
    requires all { length counts.now ≡ columns }
    requires misses { slice_index counts.now 4 + slice_index counts.now 5 < 2 ^ 64 }
    ensures takes { Takes text.old text.new (line_of (slice_index counts.now) m) }
    ensures short { text.new.length ≤ text.old.length + 256 }
{
    text.put_number((m + 1) as u64);
    text.put_spaced(counts[4] + counts[5]);
    for count in counts {
        text.put_spaced(*count);
    }
    text.put_words(b"\n");
}

// The lines of sizes 1 to n.
fn put_lines(text: &mut Text, counts: &[u64], n: usize)
    requires room { CanCount text.old (n * 256) }
    requires all { counts_length n ≤ length counts.now }
    requires misses { (m : ℕ) → m < n → cell counts.now m 4 + cell counts.now m 5 < 2 ^ 64 }
    ensures takes { Takes text.old text.new (lines_of (cell counts.now) n) }
    ensures short { text.new.length ≤ text.old.length + n * 256 }
{
    for m in 0..n {
        let at = COLUMNS * m;
        put_line(text, m, &counts[at..at + COLUMNS]);
    }
}

// The largest size that a trace names, and so how many lines a sheet has: 0 where its header is refused, as the definition says.
fn size_in(trace: &[u8]) -> usize
    ensures { result ≡ size_in (header_at size.largest trace.now 0) }
{
    read_header(trace, LARGEST_SIZE as u64).map_or(0, |header| header.size as usize)
}

// The areas are plain slices here, in `run` and in `desk_sheet`, as the calls for C lend them.
//
// Runs a trace and puts its sheet into the text, as far as that fits; answers how many bytes the whole sheet has.
pub fn sheet(
    trace: &[u8],
    blocks: &mut [u64],
    stretches: &mut [u16],
    counts: &mut [u64],
    text: &mut [u8],
) -> usize
    ensures text { Shows (sheet_of trace.now (areas_of blocks.old stretches.old counts.old)) result text.old text.new }
    ensures short { result ≤ longest_sheet }
    ensures areas { AreasAre (run_in trace.now blocks.old stretches.old counts.old).areas
        blocks.new stretches.new counts.new }
{
    let mut text = Text::new(text);
    match run(trace, blocks, stretches, counts) {
        Ok(report) => {
            put_heading(&mut text, report);
            put_lines(&mut text, counts, size_in(trace));
        }
        Err(fault) => text.put_refused(fault),
    }
    text.length()
}
