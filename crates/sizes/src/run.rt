// The run over a trace: header, room, and then the records, for all sizes at once.
ghost use Rattle.std.specs.Prelude.{◌≡◌, ◌&&◌, List, ◌≤◌, leb, length};
ghost use Rattle.terms.specs.Ranges.{size};
ghost use Rattle.trace.specs.Reading.{record_at};
ghost use Rattle.trace.specs.Trace.{reads_from};
ghost use Rattle.sizes.specs.Outcome.{blocks_length};
ghost use Rattle.engine.specs.Rows.{stretches_length};
ghost use Rattle.counts.specs.Columns.{counts_length};
ghost use Rattle.pass.specs.Answers.{ran_answer};
ghost use Rattle.sizes.specs.Passing.{OfSize, Fitting, Untouched, Same, read_answer, answer_after, TalliedBy, passed};
ghost use Rattle.sizes.specs.Answers.{AreasAre, run_in};

use card::places::key_of;
use counts::tallies::{COLUMNS, finish};
use engine::lists::LIST_ROOM;
use engine::reads::{Sums, read};
use engine::rows::stretches_length;
use pass::answers::Report;
use terms::range::LARGEST_SIZE;
use terms::{Fault, Refusal};
use trace::header::read_header;
use trace::record::{Record, read_record};

// The record at a place of a trace; the place of a fault counts from the start of the trace.
#[tactic(auto, using(trace::proofs::Parts::record_read, trace::proofs::Parts::record_refused, trace::proofs::Parts::place_in))]
fn next_record(trace: &[u8], at: usize) -> Result<Record, Fault>
    requires { at ≤ length trace.now }
    ensures { read_answer at result ≡ record_at trace.now at }
{
    read_record(&trace[at..]).map_err(|fault| Fault {
        place: at + fault.place,
        ..fault
    })
}

// Areas of exactly the lengths that size n asks for.
#[derive(Drop)]
struct Areas<'a> {
    n: usize,
    blocks: &'a mut [u64],
    stretches: &'a mut [u16],
    counts: &'a mut [u64],
}

impl Areas<'_> {
    // What the areas hold is of no use to anyone before a run, nor what a refused one leaves there: all of it becomes zeros.
    fn clear(&mut self)
        requires { Fitting self.old }
        ensures same { Same self.old self.new }
        ensures untouched { Untouched self.new }
    {
        self.blocks.fill(0);
        self.stretches.fill(0);
        self.counts.fill(0);
    }

    // The records from a place to the end, each read at all sizes, on areas that no read has touched.
    #[tactic(auto, using(trace::proofs::Parts::given_good, crate::proofs::run::Turns::turns_end))]
    fn read_records(&mut self, trace: &[u8], start: usize) -> Result<Report, Fault>
        requires fitting { Fitting self.old }
        requires untouched { Untouched self.old }
        requires starts { start ≤ length trace.now }
        ensures same { Same self.old self.new }
        ensures fitting { Fitting self.new }
        ensures answer { ran_answer result ≡ answer_after self.new.n (reads_from (length trace.now) trace.now start) }
        ensures tallied { TalliedBy self.new.n (reads_from (length trace.now) trace.now start) self.new.counts.now }
    {
        // A list on its way from one row to another; made once, so that it is not set to zero for each read.
        let mut scratch = [0u16; LIST_ROOM];
        let mut sums = Sums::default();
        let mut reads: u64 = 0;
        let mut at = start;
        // A turn goes on by as many bytes as its record has.
        while at < trace.len() {
            let record = next_record(trace, at)?;
            let key = key_of(record.volume, record.block);
            let p = record.priority as usize;
            sums = read(
                self.blocks,
                self.stretches,
                self.counts,
                &mut scratch,
                self.n,
                key,
                p,
                sums,
            );
            reads += 1;
            at += record.length;
        }
        Ok(Report {
            reads,
            total: sums.most as u64,
            one: sums.one as u64,
        })
    }
}

// The pass over the records, on areas of exactly the lengths that size n asks for: whatever they hold, they are cleared before it, and all but the counts
// of accepted records after it.
// The areas come as parameters: what a front of a slice holds in the end is known after a call that took it, and not after a struct that held it.
fn pass(
    trace: &[u8],
    start: usize,
    n: usize,
    blocks: &mut [u64],
    stretches: &mut [u16],
    counts: &mut [u64],
) -> Result<Report, Fault>
    requires fitting { OfSize n blocks.old stretches.old counts.old }
    requires starts { start ≤ length trace.now }
    ensures answer { ran_answer result ≡ answer_after n (reads_from (length trace.now) trace.now start) }
    ensures areas { AreasAre (passed n (reads_from (length trace.now) trace.now start)) blocks.new stretches.new counts.new }
{
    let mut areas = Areas {
        n,
        blocks,
        stretches,
        counts,
    };
    areas.clear();
    let report = areas.read_records(trace, start);
    match report {
        Ok(report) => {
            areas.blocks.fill(0);
            areas.stretches.fill(0);
            finish(areas.counts, n, report.reads);
        }
        Err(_) => areas.clear(),
    }
    report
}

// Whether areas of some lengths are long enough for a size.
#[tactic(auto, unfolding(terms::specs::Ranges::size))]
fn is_room(n: usize, blocks: usize, stretches: usize, counts: usize) -> bool
    requires { n ≤ size.largest }
    ensures { result ≡ leb (blocks_length n) blocks && (leb (stretches_length n) stretches && leb (counts_length n) counts) }
{
    n <= blocks && stretches_length(n) <= stretches && COLUMNS * n <= counts
}

// Reads a whole trace. A refusal before the first record leaves the areas untouched; what lies past the lengths that the size asks for stays as it was.
#[tactic(auto, using(crate::proofs::run::WaysOut::header_in, crate::proofs::run::WaysOut::out_refused, crate::proofs::run::WaysOut::out_of_room), unfolding(terms::specs::Ranges::size))]
pub fn run(
    trace: &[u8],
    blocks: &mut [u64],
    stretches: &mut [u16],
    counts: &mut [u64],
) -> Result<Report, Fault>
    ensures answer { ran_answer result ≡ (run_in trace.now blocks.old stretches.old counts.old).answer }
    ensures areas { AreasAre (run_in trace.now blocks.old stretches.old counts.old).areas
        blocks.new stretches.new counts.new }
{
    let header = read_header(trace, LARGEST_SIZE as u64)?;
    let n = header.size as usize;
    if !is_room(n, blocks.len(), stretches.len(), counts.len()) {
        return Err(Fault {
            refusal: Refusal::Room,
            place: 0,
        });
    }
    pass(
        trace,
        header.length,
        n,
        &mut blocks[..n],
        &mut stretches[..stretches_length(n)],
        &mut counts[..COLUMNS * n],
    )
}
