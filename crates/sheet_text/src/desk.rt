// The sheet that the program prints.
ghost use Rattle.std.specs.Prelude.{◌≤◌};
ghost use Rattle.terms.specs.Refusals.{number_of};
ghost use Rattle.sizes.specs.Answers.{areas_of, AreasAre};
ghost use Rattle.sheet_text.specs.Desk.{desk_sheet_of, areas_after};
ghost use Rattle.sheet_text.specs.Sheet.{longest_sheet, refused_line, Shows};

use crate::sheet::sheet;
use crate::text::Text;
use terms::{Fault, Refusal};

pub const LARGEST_INPUT: usize = 16384;

// The one line of an input that is refused before anything is run.
fn refused_sheet(fault: Fault, text: &mut [u8]) -> usize
    ensures text { Shows (refused_line (number_of fault.refusal) fault.place) result text.old text.new }
    ensures short { result ≤ longest_sheet }
{
    let mut text = Text::new(text);
    text.put_refused(fault);
    text.length()
}

// The sheet of an input, where that is not too long.
#[tactic(auto, unfolding(crate::specs::Desk::desk_sheet_of, crate::specs::Desk::areas_after))]
pub fn desk_sheet(
    trace: &[u8],
    blocks: &mut [u64],
    stretches: &mut [u16],
    counts: &mut [u64],
    text: &mut [u8],
) -> usize
    ensures text { Shows (desk_sheet_of trace.now (areas_of blocks.old stretches.old counts.old)) result text.old text.new }
    ensures short { result ≤ longest_sheet }
    ensures areas { AreasAre (areas_after trace.now (areas_of blocks.old stretches.old counts.old))
        blocks.new stretches.new counts.new }
{
    if LARGEST_INPUT < trace.len() {
        let large = Fault {
            refusal: Refusal::Large,
            place: LARGEST_INPUT,
        };
        return refused_sheet(large, text);
    }
    sheet(trace, blocks, stretches, counts, text)
}
