// The call that salvages a trace.
ghost use Rattle.std.specs.Prelude.{◌≡◌, length};
ghost use Rattle.salvage.specs.Answers.{salvaging, good_left, list_left};
ghost use Rattle.supharoek.specs.Told.{Tells, salvage_told, told_of};

use crate::told::{Refused, tell};
use salvage::{Entry, salvage};

fn salvage_values(trace: &[u8], good: &mut [u8], entries: &mut [Entry]) -> Result<[u64; 2], Refused>
    ensures told { told_of result ≡ salvage_told (salvaging trace.now (length good.old) (length entries.old)) }
    ensures left { (good.new ≡ good_left trace.now good.old (length entries.old))
        × (entries.new ≡ list_left trace.now (length good.old) entries.old) }
{
    let salvaged = salvage(trace, good, entries)?;
    Ok([salvaged.bytes as u64, salvaged.entries as u64])
}

// Salvages a trace into a good one and a list of what was left out: the bytes and the entries written; or the place of the
// refusal of the header. It only calls and tells.
#[unsafe(no_mangle)]
pub extern "C" fn supharoek_salvage(
    trace: &[u8],
    good: &mut [u8],
    entries: &mut [Entry],
    out: &mut [u64],
) -> u32
    ensures { Tells (salvage_told (salvaging trace.now (length good.old) (length entries.old))) result out.old out.new
        × ((good.new ≡ good_left trace.now good.old (length entries.old))
        × (entries.new ≡ list_left trace.now (length good.old) entries.old)) }
{
    tell(out, salvage_values(trace, good, entries))
}
