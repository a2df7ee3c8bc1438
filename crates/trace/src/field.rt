// A number of a header or a record: read and tested before the next one is read.
ghost use Rattle.std.specs.Prelude.{◌≡◌};
ghost use Rattle.trace.specs.Reading.{Given, field};
ghost use Rattle.trace.specs.Answers.{field_answer};

use crate::number::{fault, read_number};
use terms::Fault;
use terms::range::Range;

// A value in its range, and the place after its number.
#[derive(Clone, Copy, Debug, PartialEq, Eq)]
pub(crate) struct Field {
    pub value: u64,
    pub end: usize,
}

// The number at a place of a part, which is to be in a range.
#[tactic(auto, using(crate::proofs::Fields::number_end))]
pub(crate) fn read_field(part: &[u8], at: usize, range: Range) -> Result<Field, Fault>
    ensures { field_answer result ≡ field range part.now at (λ value end. Given value end) }
{
    let told = |refusal| Fault { refusal, place: at };
    let answer = read_number(part, at);
    let Ok(number) = answer else {
        return Err(told(fault(answer)));
    };
    range.check(number.value).map_err(told)?;
    Ok(Field {
        value: number.value,
        end: at + number.length,
    })
}
