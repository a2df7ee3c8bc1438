// A number: groups of seven bits, lowest group first, bit 7 set in every byte but the last.
ghost use Rattle.std.specs.Prelude.{◌≡◌, ◌≤◌, drop};
ghost use Rattle.terms.specs.Refusals.{number_of};
ghost use Rattle.trace.specs.Number.{Value, numeral, number_at, after, fault_of, top_byte, bytes_before};
ghost use Rattle.trace.specs.Answers.{number_answer};
ghost use Rattle.trace.specs.Bounds.{Small};

use terms::Refusal;

// A value and its length in bytes.
#[derive(Clone, Copy, Debug, PartialEq, Eq)]
pub struct Number {
    pub value: u64,
    pub length: usize,
}

// A number takes at most BYTES_BEFORE bytes before its last, which is then at most TOP_BYTE.
const BYTES_BEFORE: usize = 4;

const TOP_BYTE: u8 = 15;

// The number of a byte with bit 7 set and of the bytes after it.
fn after_byte(byte: u8, rest: Number) -> Result<Number, Refusal>
    requires { Small (Value rest.value rest.length) }
    ensures { number_answer result ≡ after byte (Value rest.value rest.length) }
{
    if rest.value == 0 {
        return Err(Refusal::Form);
    }
    Ok(Number {
        value: byte as u64 % 128 + 128 * rest.value,
        length: rest.length + 1,
    })
}

#[tactic(auto, using(crate::proofs::number::Laws::number_laws))]
fn number_from(part: &[u8], at: usize, left: usize) -> Result<Number, Refusal>
    requires { left ≤ bytes_before }
    ensures { number_answer result ≡ numeral top_byte left (drop at part.now) }
{
    let Some(&byte) = part.get(at) else {
        return Err(Refusal::Cut);
    };
    if left == 0 {
        if TOP_BYTE < byte {
            return Err(Refusal::Form);
        }
    } else if 128 <= byte {
        return after_byte(byte, number_from(part, at + 1, left - 1)?);
    }
    Ok(Number {
        value: byte as u64,
        length: 1,
    })
}

// The number at a place of a part of a trace.
pub fn read_number(part: &[u8], at: usize) -> Result<Number, Refusal>
    ensures { number_answer result ≡ number_at part.now at }
{
    number_from(part, at, BYTES_BEFORE)
}

// The refusal of an answer that is no number.
#[tactic(auto, using(crate::proofs::Determined::fault_told))]
pub fn fault(answer: Result<Number, Refusal>) -> Refusal
    ensures { number_of result ≡ fault_of (number_answer answer) }
{
    answer.err().unwrap_or(Refusal::Form)
}
