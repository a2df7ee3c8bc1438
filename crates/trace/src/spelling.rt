// Numbers spelled into a buffer, one after the other.
ghost use Rattle.std.specs.Prelude.{◌≡◌, ◌+◌, ◌≤◌, ◌<◌, length};
ghost use Rattle.trace.specs.Spelling.{spelling, spellings};
ghost use Rattle.trace.specs.Writing.{spaced, put, buffer_after};
ghost use Rattle.trace.specs.Answers.{written_answer};
ghost use Rattle.trace.specs.Bounds.{number_limit, Spelled};

use terms::Refusal;

// How many bytes a number takes.
#[tactic(auto, using(crate::proofs::spelling::Laws::length_laws))]
fn number_length(value: u64) -> usize
    requires { value < number_limit }
    ensures { result ≡ length (spelling value) }
{
    let mut rest = value;
    let mut total = 1;
    // The value alone tells how many groups it has: there is nothing to go over by `for`.
    while 128 <= rest {
        rest /= 128;
        total += 1;
    }
    total
}

// Writes a number at the front of a part, and answers how many bytes it takes.
#[tactic(auto, using(crate::proofs::spelling::Laws::written_laws))]
fn write_number(part: &mut [u8], value: u64) -> usize
    requires { (value < number_limit) × (length (spelling value) ≤ length part.old) }
    ensures { (result ≡ length (spelling value)) × (part.new ≡ put part.old 0 (spelling value)) }
{
    let mut rest = value;
    let mut at = 0;
    // Likewise: a `for` over the part would need an answer for a part that ends first.
    while 128 <= rest {
        part[at] = (128 + rest % 128) as u8;
        rest /= 128;
        at += 1;
    }
    part[at] = rest as u8;
    at + 1
}

// How many bytes the values take.
#[tactic(auto, using(crate::proofs::spelling::Laws::length_laws))]
fn numbers_length(values: &[u64]) -> usize
    requires { Spelled values.now }
    ensures { result ≡ length (spellings values.now) }
{
    values.iter().map(|value| number_length(*value)).sum()
}

// Each number goes into the part of the buffer where the one before it ended.
#[tactic(auto, using(crate::proofs::spelling::Laws::one_more_laws))]
fn put_numbers(buffer: &mut [u8], at: usize, values: &[u64])
    requires { Spelled values.now × (at + length (spellings values.now) ≤ length buffer.old) }
    ensures { buffer.new ≡ put buffer.old at (spellings values.now) }
{
    let mut next = at;
    for value in values {
        next += write_number(&mut buffer[next..], *value);
    }
}

// Writes the values from an offset on, if they fit there.
pub(crate) fn write_numbers(buffer: &mut [u8], at: usize, values: &[u64]) -> Result<usize, Refusal>
    requires { Spelled values.now }
    ensures { (written_answer result ≡ spaced (length buffer.old) at (length (spellings values.now)))
        × (buffer.new ≡ buffer_after (written_answer result) buffer.old at (spellings values.now)) }
{
    let need = numbers_length(values);
    if buffer.len() < at || buffer.len() - at < need {
        return Err(Refusal::Space);
    }
    put_numbers(buffer, at, values);
    Ok(need)
}
