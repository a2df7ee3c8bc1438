// The miss ratio.
ghost use Rattle.std.specs.Prelude.{◌≡◌};
ghost use Rattle.card.specs.Ratio.{ratio_of};
ghost use Rattle.card.specs.Answers.{ratio_answer};

// Up to here an f64 holds every number exactly.
const LARGEST_EXACT: u64 = 9007199254740992;

// Misses over reads, or none where that is no ratio.
#[tactic(auto, unfolding(crate::specs::Ratio::ratio_of))]
pub fn miss_ratio(misses: u64, reads: u64) -> Option<f64>
    ensures { ratio_answer result ≡ ratio_of misses reads }
{
    if reads == 0 || reads < misses || LARGEST_EXACT < reads {
        return None;
    }
    Some((misses as f64) / (reads as f64))
}
