// The six outcomes of a read.
ghost use Rattle.std.specs.Prelude.{◌≡◌};
ghost use Rattle.card.specs.Counts.{is_hit};
ghost use Rattle.card.specs.Outcomes.{outcome_number, Numbered};

// What a read is to a card, in the order of the outcomes' numbers: from 0, up, to 5, a miss bypass.
#[derive(Clone, Copy, Debug, PartialEq, Eq)]
pub enum Outcome {
    Up,
    Same,
    Down,
    HitBypass,
    Insert,
    MissBypass,
}

// A number that is no outcome's.
#[derive(Clone, Copy, Debug, PartialEq, Eq)]
pub struct NoOutcome(pub u32);

impl Outcome {
    // Whether it is a hit; a hit bypass is one.
    #[tactic(auto, unfolding(crate::specs::Counts::is_hit))]
    pub fn is_hit(self) -> bool
        ensures { result ≡ is_hit (outcome_number self) }
    {
        matches!(
            self,
            Outcome::Up | Outcome::Same | Outcome::Down | Outcome::HitBypass
        )
    }
}

impl From<Outcome> for u32 {
    ghost from_gives = { λ outcome number. number ≡ outcome_number outcome };

    fn from(outcome: Outcome) -> u32 {
        outcome as u32
    }
}

impl TryFrom<u32> for Outcome {
    type Error = NoOutcome;

    ghost try_from_gives = { Numbered };

    fn try_from(number: u32) -> Result<Self, NoOutcome> {
        match number {
            0 => Ok(Outcome::Up),
            1 => Ok(Outcome::Same),
            2 => Ok(Outcome::Down),
            3 => Ok(Outcome::HitBypass),
            4 => Ok(Outcome::Insert),
            5 => Ok(Outcome::MissBypass),
            _ => Err(NoOutcome(number)),
        }
    }
}
