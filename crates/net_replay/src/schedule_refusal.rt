ghost use Rattle.std.specs.Prelude.{◌≡◌};
ghost use Rattle.net_replay.specs.Readings.{refusal_line, refusal_number, refusal_word};

use net_types::Memory;
use thiserror::Error;

/// Why bytes are no schedule.
#[derive(Clone, Copy, Debug, PartialEq, Eq, Error)]
pub enum ScheduleRefusal {
    /// The line of this number, from 1, is the first that spells no firing.
    #[error("line {number} of the schedule is not of the form of a firing")]
    Line { number: u32 },
    /// Memory ran out.
    #[error("out of memory")]
    Memory,
}

impl ScheduleRefusal {
    /// The number by which the refusal is printed; none for want of memory.
    pub fn number(&self) -> Option<u32>
        ensures { result ≡ refusal_number self.now }
    {
        match self {
            ScheduleRefusal::Line { .. } => Some(60),
            ScheduleRefusal::Memory => None,
        }
    }

    /// The word by which the refusal is printed.
    pub fn word(&self) -> &'static str
        ensures { result.now ≡ refusal_word self.now }
    {
        match self {
            ScheduleRefusal::Line { .. } => "Line",
            ScheduleRefusal::Memory => "Memory",
        }
    }

    /// The number of the line that is refused, from 1; none for want of memory.
    pub fn line(&self) -> Option<u32>
        ensures { result ≡ refusal_line self.now }
    {
        match self {
            ScheduleRefusal::Line { number } => Some(*number),
            ScheduleRefusal::Memory => None,
        }
    }
}

impl From<Memory> for ScheduleRefusal {
    ghost use Rattle.net_replay.specs.declared.schedule_refusal.ScheduleRefusal.TheVariants as refusal;

    ghost from_gives = { λ _ e. e ≡ refusal.Memory };

    fn from(_: Memory) -> ScheduleRefusal {
        ScheduleRefusal::Memory
    }
}
