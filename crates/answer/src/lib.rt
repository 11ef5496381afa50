// What a call answers: that it was accepted, or the first refusal that applies, with its place.
#![tactic(auto)]

ghost use Rattle.std.specs.Prelude.{◌≡◌, Err};
ghost use Rattle.answer.specs.Answer.{number_of, place_of};

// One of document 01's eleven refusals with its place, which is 0 where none is written.
#[derive(Clone, Copy, Debug, PartialEq, Eq)]
pub enum Refusal {
    // 1: the rate is below 8,000 or above 192,000
    Rate,
    // 2: more than 16 stages
    Stages,
    // 3: at this list place, a wrong shape or a depth above 3
    Shape(usize),
    // 4: at this list place, a setting that is not finite or not in its range
    Setting(usize),
    // 5: the line store is shorter than needed; this many floats are needed
    Store(usize),
    // 6: at this list place, a remembered position that is not on its line
    Position(usize),
    // 7: an odd number of samples
    Samples,
    // 8: more than 4,096 frames
    Frames,
    // 9: at this top stage, a progress above the frame count or above that of the top stage before it
    Progress(usize),
    // 10: this sample is not finite, and top stage 0 has not run its frame
    Sample(usize),
    // 11: this entry of the order cannot be run
    Entry(usize),
}

// What a call answers: accepted, or the first refusal that applies.
pub type Answer = Result<(), Refusal>;

impl Refusal {
    // The refusal's number in document 01's table.
    pub fn number(self) -> u32
        ensures { result ≡ number_of (Err self) }
    {
        match self {
            Refusal::Rate => 1,
            Refusal::Stages => 2,
            Refusal::Shape(_) => 3,
            Refusal::Setting(_) => 4,
            Refusal::Store(_) => 5,
            Refusal::Position(_) => 6,
            Refusal::Samples => 7,
            Refusal::Frames => 8,
            Refusal::Progress(_) => 9,
            Refusal::Sample(_) => 10,
            Refusal::Entry(_) => 11,
        }
    }

    // The place that document 01's table gives with the refusal.
    pub fn place(self) -> usize
        ensures { result ≡ place_of (Err self) }
    {
        match self {
            Refusal::Shape(at) => at,
            Refusal::Setting(at) => at,
            Refusal::Store(needed) => needed,
            Refusal::Position(at) => at,
            Refusal::Progress(at) => at,
            Refusal::Sample(at) => at,
            Refusal::Entry(at) => at,
            Refusal::Rate | Refusal::Stages | Refusal::Samples | Refusal::Frames => 0,
        }
    }
}

// An answer's number: that of its refusal, and 0 for an accepted call.
pub fn number(answer: Answer) -> u32
    ensures { result ≡ number_of answer }
{
    answer.err().map_or(0, Refusal::number)
}

// An answer's place: that of its refusal, and 0 for an accepted call.
pub fn place(answer: Answer) -> usize
    ensures { result ≡ place_of answer }
{
    answer.err().map_or(0, Refusal::place)
}
