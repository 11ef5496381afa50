// How long a reverb's lines are: Freeverb's numbers for 44,100 Hz, scaled to the rate. The right
// side's lines come after the left side's, and each has 23 floats more at 44,100 Hz.
#![tactic(auto)]

ghost use Rattle.std.specs.Prelude.{◌≡◌, get_or, drop, sum};
ghost use Rattle.reverb_tuning.specs.Tuning.{length_of, reverb_lines, reverb_floats};

// The combs of one side.
pub const SIDE_COMBS: usize = 8;

// The lines of one side: its eight combs, and after them its four all-passes.
pub const SIDE_LINES: usize = 12;

// The combs of both sides.
pub const COMBS: usize = 2 * SIDE_COMBS;

// The lines of both sides.
pub const LINES: usize = 2 * SIDE_LINES;

// The floats of each line of the left side at 44,100 Hz: eight combs, then four all-passes.
const TUNINGS: [u32; SIDE_LINES] = [
    1116, 1188, 1277, 1356, 1422, 1491, 1557, 1617, 556, 441, 341, 225,
];

// How many floats a line has at this rate if it has `tuning` of them at 44,100 Hz; rounded down.
pub fn line_length(tuning: u32, rate: u32) -> usize
    ensures { result ≡ length_of tuning rate }
{
    (u64::from(tuning) * u64::from(rate) / 44100) as usize
}

// How many floats line k of a reverb has at this rate; 0 past the last line.
pub fn reverb_line(k: usize, rate: u32) -> usize
    ensures { result ≡ get_or (reverb_lines rate) k 0 }
{
    match k {
        0..SIDE_LINES => line_length(TUNINGS[k], rate),
        SIDE_LINES..LINES => line_length(TUNINGS[k - SIDE_LINES] + 23, rate),
        _ => 0,
    }
}

// How many floats the lines of a reverb from line k on have together; 0 past the last line.
pub fn floats_from(k: usize, rate: u32) -> usize
    ensures { result ≡ sum (drop k (reverb_lines rate)) }
{
    (k..LINES).map(|line| reverb_line(line, rate)).sum()
}

// How many floats of the store a reverb needs at this rate.
pub fn reverb_floats(rate: u32) -> usize
    ensures { result ≡ reverb_floats rate }
{
    floats_from(0, rate)
}
