// What the echo left, with the last number of one part changed: a float by its lowest bit.
use crate::echo::Ended;
use float::bits::{from_bits, to_bits};
use memories::{ALL_FLOATS, ALL_POSITIONS};

fn next_to(x: f32) -> f32 {
    from_bits(to_bits(x) ^ 1)
}

pub(crate) fn sample(mut ended: Ended) -> Ended {
    ended.samples[8191] = next_to(ended.samples[8191]);
    ended
}

pub(crate) fn line(mut ended: Ended) -> Ended {
    ended.store[199] = next_to(ended.store[199]);
    ended
}

pub(crate) fn float(mut ended: Ended) -> Ended {
    let floats = &mut ended.memories.floats;
    floats[ALL_FLOATS - 1] = next_to(floats[ALL_FLOATS - 1]);
    ended
}

pub(crate) fn position(mut ended: Ended) -> Ended {
    ended.memories.positions[ALL_POSITIONS - 1] = 1;
    ended
}
