// All that a call may change, each with room for the longest slice of a case.
#[derive(Clone, Copy)]
pub(crate) struct Held {
    pub samples: [f32; 8194],
    pub store: [f32; 16384],
    pub positions: [usize; 385],
    pub floats: [f32; 321],
    pub progress: [usize; 17],
}

impl Held {
    pub(crate) fn zero() -> Held {
        Held {
            samples: [0.0; 8194],
            store: [0.0; 16384],
            positions: [0; 385],
            floats: [0.0; 321],
            progress: [0; 17],
        }
    }

    // Whether two calls left the same, bit for bit; all NaNs count as one.
    pub(crate) fn is_same(&self, other: &Held) -> bool {
        same_slices::floats(&self.samples, &other.samples)
            && same_slices::floats(&self.store, &other.store)
            && same_slices::floats(&self.floats, &other.floats)
            && self.positions == other.positions
            && self.progress == other.progress
    }
}
