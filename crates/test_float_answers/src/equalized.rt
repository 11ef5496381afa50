// The coefficients of EQs, in f64, on the settings of coefficients.rt.
use crate::coefficients::{ANSWERS, G, GAIN, Q};
use crate::try_all;
use filters::eq_filter::{Coefficients, EqFilterKind};
use float::bits::{from_bits, to_bits};
use std::io;

const KINDS: [EqFilterKind; 3] = [
    EqFilterKind::Bell,
    EqFilterKind::LowShelf,
    EqFilterKind::HighShelf,
];

pub(crate) fn try_coefficients(rt: &impl Print) -> io::Result<()> {
    let (answers, _) = ANSWERS.as_chunks::<6>();
    let settings = KINDS.iter().cycle().zip(&G).zip(&Q).zip(&GAIN);
    let agreements = settings.zip(answers).map(|((((kind, g), q), gain), answer)| {
        let c = Coefficients::calculate(*kind, from_bits(*g), from_bits(*q), *gain);
        [c.a1, c.a2, c.a3, c.m0, c.m1, c.m2].map(to_bits::<f64>) == *answer
    });
    try_all(rt, "coefficients", agreements)
}
