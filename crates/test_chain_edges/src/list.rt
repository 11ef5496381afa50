// Refusals 1 to 5: the rate, the list, its settings and the store.
use crate::case::{Case, chain_of, delay, volume};
use filters::eq_filter::EqFilterKind;
use plain_effects::distortion::DistortionKind;
use stage::kind::Stage;
use stage::setup::Setup;
use std::io;

fn eq_filter(gain: i32, q: f64) -> Stage {
    Stage::EqFilter {
        kind: EqFilterKind::Bell,
        g: 1.0,
        gain,
        q,
    }
}

fn distortion(drive: i32, mix: f32) -> Stage {
    Stage::Distortion {
        kind: DistortionKind::HardClip,
        drive,
        mix,
    }
}

// A delay with this feedback.
fn feedback(feedback: i32) -> Stage {
    Stage::Delay {
        frames: 1,
        feedback,
        mix: 1.0,
        owned: 0,
    }
}

// A chain on its own, with no samples.
fn on_list(rt: &impl Print, name: &str, setup: Setup) -> io::Result<()> {
    Case::of(setup).say(rt, name, &mut [])
}

pub(crate) fn rates(rt: &impl Print) -> io::Result<()> {
    for (name, rate) in [
        ("rate_7999", 7999),
        ("rate_8000", 8000),
        ("rate_192000", 192000),
        ("rate_192001", 192001),
    ] {
        on_list(rt, name, Setup::empty(rate))?;
    }
    Ok(())
}

pub(crate) fn counts(rt: &impl Print) -> io::Result<()> {
    on_list(rt, "stages_16", chain_of(&[volume(0); 16]))?;
    on_list(rt, "stages_17", chain_of(&[volume(0); 17]))
}

pub(crate) fn depths(rt: &impl Print) -> io::Result<()> {
    let owned = [volume(0), delay(1, 3), delay(1, 2), delay(1, 1), volume(0)];
    on_list(rt, "depth_3", chain_of(&owned))?;
    let owned = [
        delay(1, 4),
        delay(1, 3),
        delay(1, 2),
        delay(1, 1),
        volume(0),
    ];
    on_list(rt, "depth_4", chain_of(&owned))
}

// A delay at list place 1 whose one stage is the list's last, or lies past its end; a delay at place 2 that
// owns one stage, up to the end of its owner at place 1 or past it; and the most that can be said.
pub(crate) fn owned(rt: &impl Print) -> io::Result<()> {
    let control = volume(0);
    let one = delay(1, 1);
    let two = delay(1, 2);
    let most = delay(1, 18446744073709551615);
    on_list(rt, "owned_to_end", chain_of(&[control, one, control]))?;
    on_list(rt, "owned_past_end", chain_of(&[control, one]))?;
    on_list(
        rt,
        "owned_to_owners_end",
        chain_of(&[control, two, one, control, control]),
    )?;
    on_list(
        rt,
        "owned_past_owners_end",
        chain_of(&[control, one, one, control, control]),
    )?;
    on_list(rt, "owned_18446744073709551615", chain_of(&[most]))
}

// Each of these stages at list place 1, after a volume control.
fn on_second(rt: &impl Print, cases: &[(&str, Stage)]) -> io::Result<()> {
    for (name, stage) in cases {
        on_list(rt, name, chain_of(&[volume(0), *stage]))?;
    }
    Ok(())
}

pub(crate) fn volumes(rt: &impl Print) -> io::Result<()> {
    on_second(rt, &[("volume_24", volume(24)), ("volume_25", volume(25))])
}

pub(crate) fn delays(rt: &impl Print) -> io::Result<()> {
    on_second(
        rt,
        &[
            ("delay_0", delay(0, 0)),
            ("delay_1", delay(1, 0)),
            ("delay_480000", delay(480000, 0)),
            ("delay_480001", delay(480001, 0)),
            ("feedback_24", feedback(24)),
            ("feedback_25", feedback(25)),
        ],
    )
}

pub(crate) fn equalizers(rt: &impl Print) -> io::Result<()> {
    on_second(
        rt,
        &[
            ("eq_gain_-25", eq_filter(-25, 1.0)),
            ("eq_gain_-24", eq_filter(-24, 1.0)),
            ("eq_gain_24", eq_filter(24, 1.0)),
            ("eq_gain_25", eq_filter(25, 1.0)),
            ("eq_q_-1", eq_filter(0, -1.0)),
            ("eq_q_0", eq_filter(0, 0.0)),
            ("eq_q_1000", eq_filter(0, 1000.0)),
            ("eq_q_1001", eq_filter(0, 1001.0)),
        ],
    )
}

pub(crate) fn distortions(rt: &impl Print) -> io::Result<()> {
    on_second(
        rt,
        &[
            ("drive_-60", distortion(-60, 0.5)),
            ("drive_-59", distortion(-59, 0.5)),
            ("drive_24", distortion(24, 0.5)),
            ("drive_25", distortion(25, 0.5)),
            ("mix_nan", distortion(0, 0.0 / 0.0)),
        ],
    )
}

pub(crate) fn stores(rt: &impl Print) -> io::Result<()> {
    let reverb = Case::of(chain_of(&[Stage::Reverb {
        feedback: 0.9,
        damping: 0.1,
        stereo_width: 1.0,
        mix: 0.5,
    }]));
    reverb.say_over(rt, "reverb_25449", &mut [], &mut [0.0; 25449])?;
    reverb.say_over(rt, "reverb_25450", &mut [], &mut [0.0; 25450])
}
