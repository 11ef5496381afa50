// kira's `volume_control.rs`: a frame times an amplitude.
ghost use Rattle.std.specs.Prelude.{◌≡◌};
ghost use Rattle.plain_effects.specs.VolumeControl.{volume_of};

use decibels::amplitude;
use frame::Frame;

// One frame times the amplitude of a volume in whole dB, which is 0 at or below -60 dB. A volume above
// 24 dB, which a chain refuses, gives NaN.
pub fn process(input: Frame, volume: i32) -> Frame
    ensures { result ≡ volume_of volume input }
{
    input.mul(amplitude(volume))
}
