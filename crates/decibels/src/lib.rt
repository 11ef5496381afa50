// Whole decibels to amplitudes, from two lists in place of kira's `powf`. Each entry is the float
// nearest to its power of ten: proofs/AmplitudeRules.antt shows it by one computed test over each list.
#![tactic(auto)]

ghost use Rattle.std.specs.Prelude.{◌≡◌, ◌+ℤ◌, neg_ℤ};
ghost use Rattle.decibels.specs.Amplitude.{amplitude_of, eq_amplitude_of};
ghost use Rattle.decibels.specs.Entry.{entry_at};

use float::bits::from_bits;

// The bits of the f32 nearest to 10^(k/20), for k from -59 to 24.
static AMPLITUDES: [u32; 84] = [
    0x3a93_10b1,
    0x3aa5_0287,
    0x3ab9_24e5,
    0x3acf_bc31,
    0x3ae9_1528,
    0x3b02_c2f2,
    0x3b12_b782,
    0x3b24_9e76,
    0x3b38_b49f,
    0x3b4f_3e37,
    0x3b68_87cf,
    0x3b82_73a6,
    0x3b92_5e89,
    0x3ba4_3aa2,
    0x3bb8_449c,
    0x3bce_c08a,
    0x3be7_facc,
    0x3c02_248a,
    0x3c12_05c6,
    0x3c23_d70a,
    0x3c37_d4dd,
    0x3c4e_4329,
    0x3c67_6e1e,
    0x3c81_d59f,
    0x3c91_ad39,
    0x3ca3_73af,
    0x3cb7_6563,
    0x3ccd_c614,
    0x3ce6_e1c6,
    0x3d01_86e2,
    0x3d11_54e1,
    0x3d23_1090,
    0x3d36_f62b,
    0x3d4d_494a,
    0x3d66_55c3,
    0x3d81_3856,
    0x3d90_fcbf,
    0x3da2_adad,
    0x3db6_8738,
    0x3dcc_cccd,
    0x3de5_ca15,
    0x3e00_e9f9,
    0x3e10_a4d3,
    0x3e22_4b06,
    0x3e36_1887,
    0x3e4c_509b,
    0x3e65_3ebb,
    0x3e80_9bcc,
    0x3e90_4d1c,
    0x3ea1_e89b,
    0x3eb5_aa1a,
    0x3ecb_d4b4,
    0x3ee4_b3b6,
    0x3f00_4dce,
    0x3f0f_f59a,
    0x3f21_866c,
    0x3f35_3bef,
    0x3f4b_5918,
    0x3f64_2905,
    0x3f80_0000,
    0x3f8f_9e4d,
    0x3fa1_2478,
    0x3fb4_ce08,
    0x3fca_ddc8,
    0x3fe3_9ea9,
    0x3fff_64c1,
    0x400f_4735,
    0x4020_c2bf,
    0x4034_6063,
    0x404a_62c2,
    0x4063_14a0,
    0x407e_c9e1,
    0x408e_f052,
    0x40a0_6142,
    0x40b3_f300,
    0x40c9_e807,
    0x40e2_8aeb,
    0x40fe_2f5e,
    0x410e_99a3,
    0x4120_0000,
    0x4133_85e0,
    0x4149_6d96,
    0x4162_018a,
    0x417d_953a,
];

// The bits of the f64 nearest to 10^(k/40), for k from -24 to 24.
static EQ_AMPLITUDES: [u64; 49] = [
    0x3fd0_1379_87dd_704c,
    0x3fd1_0754_f9e3_1838,
    0x3fd2_09a3_7aef_4450,
    0x3fd3_1b40_39db_843f,
    0x3fd4_3d13_6248_490f,
    0x3fd5_7012_e19e_480d,
    0x3fd6_b543_37bc_3b65,
    0x3fd8_0db8_5402_12ce,
    0x3fd9_7a96_7f75_24b3,
    0x3fda_fd13_54c4_0d50,
    0x3fdc_9676_c6fc_af20,
    0x3fde_481c_37d3_4012,
    0x3fe0_09b9_cf33_4252,
    0x3fe0_fd01_5fbd_abe0,
    0x3fe1_feb3_3c1c_381e,
    0x3fe3_0faa_0e3d_83f5,
    0x3fe4_30cd_74f6_d478,
    0x3fe5_6312_c88e_01cc,
    0x3fe6_a77d_eae8_ab8a,
    0x3fe7_ff22_2411_5d9a,
    0x3fe9_6b23_0bcd_c434,
    0x3fea_ecb5_810c_240d,
    0x3fec_8520_affa_0a4b,
    0x3fee_35bf_27a2_98b9,
    0x3ff0_0000_0000_0000,
    0x3ff0_f2b4_08bc_d790,
    0x3ff1_f3c9_9f6b_c436,
    0x3ff3_041a_e961_0ad9,
    0x3ff4_248e_f8fc_2604,
    0x3ff5_561a_91ba_8144,
    0x3ff6_99c0_f7e8_6e10,
    0x3ff7_f094_cca0_8e1c,
    0x3ff9_5bb8_f6d4_6052,
    0x3ffa_dc61_9a23_ad36,
    0x3ffc_73d5_1c54_470e,
    0x3ffe_236d_3a47_fb60,
    0x3fff_ec98_2d5b_b8af,
    0x4000_e86c_f114_6c37,
    0x4001_e8e6_a0d8_1e85,
    0x4002_f892_c703_4a03,
    0x4004_1857_e9d4_cc5f,
    0x4005_492a_385b_de46,
    0x4006_8c0c_59ab_1564,
    0x4007_e210_4852_654f,
    0x4009_4c58_3ada_5b53,
    0x400a_cc17_9a05_da10,
    0x400c_6294_05ab_4a3e,
    0x400e_1126_6902_9782,
    0x400f_d93c_1f52_6de0,
];

// What a list with an entry for each level from the lowest on has for this level.
fn looked_up<T: Copy>(list: &[T], lowest: i32, level: i32) -> Option<T>
    ensures { result ≡ entry_at list.now (level +ℤ neg_ℤ lowest) }
{
    let place = usize::try_from(i64::from(level) - i64::from(lowest)).ok()?;
    list.get(place).copied()
}

// kira's `Decibels::as_amplitude` for whole decibels: the f32 nearest to 10^(db/20). 0 dB gives 1; at or
// below -60 dB the amplitude is 0. Above 24 dB, which no stage may have, it is NaN.
pub fn amplitude(db: i32) -> f32
    ensures { result ≡ amplitude_of db }
{
    if db < -59 {
        return 0.0;
    }
    looked_up(&AMPLITUDES, -59, db).map_or(f32::NAN, from_bits)
}

// The amplitude that an EQ works with: the f64 nearest to 10^(gain/40), for a gain in whole dB. A gain
// below -24 or above 24 dB, which no EQ may have, gives NaN.
pub fn eq_amplitude(gain: i32) -> f64
    ensures { result ≡ eq_amplitude_of gain }
{
    looked_up(&EQ_AMPLITUDES, -24, gain).map_or(f64::NAN, from_bits)
}
