// A chain read from words of 64 bits, twelve to a stage, for callers whose language does not know `Stage`.
// Any words may be passed in: `first_unknown` finds those that are no stage. Words that a stage does not use
// must be 0, so that words in another layout are mostly found out and not misread.
#![tactic(auto)]

ghost use Rattle.std.specs.Prelude.{◌≡◌, ◌+◌, ◌*◌, ◌<◌};
ghost use Rattle.theory_tables.specs.First.{found_of};
ghost use Rattle.theory_tables.specs.Condition.{decide};
ghost use Rattle.stage_words.specs.Words.{is_short, short_of, is_level, level_of, single_of, layout_version, is_stage, stage_of, word_count, word_at, length_from, count_of, stage_words, unknown_at, setup_of};

use float::bits::from_bits;
use kind_codes::{clip_at, eq_kind_at, mode_at};
use stage::kind::Stage;
use stage::setup::{Setup, Slot};
use std::array;

// How many words a stage has.
pub const WORDS: usize = 12;

// It goes up with each change of what a word or a memory means.
const LAYOUT_VERSION: u32 = 1;

// A stage's kind and its numbers, and how many of its words are left without the zeros at their end.
#[derive(Clone, Copy)]
struct StageWords {
    kind: u64,
    a: u64,
    b: u64,
    c: u64,
    d: u64,
    length: usize,
}

// The version of the layout.
pub fn layout_version() -> u32
    ensures { result ≡ layout_version }
{
    LAYOUT_VERSION
}

fn is_short(word: u64) -> bool
    ensures { result ≡ is_short word }
{
    u32::try_from(word).is_ok()
}

#[tactic(auto, unfolding(crate::specs::Words::short_of))]
fn short(word: u64) -> u32
    ensures { result ≡ short_of word }
{
    u32::try_from(word).unwrap_or(0)
}

fn is_level(word: u64) -> bool
    ensures { result ≡ is_level word }
{
    i32::try_from(word.cast_signed()).is_ok()
}

#[tactic(auto, unfolding(crate::specs::Words::level_of))]
fn level(word: u64) -> i32
    ensures { result ≡ level_of word }
{
    i32::try_from(word.cast_signed()).unwrap_or(0)
}

#[tactic(auto, unfolding(crate::specs::Words::single_of))]
fn single(word: u64) -> f32
    ensures { result ≡ single_of word }
{
    from_bits(short(word))
}

// The stage that the words are, its kind by its place in `Stage`. Where they are no stage, it does not matter
// which this is.
#[tactic(auto, unfolding(crate::specs::Words::stage_of, crate::specs::Words::line_stage_of))]
fn stage_of(w: StageWords) -> Stage
    ensures { result ≡ stage_of w }
{
    match w.kind {
        0 => Stage::VolumeControl { volume: level(w.a) },
        1 => Stage::PanningControl {
            panning: single(w.a),
        },
        2 => Stage::Distortion {
            kind: clip_at(w.a),
            drive: level(w.b),
            mix: single(w.c),
        },
        3 => Stage::Filter {
            mode: mode_at(w.a),
            g: from_bits(w.b),
            resonance: from_bits(w.c),
            mix: single(w.d),
        },
        4 => Stage::EqFilter {
            kind: eq_kind_at(w.a),
            g: from_bits(w.b),
            gain: level(w.c),
            q: from_bits(w.d),
        },
        5 => Stage::Reverb {
            feedback: single(w.a),
            damping: single(w.b),
            stereo_width: single(w.c),
            mix: single(w.d),
        },
        _ => Stage::Delay {
            frames: short(w.a),
            feedback: level(w.b),
            mix: single(w.c),
            owned: w.d as usize,
        },
    }
}

// Whether the words are a stage: each number fits its type, and no word past the last that the kind uses is
// other than 0. `stage_of` has the kinds' names beside their numbers.
#[tactic(auto, unfolding(crate::specs::Words::is_stage))]
fn is_stage(w: StageWords) -> bool
    ensures { result ≡ is_stage w }
{
    match w.kind {
        0 => (w.length <= 2) & is_level(w.a),
        1 => (w.length <= 2) & is_short(w.a),
        2 => (w.length <= 4) & ((w.a < 2) & (is_level(w.b) & is_short(w.c))),
        3 => (w.length <= 5) & ((w.a < 4) & is_short(w.d)),
        4 => (w.length <= 5) & ((w.a < 3) & is_level(w.c)),
        5 => {
            (w.length <= 5) & ((is_short(w.a) & is_short(w.b)) & (is_short(w.c) & is_short(w.d)))
        }
        6 => (w.length <= 5) & (is_short(w.a) & (is_level(w.b) & is_short(w.c))),
        _ => false,
    }
}

fn word_at(words: &[u64], i: usize) -> u64
    ensures { result ≡ word_at words.now i }
{
    words.get(i).copied().unwrap_or(0)
}

// How many of the twelve words from `at` on are left without the zeros at their end.
fn length_from(words: &[u64], at: usize) -> usize
    requires { at + word_count < 0x1_0000_0000_0000_0000 }
    ensures { result ≡ length_from words.now at word_count }
{
    for n in (0..WORDS).rev() {
        if word_at(words, at + n) != 0 {
            return n + 1;
        }
    }
    0
}

fn stage_words(words: &[u64], i: usize) -> StageWords
    requires { word_count * i + word_count < 0x1_0000_0000_0000_0000 }
    ensures { result ≡ stage_words words.now i }
{
    let at = WORDS * i;
    StageWords {
        kind: word_at(words, at),
        a: word_at(words, at + 1),
        b: word_at(words, at + 2),
        c: word_at(words, at + 3),
        d: word_at(words, at + 4),
        length: length_from(words, at),
    }
}

// The list place of the first words that are no stage, if there are such.
pub fn first_unknown(words: &[u64]) -> Option<usize>
    ensures { result ≡ found_of (λ i. decide (unknown_at words.now i)) (count_of words.now) }
{
    (0..words.len() / WORDS).find(|&i| !is_stage(stage_words(words, i)))
}

// The chain that the words are, at this rate. Stages past the 16th are counted and not kept, and fewer than
// twelve words at the end are left out. Words that are no stage give some stage all the same: ask
// `first_unknown` first.
pub fn setup_of(rate: u32, words: &[u64]) -> Setup
    ensures { result ≡ setup_of rate words.now }
{
    Setup {
        rate,
        count: words.len() / WORDS,
        slots: array::from_fn(|i| Slot {
            stage: stage_of(stage_words(words, i)),
        }),
    }
}
