// No code, only theory: theorems about the definitions of crate `wav_samples`. Each is stated under a
// name of its own in specs/Evidence.antt, so that none can go missing unnoticed.
#![tactic(auto)]
