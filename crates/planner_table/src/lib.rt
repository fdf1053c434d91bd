// The table of layers in the search space: sets of sets of targets, and the settings of a slot that have a state.
// Layer d has the states that d operations lead to. Layer 0 is the start and has no slot, so layer d stands in slot d - 1:
//
//     layer     1          2             ..    16
//     slot      0          1             ..    15
//     entries   0 .. 728   729 .. 1457   ..    10935 .. 11663
//
// Entry x of a slot has the sets of targets with which the layer reaches setting x, as the bits of one number.
#![tactic(auto)]

pub mod sets;
pub mod slots;
