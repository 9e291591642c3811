// Laws on IEEE 754 that the kit's account of it (lib.Ieee) lacks. There is no code: the definitions are in specs/, the
// laws in proofs/.
#![tactic(auto)]
