// Document 01's thirteen worked numbers, as one listing under one statement. There is no code: the listing is in
// specs/, its proof in proofs/.
#![tactic(auto)]
