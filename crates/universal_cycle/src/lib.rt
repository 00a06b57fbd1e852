// The universal cycle theorem: a round of a(n) steps of a rule meets each weak order of n once (specs/Round.antt); so from two starts it is one
// list (specs/TwoStarts.antt).
// Rests on weak_orders, ranking and successors. Holds no code: the claim is in specs/, its proof in proofs/.
#![tactic(auto)]
