// A theorem alone: demand 3. specs/RoundTrip.antt has the events and the claim, proofs/RoundTrip.antt the theorem.
#![tactic(auto)]
