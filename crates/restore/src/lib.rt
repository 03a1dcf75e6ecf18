// Demand 3: a rectangle copied aside, written over and copied back. specs/Restore.antt states it over `written`, proofs/Restores.antt proves it.
#![tactic(auto)]
