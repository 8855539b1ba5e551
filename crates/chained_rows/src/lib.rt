//! What holds of rows that stand in the order in which they came, are marked where they are gone, and
//! are chained back to earlier rows. Definitions and lemmas alone.
#![tactic(auto)]
