//! Tests of answers: the types of queries (`query_check`), what a query means over a table (`uni_meaning`), who
//! may see an edge (`viewer_policy`), and queries over a shard (`shard_eval`) and a version (`apply_extract`).
#![tactic(auto)]

#[cfg(test)]
mod tests;
