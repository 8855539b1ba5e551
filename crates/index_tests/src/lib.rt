//! Tests of the index: shards of a table by layers (`shard_index`), and versions of them under a lock
//! (`version_catalog`).
#![tactic(auto)]

#[cfg(test)]
mod tests;
