//! Tests of layers: posting lists (`posting_lists`), stacks of their layers (`layer_stack`), forward records
//! (`forward_data`), merges (`layer_merge`) and terms of a prefix (`prefix_terms`).
#![tactic(auto)]

#[cfg(test)]
mod tests;
