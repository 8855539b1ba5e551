//! Tests of what leads from lines to tables: headers (`uni_schema`), tables (`uni_table`), commands
//! (`packed_command`), lines of a feed (`feed_reader`) and scripts (`script_rounds`).
#![tactic(auto)]

#[cfg(test)]
mod tests;
