//! Tests of the crates of files, words and endings, from outside: each public call once, worked files with
//! their first fault, and the texts that no clause says. It has no code of its own.
//!
//! The tests of a crate stand here and not in it, since a crate with tests is proved twice. Modules: `bytes`
//! is of `byte_scan`, `circuit_texts` of `circuit_text` and of what `aiger_binary` writes, `ascii` of
//! `aiger_ascii`, `binary` of what `aiger_binary` reads, `forms` of `aiger_file`, `pairings` of `netlist`,
//! `formulas` of `dimacs_text`, `proof_lines` of `lrat_text`, `proof_checks` of `lrat_checker`, `desks` and
//! `pieces` of `desk_port`, `real_desks` of `os_desk`, `proof_runs` of `lrat_run`, `ends` of `endings`,
//! `words` of `command_line`, `workloads` of `workload_gen`; `texts` has the texts of the faults of all,
//! `circuits` what the readers of circuits are compared by, `tables` the tables that are texts, and `checks`
//! what ends each comparison. Begin to read at `bytes.rt`.
#![tactic(auto)]

#[cfg(test)]
mod ascii;
#[cfg(test)]
mod binary;
#[cfg(test)]
mod bytes;
#[cfg(test)]
mod checks;
#[cfg(test)]
mod circuit_texts;
#[cfg(test)]
mod circuits;
#[cfg(test)]
mod desks;
#[cfg(test)]
mod ends;
#[cfg(test)]
mod forms;
#[cfg(test)]
mod formulas;
#[cfg(test)]
mod pairings;
#[cfg(test)]
mod pieces;
#[cfg(test)]
mod proof_checks;
#[cfg(test)]
mod proof_lines;
#[cfg(test)]
mod proof_runs;
#[cfg(test)]
mod real_desks;
#[cfg(test)]
mod tables;
#[cfg(test)]
mod texts;
#[cfg(test)]
mod words;
#[cfg(test)]
mod workloads;
