//! The program's commands over sources and sinks in memory: what each answers, reads and writes that fail, and what the coder is
//! asked. All of it is tests, so without them the crate is empty, and it is proved once.
#![tactic(auto)]

#[cfg(test)]
mod coding_commands;
#[cfg(test)]
mod command_coders;
#[cfg(test)]
mod command_faults;
#[cfg(test)]
mod command_runs;
#[cfg(test)]
mod command_scripts;
#[cfg(test)]
mod drips;
#[cfg(test)]
mod gen_command;
#[cfg(test)]
mod meeting;
#[cfg(test)]
mod meetings;
#[cfg(test)]
mod piped;
#[cfg(test)]
mod play_command;
#[cfg(test)]
mod tables;
#[cfg(test)]
mod threads_command;
#[cfg(test)]
mod verify_command;
