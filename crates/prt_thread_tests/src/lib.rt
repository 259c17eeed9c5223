//! Tests of registries of grace periods, of publishers and services over databases in memory, of sessions and atomic files
//! over a service, of workers and of the loop that accepts connections.
#![tactic(auto)]

#[cfg(test)]
mod atomic;
#[cfg(test)]
mod caller;
#[cfg(test)]
mod connections;
#[cfg(test)]
mod followers;
#[cfg(test)]
mod front;
#[cfg(test)]
mod grace;
#[cfg(test)]
mod held_versions;
#[cfg(test)]
mod kept_version;
#[cfg(test)]
mod learning;
#[cfg(test)]
mod loopback;
#[cfg(test)]
mod memory;
#[cfg(test)]
mod overlap;
#[cfg(test)]
mod phases;
#[cfg(test)]
mod pipeline;
#[cfg(test)]
mod slow_looker;
#[cfg(test)]
mod together;
