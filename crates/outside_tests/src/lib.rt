// Tests of threads at gates, files, sockets and clocks, through the public calls.
//
// They stand in one crate at the top, since a test is proved together with the whole crate that it stands in.
#![tactic(auto)]

#[cfg(test)]
mod clocks;
#[cfg(test)]
mod connections;
#[cfg(test)]
mod disks;
#[cfg(test)]
mod gates;
#[cfg(test)]
mod groups;
#[cfg(test)]
mod hosts;
#[cfg(test)]
mod links;
#[cfg(test)]
mod members;
#[cfg(test)]
mod memories;
#[cfg(test)]
mod nodes;
#[cfg(test)]
mod parts;
#[cfg(test)]
mod readers;
#[cfg(test)]
mod writers;
